// What one byte does to the telegram that is being gathered (rules C2 to C6): the step's one rule, and that of the search's definition.
ghost use Rattle.std.specs.Prelude.{◌≡◌};
ghost use Rattle.cutting.specs.Turns.{turn_of};

use characters::marks::{CR, LF, UNFINISHED};

// Three outcomes, so no Option of an index.
#[derive(Clone, Copy)]
pub enum Turn {
    // The byte is of the telegram, at this index: LF at 0.
    Joins(usize),
    // The byte is its CR, at this index.
    Ends(usize),
    // The byte is of no telegram, and what was begun is dropped.
    Drops,
}

// What a byte does where len bytes are gathered, 0 outside a telegram.
#[tactic(auto, unfolding(crate::specs::Turns::turn_of))]
pub fn turn_of(len: usize, byte: u8) -> Turn
    ensures { result ≡ turn_of len byte }
{
    // LF begins a telegram, also inside another, which is dropped.
    if byte == LF {
        return Turn::Joins(0);
    }
    // Bytes outside a telegram are skipped.
    if len == 0 {
        return Turn::Drops;
    }
    // CR ends it.
    if byte == CR {
        return Turn::Ends(len);
    }
    // A 66th byte that is neither LF nor CR drops it.
    if UNFINISHED <= len {
        return Turn::Drops;
    }
    Turn::Joins(len)
}
