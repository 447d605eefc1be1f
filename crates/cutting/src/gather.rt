// Gathering a telegram item by item, in a state by value (rules C1 to C6, E12).
ghost use Rattle.std.specs.Prelude.{◌≡◌, ◌<◌};
ghost use Rattle.characters.specs.Marks.{longest};
ghost use Rattle.cutting.specs.Turns.{turn_of};
ghost use Rattle.cutting.specs.Gather.{gathered_of, at_start, holding, shut, turned, gather_of};

use crate::turns::{Turn, turn_of};
use characters::marks::LONGEST;
use records::refusals::Refusal;

// A heard item is a byte or a hit.
// No Option of a byte: a hit is heard too, and drops what was begun.
#[derive(Clone, Copy)]
pub enum Item {
    Byte(u8),
    Hit,
}

// The bytes gathered so far and their number: 0 outside a telegram, as turn_of has it.
// Fixed memory with a length beside: there is no heap, and the C interface's gatherer (IN656_GATHERER_LENGTH) holds both.
#[derive(Clone, Copy)]
pub struct Gatherer {
    pub bytes: [u8; LONGEST],
    pub len: usize,
}

// A step hands out nothing, or a telegram of so many bytes, or refuses.
pub type Gathered = Result<Option<usize>, Refusal>;

// The state behind a step, which holds a telegram's bytes at its front, beside the answer.
// Named by its state, as desk::state::Step says.
#[derive(Clone, Copy)]
pub struct Step {
    pub gatherer: Gatherer,
    pub answer: Gathered,
}

impl Gatherer {
    // Outside a telegram.
    pub fn start() -> Self
        ensures { result ≡ at_start }
    {
        Gatherer {
            bytes: [0u8; LONGEST],
            len: 0,
        }
    }

    // A byte put at an index, with so many bytes gathered.
    fn put(self, at: usize, byte: u8, len: usize) -> Gatherer
        requires { at < longest }
        ensures { result ≡ holding self at byte len }
    {
        let mut next = Gatherer { len, ..self };
        next.bytes[at] = byte;
        next
    }

    // Outside a telegram, the bytes as they are.
    fn close(self) -> Gatherer
        ensures { result ≡ shut self }
    {
        Gatherer { len: 0, ..self }
    }

    // One byte.
    // blocks does the same on a block that is lent: what both share is the rule, turn_of.
    #[tactic(auto, unfolding(crate::specs::Turns::turn_of))]
    fn gather_byte(self, byte: u8) -> Step
        requires { self.len < longest }
        ensures { (result.gatherer, gathered_of result.answer) ≡ turned self byte (turn_of self.len byte) }
    {
        let (gatherer, answer) = match turn_of(self.len, byte) {
            Turn::Joins(at) => (self.put(at, byte, at + 1), Ok(None)),
            Turn::Ends(at) => (self.put(at, byte, 0), Ok(Some(at + 1))),
            Turn::Drops => (self.close(), Ok(None)),
        };
        Step { gatherer, answer }
    }

    // One item: 15 where the state is out of its ranges; a hit drops what was begun.
    #[tactic(auto, unfolding(crate::specs::Gather::gather_of))]
    pub fn gather(self, item: Item) -> Step
        ensures { (result.gatherer, gathered_of result.answer) ≡ gather_of self item }
    {
        if LONGEST <= self.len {
            return Step {
                gatherer: self,
                answer: Err(Refusal::State),
            };
        }
        match item {
            Item::Byte(byte) => self.gather_byte(byte),
            Item::Hit => Step {
                gatherer: self.close(),
                answer: Ok(None),
            },
        }
    }
}
