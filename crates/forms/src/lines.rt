// The lines (rules L1 to L4, V17, K4, M7), one row each: all that depends on the line alone.
ghost use Rattle.std.specs.Prelude.{◌≡◌};
ghost use Rattle.forms.specs.Lines.{is_line, line_of, is_key};

// How many lines there are.
pub const LINE_COUNT: usize = 3;

// A line: the type that the master polls with, T0's limit while it is reduced and T0's limit (the same where it never is), and whether A carries a key position when it answers t.
// reduced is no Option: with the same number in both, t0_of picks one of the two and asks nothing more.
#[derive(Clone, Copy)]
pub struct Line {
    pub poll: u8,
    pub reduced: u32,
    pub t0: u32,
    pub keyed: bool,
}

pub const LINES: [Line; LINE_COUNT] = [
    // 1: ATC-TC
    Line {
        poll: b'r', // for B
        reduced: 20000,
        t0: 20000,
        keyed: false,
    },
    // 2: ATC-MSR3
    Line {
        poll: b'r', // for 5
        reduced: 5000,
        t0: 5000,
        keyed: false,
    },
    // 3: MSR3-TC
    Line {
        poll: b't',
        reduced: 10000,
        t0: 20000,
        keyed: true,
    },
];

// Whether there is such a line.
// A line is a u8 and no enum, as is a key position: public functions answer for every byte, and refuse 15 where it is no line.
pub fn is_line(line: u8) -> bool
    ensures { result ≡ is_line line }
{
    1 <= line && usize::from(line) <= LINE_COUNT
}

// The row of a line, and a row that polls with nothing where there is no such line.
// No Option: docs/PROMISES.md has it as Lines.line_of, which has such a row. No get: is_line says which lines there are.
#[tactic(auto, unfolding(crate::specs::Lines::line_of))]
pub fn line_of(line: u8) -> Line
    ensures { result ≡ line_of line }
{
    if is_line(line) {
        LINES[usize::from(line - 1)]
    } else {
        Line {
            poll: 0,
            reduced: 0,
            t0: 0,
            keyed: false,
        }
    }
}

// Whether a character is a key position.
pub fn is_key(b: u8) -> bool
    ensures { result ≡ is_key b }
{
    matches!(b, b'A' | b'X' | b'Y')
}
