// The telegram forms (rules L1 to L19), one row each.
ghost use Rattle.std.specs.Prelude.{◌≡◌};
ghost use Rattle.forms.specs.Rows.{forms};

use crate::lines::LINE_COUNT;

// A form: its type, the lines it is on, whether the master sends it (else the slave does), and its packets' letters and value lengths.
#[derive(Clone, Copy)]
pub struct Form {
    pub kind: u8,
    pub lines: [bool; LINE_COUNT],
    pub master: bool,
    pub count: u8,
    pub letters: [u8; 10],
    pub lens: [u8; 10],
}

// How many rows the table has.
pub const ROW_COUNT: usize = 14;

pub const FORMS: [Form; ROW_COUNT] = [
    Form {
        kind: b'A',
        lines: [true, true, true],
        master: false,
        count: 1,
        letters: [b'A', 0, 0, 0, 0, 0, 0, 0, 0, 0],
        lens: [1, 0, 0, 0, 0, 0, 0, 0, 0, 0],
    },
    Form {
        kind: b'N',
        lines: [true, true, true],
        master: false,
        count: 1,
        letters: [b'N', 0, 0, 0, 0, 0, 0, 0, 0, 0],
        lens: [1, 0, 0, 0, 0, 0, 0, 0, 0, 0],
    },
    Form {
        kind: b'r',
        lines: [true, true, true],
        master: true,
        count: 1,
        letters: [b'B', 0, 0, 0, 0, 0, 0, 0, 0, 0],
        lens: [1, 0, 0, 0, 0, 0, 0, 0, 0, 0],
    },
    Form {
        kind: b't',
        lines: [true, true, true],
        master: true,
        count: 1,
        letters: [b'B', 0, 0, 0, 0, 0, 0, 0, 0, 0],
        lens: [1, 0, 0, 0, 0, 0, 0, 0, 0, 0],
    },
    Form {
        kind: b'c',
        lines: [true, false, false],
        master: true,
        count: 1,
        letters: [b'm', 0, 0, 0, 0, 0, 0, 0, 0, 0],
        lens: [1, 0, 0, 0, 0, 0, 0, 0, 0, 0],
    },
    Form {
        kind: b'5',
        lines: [false, true, false],
        master: false,
        count: 1,
        letters: [b'U', 0, 0, 0, 0, 0, 0, 0, 0, 0],
        lens: [1, 0, 0, 0, 0, 0, 0, 0, 0, 0],
    },
    Form {
        kind: b'o',
        lines: [false, false, true],
        master: true,
        count: 1,
        letters: [b'S', 0, 0, 0, 0, 0, 0, 0, 0, 0],
        lens: [2, 0, 0, 0, 0, 0, 0, 0, 0, 0],
    },
    Form {
        kind: b'G',
        lines: [true, false, false],
        master: true,
        count: 1,
        letters: [b'E', 0, 0, 0, 0, 0, 0, 0, 0, 0],
        lens: [3, 0, 0, 0, 0, 0, 0, 0, 0, 0],
    },
    Form {
        kind: b'F',
        lines: [true, true, false],
        master: true,
        count: 1,
        letters: [b'P', 0, 0, 0, 0, 0, 0, 0, 0, 0],
        lens: [4, 0, 0, 0, 0, 0, 0, 0, 0, 0],
    },
    Form {
        kind: b'n',
        lines: [false, false, true],
        master: true,
        count: 1,
        letters: [b'T', 0, 0, 0, 0, 0, 0, 0, 0, 0],
        lens: [6, 0, 0, 0, 0, 0, 0, 0, 0, 0],
    },
    Form {
        kind: b'B',
        lines: [true, false, false],
        master: false,
        count: 4,
        letters: [b'L', b'%', b'H', b'R', 0, 0, 0, 0, 0, 0],
        lens: [3, 3, 3, 2, 0, 0, 0, 0, 0, 0],
    },
    Form {
        kind: b'K',
        lines: [false, false, true],
        master: false,
        count: 6,
        letters: [b'F', b'D', b'C', b'M', b'V', b'P', 0, 0, 0, 0],
        lens: [3, 2, 2, 2, 3, 4, 0, 0, 0, 0],
    },
    Form {
        kind: b'O',
        lines: [false, false, true],
        master: true,
        count: 7,
        letters: [b'F', b'D', b'C', b'M', b'V', b'P', b'T', 0, 0, 0],
        lens: [3, 2, 2, 2, 3, 4, 6, 0, 0, 0],
    },
    Form {
        kind: b'1',
        lines: [false, true, false],
        master: true,
        count: 10,
        letters: [b'F', b'D', b'C', b'M', b'V', b'P', b'W', b'X', b'Y', b'Z'],
        lens: [3, 2, 2, 2, 3, 4, 1, 1, 1, 1],
    },
];

// The rows of the table.
#[tactic(auto, unfolding(crate::specs::Rows::forms))]
pub fn rows() -> [Form; ROW_COUNT]
    ensures { result ≡ forms }
{
    FORMS
}
