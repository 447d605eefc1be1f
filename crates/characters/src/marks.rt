// The bytes that begin and end a telegram, and how long it may be (rules B1, B2).

// Line feed, its first byte.
pub const LF: u8 = 0x0A;

// Carriage return, its last byte.
pub const CR: u8 = 0x0D;

// The fewest bytes of a telegram, LF and CR included.
pub const SHORTEST: usize = 10;

// The most bytes of a telegram, LF and CR included.
pub const LONGEST: usize = 66;

// The most bytes of a telegram that lacks its CR.
pub const UNFINISHED: usize = LONGEST - 1;
