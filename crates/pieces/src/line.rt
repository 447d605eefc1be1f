// The line that the first byte of an input names (rules P1, P3).
ghost use Rattle.std.specs.Prelude.{◌≡◌};
ghost use Rattle.pieces.specs.Line.{bad_line, line_named};

use forms::lines::is_line;

// The line that a capture's first byte names, 0 where it names none.
// 0 and no Option: docs/PROMISES.md has it as Line.line_named, which says 0.
#[tactic(auto, unfolding(crate::specs::Line::line_named))]
pub fn line_named(digit: u8) -> u8
    ensures { result ≡ line_named digit }
{
    let line = digit.saturating_sub(b'0');
    if is_line(line) { line } else { 0 }
}

// What an input of no line prints.
pub fn bad_line() -> [u8; 8]
    ensures { result ≡ bad_line }
{
    *b"no 15 0\n"
}
