// A row for each thing that is compared.
ghost use Rattle.std.specs.Prelude.{◌≡◌, ◌++◌};
ghost use Rattle.text.specs.Putting.{puts};
ghost use Rattle.text.specs.Compared.{end_text, row_text};

use crate::fields::same;
use crate::putting::put_text;

// A text behind another.
// No Display, as putting says.
fn put_behind(out: &mut [u8], at: usize, word: &[u8], text: &[u8]) -> usize
    ensures { (result, out.new) ≡ puts (word.now ++ text.now) at out.old }
{
    let a = put_text(out, at, word);
    put_text(out, a, text)
}

// The end of a row, with a mark where the two differ.
fn put_end(out: &mut [u8], at: usize, agree: bool) -> usize
    ensures { (result, out.new) ≡ puts (end_text agree) at out.old }
{
    if agree {
        return put_text(out, at, b"\n");
    }
    put_text(out, at, b", DIFFERS\n")
}

// A row: its name, what was expected and what came.
// The two texts stay arguments, as row_text takes them; counted alone takes them too.
pub fn put_row(out: &mut [u8], at: usize, name: &[u8], expected: &[u8], came: &[u8]) -> usize
    ensures { (result, out.new) ≡ puts (row_text name.now expected.now came.now) at out.old }
{
    let a = put_text(out, at, name);
    let b = put_behind(out, a, b": expected ", expected);
    let c = put_behind(out, b, b", came ", came);
    put_end(out, c, same(expected, came))
}
