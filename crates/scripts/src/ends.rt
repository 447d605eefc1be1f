// What the rows of both ends have alike: the row said again, what its call answers in words, and the numbers of the state behind it.
ghost use Rattle.std.specs.Prelude.{◌≡◌, ◌++◌, List, ℕ};
ghost use Rattle.laws.specs.Text.{codes};
ghost use Rattle.text.specs.Putting.{puts};
ghost use Rattle.scripts.specs.Printing.{began_text, output_text};

use crate::printing::{begin, output};
use crate::tellings::InWords;
use text::putting::put_text;

// The state of an end: each row ends with its line and two of its numbers.
pub trait State {
    ghost numbers: { Self → List ℕ };

    fn put_numbers(&self, out: &mut [u8], at: usize) -> usize
        ensures { (result, out.new) ≡ puts (numbers self.now) at out.old };
}

// What a row answers that puts a number into a state.
#[derive(Clone, Copy)]
pub struct Altered;

impl InWords for Altered {
    ghost words = { λ _. codes "altered" };

    fn put(self, out: &mut [u8], at: usize) -> usize {
        put_text(out, at, b"altered")
    }
}

// The state behind a row, beside how many bytes of the output the row prints.
#[derive(Clone, Copy)]
pub struct Printed<S> {
    pub state: S,
    pub length: usize,
}

// What a call answers, and the state's numbers.
pub fn put_answered<A: InWords, S: State>(out: &mut [u8], row: &[u8], answer: A, state: &S) -> usize
    ensures { (result, out.new) ≡ puts (began_text row.now ++ (A.words answer ++ S.numbers state.now)) 0 out.old }
{
    let a = begin(out, row);
    let b = answer.put(out, a);
    state.put_numbers(out, b)
}

// What a call answers, what its output holds, and the state's numbers.
pub fn put_sending<A: InWords, S: State>(
    out: &mut [u8],
    row: &[u8],
    answer: A,
    sent: &[u8],
    state: &S,
) -> usize
    ensures { (result, out.new) ≡ puts (began_text row.now ++ (A.words answer ++ (output_text sent.now ++ S.numbers state.now))) 0 out.old }
{
    let a = begin(out, row);
    let b = answer.put(out, a);
    let c = output(out, b, sent);
    state.put_numbers(out, c)
}

// The state behind a call that answers, and its row.
pub(crate) fn answered<A: InWords, S: State>(
    state: S,
    answer: A,
    row: &[u8],
    out: &mut [u8],
) -> Printed<S>
    ensures same { result.state ≡ state }
    ensures row { (result.length, out.new) ≡ puts (began_text row.now ++ (A.words answer ++ S.numbers state)) 0 out.old }
{
    let length = put_answered(out, row, answer, &state);
    Printed { state, length }
}

// The same of a call that was lent an output.
pub(crate) fn sent<A: InWords, S: State>(
    state: S,
    answer: A,
    row: &[u8],
    output: &[u8],
    out: &mut [u8],
) -> Printed<S>
    ensures same { result.state ≡ state }
    ensures row { (result.length, out.new) ≡ puts (began_text row.now ++ (A.words answer ++ (output_text output.now ++ S.numbers state))) 0 out.old }
{
    let length = put_sending(out, row, answer, output, &state);
    Printed { state, length }
}
