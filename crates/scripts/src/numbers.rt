// Which words of a row are numbers.
ghost use Rattle.std.specs.Prelude.{◌≡◌};
ghost use Rattle.scripts.specs.Numbers.{is_number, are_numbers};

use text::fields::word;

// Whether a word has nothing but digits.
fn is_number(word: &[u8]) -> bool
    ensures { result ≡ is_number word.now }
{
    word.iter().all(|b| b.is_ascii_digit())
}

// Whether the words of a row from one up to another are numbers.
pub(crate) fn are_numbers(row: &[u8], first: usize, end: usize) -> bool
    ensures { result ≡ are_numbers first end row.now }
{
    (first..end).all(|k| is_number(word(row, k)))
}
