// A number and its characters: decimal digits, or whole characters as digits of base 256.
ghost use Rattle.std.specs.Prelude.{◌≡◌, false, ◌+◌, ◌*◌, ◌-◌, ◌/◌, ◌%◌, ◌≤◌, length};
ghost use Rattle.laws.specs.Numerals.{base, nought, numeral, left_of, number_on};

// What is left of a number when its low digit is taken.
// decimal is an argument and no const parameter: it is asked of a letter at run time (is_decimal), so each call would be written for both bases.
// put_numeral, left_of and permits_digits share this and low_digit, and no walk: what a turn does with a digit differs.
pub(crate) fn quotient(decimal: bool, n: u32) -> u32
    ensures { result ≡ n / base decimal }
{
    if decimal { n / 10 } else { n / 256 }
}

// The character of a number's low digit.
pub(crate) fn low_digit(decimal: bool, n: u32) -> u8
    ensures { result ≡ nought decimal + n % base decimal }
{
    if decimal {
        b'0' + (n % 10) as u8
    } else {
        (n % 256) as u8
    }
}

// Fills a part with a number's low digits.
// No Display: digits of base 256 are no text.
#[tactic(auto, unfolding(laws::specs::Numerals::numeral_on))]
pub(crate) fn put_numeral(part: &mut [u8], decimal: bool, n: u32)
    ensures { part.new ≡ numeral decimal (length part.old) n }
{
    let mut m = n;
    // By index: tried over iter_mut().rev(), and the proof didn't close, since nothing is then known of what the part holds.
    for i in (0..part.len()).rev() {
        part[i] = low_digit(decimal, m);
        m = quotient(decimal, m);
    }
}

// What is left of a number when its w low digits are taken.
#[tactic(auto, unfolding(laws::specs::Numerals::left_of), using(crate::proofs::Digits::left_step))]
pub(crate) fn left_of(decimal: bool, w: usize, n: u32) -> u32
    ensures { result ≡ left_of decimal w n }
{
    let mut m = n;
    for _ in 0..w {
        m = quotient(decimal, m);
    }
    m
}

// The number that a number's digits and one digit more say.
fn with_digit(decimal: bool, a: u32, b: u8) -> u32
    requires { a ≤ 10000000 }
    ensures { result ≡ a * base decimal + (b - nought decimal) % base decimal }
{
    if decimal {
        a * 10 + u32::from(b.saturating_sub(b'0') % 10)
    } else {
        a * 256 + u32::from(b)
    }
}

// The number that digits say.
#[tactic(auto, unfolding(laws::specs::Numerals::number_on), using(crate::proofs::Digits::digit_more))]
pub(crate) fn number_said(decimal: bool, text: &[u8]) -> u32
    requires { (length text.now ≤ 6) × (decimal ≡ false → length text.now ≤ 3) }
    ensures { result ≡ number_on decimal 0 text.now }
{
    let mut a: u32 = 0;
    for b in text {
        a = with_digit(decimal, a, *b);
    }
    a
}
