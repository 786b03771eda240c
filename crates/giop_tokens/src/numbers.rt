//! Decimal numbers without leading zeros.
ghost use Rattle.std.specs.Prelude.{◌≡◌, ◌≤◌, length, ◌^◌, ◌<◌, true};
ghost use Rattle.std.specs.List.{list_all};
ghost use Rattle.std.specs.Str.Parse.{digits_value};
ghost use Rattle.giop_tokens.specs.Tokens.{is_digit, number_of};

/// The greatest number of digits in a number.
const DIGITS_MAX: usize = 20;

/// Whether an octet is a decimal digit.
pub fn is_digit(b: u8) -> bool
    ensures { result ≡ is_digit b }
{
    b.is_ascii_digit()
}

/// Whether each octet is a decimal digit.
fn are_digits(word: &[u8]) -> bool
    ensures { result ≡ list_all is_digit word.now }
{
    word.iter().all(|b| is_digit(*b))
}

/// The number that at most 20 digits are.
fn decimal_value(digits: &[u8]) -> u128
    requires some { list_all is_digit digits.now ≡ true }
    requires few { length digits.now ≤ 20 }
    ensures { result ≡ digits_value 10 digits.now }
{
    let mut n: u128 = 0;
    for d in digits {
        n = n * 10 + u128::from(*d - b'0');
    }
    n
}

/// The number below 2^64 that a word is, if it is one.
#[tactic(auto, unfolding(crate::specs::Tokens::is_number))]
pub fn number_of(word: &[u8]) -> Option<u64>
    ensures { result ≡ number_of word.now }
{
    if word.is_empty() || word.len() > DIGITS_MAX || !are_digits(word) {
        return None;
    }
    if word.len() != 1 && word[0] == b'0' {
        return None;
    }
    u64::try_from(decimal_value(word)).ok()
}
