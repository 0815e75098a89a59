//! Decimal numbers.

ghost use Rattle.std.specs.Prelude.{◌≡◌, ◌<◌, ◌^◌, ℕ, Some, None, IsTrue, decimal, nat_le, if◌then◌else◌};
ghost use Rattle.std.specs.Char.{is_ascii_digit};
ghost use Rattle.std.specs.List.{list_all};
ghost use Rattle.std.specs.Str.Parse.{digits_value};
ghost use Rattle.script_words.specs.Numbers.{is_number, number_that};

use std::str;

/// Reads a decimal number up to 4294967295, without a sign and without a leading zero. `None` for every other text.
pub fn read_number(text: &[u8]) -> Option<u32>
    ensures number { result ≡ number_that (λ number. nat_le number 4294967295) text.now }
    // What a number is printed as is read as that number.
    ensures again { (number : ℕ) → number < 2 ^ 32 → text.now ≡ decimal number → result ≡ Some number }
{
    if is_number(text) {
        number_of_digits(text)
    } else {
        None
    }
}

/// The number that digits write, where it is no greater than 4294967295.
fn number_of_digits(text: &[u8]) -> Option<u32>
    requires { IsTrue (is_number text.now) }
    ensures { result ≡ (if nat_le (digits_value 10 text.now) 4294967295
        then Some (digits_value 10 text.now) else None) }
{
    match str::from_utf8(text) {
        Ok(digits) => match digits.parse::<u32>() {
            Ok(number) => Some(number),
            Err(_) => None,
        },
        Err(_) => unreachable!(),
    }
}

/// Whether a text is a digit, or several of which the first is not zero.
fn is_number(text: &[u8]) -> bool
    ensures { result ≡ is_number text.now }
{
    match text {
        [] => false,
        [digit] => digit.is_ascii_digit(),
        [first, ..] => *first != b'0' && are_digits(text),
    }
}

fn are_digits(text: &[u8]) -> bool
    ensures { result ≡ list_all is_ascii_digit text.now }
{
    text.iter().all(|byte| byte.is_ascii_digit())
}
