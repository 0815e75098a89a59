//! Numbers as text.

ghost use Rattle.std.specs.Prelude.{◌≡◌, ◌<◌, ◌++◌, false, decimal, OnOk};
ghost use Rattle.std.specs.Option.{option_map};
ghost use Rattle.std.specs.Fmt.{digits, digit_glyph};
ghost use Rattle.cynara_keys.specs.Text.{same_text};
ghost use Rattle.set_text.specs.Numbers as word;

use cynara_keys::Kind;
use itoa::Buffer;
use std::alloc::AllocError;
use std::str::from_utf8;

/// The number of at most `most` that a text spells in decimal, without sign and leading zeros.
pub fn decimal_of(text: &[u8], most: u64) -> Option<u64>
    ensures { result ≡ word.decimal_of most text.now }
{
    let digits = match from_utf8(text) {
        Ok(digits) => digits,
        Err(_) => return None,
    };
    let number = match digits.parse::<u64>() {
        Ok(number) => number,
        Err(_) => return None,
    };
    if number > most {
        return None;
    }
    if is_decimal(number, text) {
        Some(number)
    } else {
        None
    }
}

// Whether the text is the number in decimal.
fn is_decimal(number: u64, text: &[u8]) -> bool
    ensures { result ≡ same_text (decimal number) text.now }
{
    Buffer::new().format(number).as_bytes() == text
}

/// The kind that a text spells: `0x` and hexadecimal digits, small ones and without leading zeros.
pub fn kind_of(text: &[u8]) -> Option<Kind>
    ensures { option_map (λ kind. kind.0) result ≡ word.kind_of text.now }
{
    let Ok(spelling) = from_utf8(text) else {
        return None;
    };
    let Some(digits) = spelling.strip_prefix("0x") else {
        return None;
    };
    let Ok(number) = u16::from_str_radix(digits, 16) else {
        return None;
    };
    if !is_spelt(number, digits.as_bytes()) {
        return None;
    }
    Some(Kind(number))
}

// Whether these are the digits of the number, small ones and without leading zeros.
fn is_spelt(number: u16, text: &[u8]) -> bool
    ensures { result ≡ same_text (digits 16 false number) text.now }
{
    let Some((last, front)) = text.split_last() else {
        return false;
    };
    if *last != digit(number % 16) {
        return false;
    }
    if number < 16 {
        return front.is_empty();
    }
    is_spelt(number / 16, front)
}

/// Appends the kind in its one spelling. Where memory is wanting, a part of it may stand at the end.
pub fn append_kind(kind: Kind, text: &mut Vec<u8>) -> Result<(), AllocError>
    ensures { OnOk result (text.new.items ≡ text.old.items ++ word.kind_text kind.0) }
{
    text.extend_from_slice(b"0x")?;
    append_hex(kind.0, text)
}

fn append_hex(number: u16, text: &mut Vec<u8>) -> Result<(), AllocError>
    ensures { OnOk result (text.new.items ≡ text.old.items ++ digits 16 false number) }
{
    if number >= 16 {
        append_hex(number / 16, text)?;
    }
    text.push(digit(number % 16))?;
    Ok(())
}

// The digit for a number below 16.
fn digit(number: u16) -> u8
    requires { number < 16 }
    ensures { result ≡ digit_glyph false number }
{
    if number < 10 {
        b'0' + number as u8
    } else {
        b'a' + (number - 10) as u8
    }
}
