// Fields of a line.
ghost use Rattle.std.specs.Prelude.{◌≡◌, ◌*◌, ◌+◌, ◌<◌, ◌≤◌, ℕ, List, IfSome};
ghost use Rattle.ctl_import.specs.Fields as word;

use cynara_keys::Kind;

/// The field at the front, and what is behind the semicolon that follows it.
pub(crate) fn field_before(text: &[u8]) -> Option<(&[u8], &[u8])>
    ensures { IfSome result (λ cut. text.now ≡ word.then_field cut.0.now cut.1.now) }
{
    let end = text.iter().position(|byte| *byte == b';')?;
    Some((&text[..end], &text[end + 1..]))
}

/// A result as a data base has it.
#[derive(Clone, Copy)]
pub(crate) struct Ruling<'a> {
    pub kind: Kind,
    pub metadata: &'a [u8],
}

/// `KIND;METADATA`, to the end of the line.
pub(crate) fn ruling_in(text: &[u8]) -> Option<Ruling<'_>>
    ensures { IfSome result (λ ruling. (kind : List ℕ) × (text.now ≡ word.ruling_text kind ruling)) }
{
    let (kind, metadata) = field_before(text)?;
    if metadata.contains(&b';') {
        return None;
    }
    let kind = kind_in(kind)?;
    Some(Ruling { kind, metadata })
}

// The number of a kind in hexadecimal, with or without `0x`.
fn kind_in(text: &[u8]) -> Option<Kind> {
    let digits = match text.strip_prefix(b"0x") {
        Some(digits) => digits,
        None => text,
    };
    if digits.is_empty() || digits.len() > 8 {
        return None;
    }
    let mut number = 0u64;
    for digit in digits {
        number = more(number, digit_of(*digit)?)?;
    }
    match u16::try_from(number) {
        Ok(number) => Some(Kind(number)),
        Err(_) => None,
    }
}

// The number with one more digit, where it is not too large.
fn more(number: u64, digit: u8) -> Option<u64>
    ensures { IfSome result (λ longer. longer ≡ number * 16 + digit) }
{
    number.checked_mul(16)?.checked_add(u64::from(digit))
}

fn digit_of(byte: u8) -> Option<u8> {
    match byte {
        b'0'..=b'9' => Some(byte - b'0'),
        b'a'..=b'f' => Some(byte - b'a' + 10),
        b'A'..=b'F' => Some(byte - b'A' + 10),
        _ => None,
    }
}
