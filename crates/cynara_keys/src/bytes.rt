// What the bytes of names, buckets' names and metadata may be.
ghost use Rattle.std.specs.Prelude.{◌≡◌, not};
ghost use Rattle.std.specs.List.{position};
ghost use Rattle.cynara_keys.specs.Text as text;

/// Whether a byte is printable ASCII, but not the space and not the semicolon.
pub fn is_visible(byte: u8) -> bool
    ensures { result ≡ text.is_visible byte }
{
    byte > 32 && byte < 127 && byte != b';'
}

/// Whether a byte is an ASCII letter, a digit, `_` or `-`.
pub fn is_word_byte(byte: u8) -> bool
    ensures { result ≡ text.is_word_byte byte }
{
    matches!(byte, b'a'..=b'z' | b'A'..=b'Z' | b'0'..=b'9' | b'_' | b'-')
}

/// The place, from 0, of the first byte that is not visible.
pub fn first_not_visible(bytes: &[u8]) -> Option<usize>
    ensures { result ≡ position (λ byte. not (text.is_visible byte)) bytes.now }
{
    bytes.iter().position(|byte| !is_visible(*byte))
}

/// The place, from 0, of the first byte that is no letter, digit, `_` or `-`.
pub fn first_no_word_byte(bytes: &[u8]) -> Option<usize>
    ensures { result ≡ position (λ byte. not (text.is_word_byte byte)) bytes.now }
{
    bytes.iter().position(|byte| !is_word_byte(*byte))
}
