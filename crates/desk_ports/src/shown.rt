// Bytes from the outside, as a person is shown them: none moves the cursor of a terminal or ends the line.
ghost use Rattle.std.specs.Prelude.{◌≡◌, ◌≤◌, ◌<◌, [], ◌∷◌, ◌++◌, true, take, length, IfOk, OnOk, string_bytes};
ghost use Rattle.desk_ports.specs.Shown as word;

use std::alloc::{AllocError, Global};

/// The bytes as a text that no terminal acts on. A byte that is no printable ASCII, and a backslash, stands as `\x`
/// with two digits of hexadecimal, and of all that is shown the first `most` bytes are kept.
pub fn shown_bytes(alloc: Global, bytes: &[u8], most: usize) -> Result<String, AllocError>
    ensures shown { IfOk result (λ text. string_bytes text ≡ word.shown_bytes most bytes.now) }
    ensures printable { IfOk result (λ text. word.IsPrintable (string_bytes text)) }
{
    let mut text = String::new(alloc);
    for byte in bytes {
        push_shown(&mut text, *byte, most)?;
    }
    Ok(text)
}

fn push_shown(text: &mut String, byte: u8, most: usize) -> Result<(), AllocError>
    requires short { length (string_bytes text.old) ≤ most }
    requires printable { word.IsPrintable (string_bytes text.old) }
    ensures shown { OnOk result (string_bytes text.new ≡ take most (string_bytes text.old ++ word.shown_byte byte)) }
    ensures printable { OnOk result (word.IsPrintable (string_bytes text.new)) }
{
    if is_plain(byte) {
        return push_short(text, byte, most);
    }
    push_escaped(text, byte, most)
}

fn push_escaped(text: &mut String, byte: u8, most: usize) -> Result<(), AllocError>
    requires short { length (string_bytes text.old) ≤ most }
    requires printable { word.IsPrintable (string_bytes text.old) }
    ensures shown { OnOk result (string_bytes text.new ≡ take most (string_bytes text.old ++ word.escaped_byte byte)) }
    ensures printable { OnOk result (word.IsPrintable (string_bytes text.new)) }
{
    push_short(text, b'\\', most)?;
    push_short(text, b'x', most)?;
    push_short(text, hex_digit(byte / 16), most)?;
    push_short(text, hex_digit(byte % 16), most)?;
    Ok(())
}

// Adds the byte, where there is room for it.
fn push_short(text: &mut String, byte: u8, most: usize) -> Result<(), AllocError>
    requires byte { word.is_printable byte ≡ true }
    requires short { length (string_bytes text.old) ≤ most }
    requires printable { word.IsPrintable (string_bytes text.old) }
    ensures shown { OnOk result (string_bytes text.new ≡ take most (string_bytes text.old ++ byte ∷ [])) }
    ensures short { OnOk result (length (string_bytes text.new) ≤ most) }
    ensures printable { OnOk result (word.IsPrintable (string_bytes text.new)) }
{
    if text.len() < most {
        text.push(char::from(byte))
    } else {
        Ok(())
    }
}

fn is_plain(byte: u8) -> bool
    ensures { result ≡ word.is_plain byte }
{
    matches!(byte, b' '..=b'~') && byte != b'\\'
}

fn hex_digit(value: u8) -> u8
    requires { value < 16 }
    ensures digit { result ≡ word.hex_digit value }
    ensures printable { word.is_printable result ≡ true }
{
    if value < 10 {
        b'0' + value
    } else {
        b'a' - 10 + value
    }
}
