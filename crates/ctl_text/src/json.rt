// Strings of JSON.
use crate::words::put;
use desk_ports::Bytes;
use std::alloc::AllocError;

const DIGITS: [u8; 16] = *b"0123456789abcdef";

/// Appends the bytes as a string of JSON. A byte that is no printable ASCII stands as `\u00` and two digits.
pub fn put_json(out: &mut Bytes, text: &[u8]) -> Result<(), AllocError> {
    put(out, "\"")?;
    for byte in text {
        put_byte(out, *byte)?;
    }
    put(out, "\"")
}

fn put_byte(out: &mut Bytes, byte: u8) -> Result<(), AllocError> {
    match byte {
        b'"' => put(out, "\\\""),
        b'\\' => put(out, "\\\\"),
        b' '..=b'~' => out.append(&[byte]),
        _ => {
            put(out, "\\u00")?;
            out.append(&[
                DIGITS[usize::from(byte / 16)],
                DIGITS[usize::from(byte % 16)],
            ])
        }
    }
}

/// Appends a comma, the name and the string, as a further field of an object.
pub fn put_json_field(out: &mut Bytes, name: &str, text: &[u8]) -> Result<(), AllocError> {
    put(out, ",")?;
    put_json(out, name.as_bytes())?;
    put(out, ":")?;
    put_json(out, text)
}
