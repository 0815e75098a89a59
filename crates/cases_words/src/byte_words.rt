// Bytes as a word: as themselves, but for `\n`, `\r` and `\s`, which is a space.
use std::alloc::{AllocError, Global};

fn escaped(byte: u8) -> u8 {
    match byte {
        b'n' => b'\n',
        b'r' => b'\r',
        b's' => b' ',
        _ => byte,
    }
}

/// The bytes that a word stands for.
pub fn bytes_of(alloc: Global, word: &str) -> Result<Vec<u8>, AllocError> {
    let mut bytes = Vec::new(alloc);
    let mut is_escaped = false;
    for byte in word.as_bytes() {
        if is_escaped {
            bytes.push(escaped(*byte))?;
            is_escaped = false;
        } else if *byte == b'\\' {
            is_escaped = true;
        } else {
            bytes.push(*byte)?;
        }
    }
    Ok(bytes)
}

/// Adds bytes to a text as a word has them.
pub fn put_bytes(text: &mut String, bytes: &[u8]) -> Result<(), AllocError> {
    for byte in bytes {
        match *byte {
            b'\n' => text.push_str("\\n")?,
            b'\r' => text.push_str("\\r")?,
            b' ' => text.push_str("\\s")?,
            byte => text.push(char::from(byte))?,
        }
    }
    Ok(())
}
