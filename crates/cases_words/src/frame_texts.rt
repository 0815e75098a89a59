// Bytes of a frame: two digits of hexadecimal each, or themselves between two `'`; spaces between them say nothing.
use crate::Failure;
use std::alloc::Global;

fn digit(byte: u8) -> Result<u8, Failure> {
    match byte {
        b'0'..=b'9' => Ok(byte - b'0'),
        b'a'..=b'f' => Ok(byte - b'a' + 10),
        _ => Err(Failure::Words),
    }
}

/// Bytes that are read from a text: whether the text stands between two `'`, and the digit that waits for a second one.
#[derive(Drop)]
struct Reading {
    bytes: Vec<u8>,
    quoted: bool,
    half: Option<u8>,
}

fn put_digit(reading: &mut Reading, value: u8) -> Result<(), Failure> {
    match reading.half {
        Some(high) => {
            reading.half = None;
            Ok(reading.bytes.push(high.wrapping_mul(16) | value)?)
        }
        None => {
            reading.half = Some(value);
            Ok(())
        }
    }
}

fn step(reading: &mut Reading, byte: u8) -> Result<(), Failure> {
    if byte == b'\'' {
        reading.quoted = !reading.quoted;
        return Ok(());
    }
    if reading.quoted {
        return Ok(reading.bytes.push(byte)?);
    }
    if byte == b' ' {
        return Ok(());
    }
    put_digit(reading, digit(byte)?)
}

/// The bytes of a frame.
pub fn frame_bytes(alloc: Global, text: &str) -> Result<Vec<u8>, Failure> {
    let mut reading = Reading {
        bytes: Vec::new(alloc),
        quoted: false,
        half: None,
    };
    for byte in text.as_bytes() {
        step(&mut reading, *byte)?;
    }
    Ok(reading.bytes)
}
