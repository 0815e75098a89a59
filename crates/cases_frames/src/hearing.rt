// Messages that are heard: the frame of a message in one piece and byte by byte.
ghost use Rattle.std.specs.Prelude.{◌≡◌, ◌+◌, ◌≤◌, length};
ghost use Rattle.wire_reading.specs.Frame.{length_of};

use cases_words::{Failure, put_ok, put_some};
use desk_ports::Bytes;
use std::alloc::Global;
use wire_messages::{Feeder, Framed, Heard, decode, encode, encode_into};

fn length_of(bytes: &[u8]) -> u32
    requires { 4 ≤ length bytes.now }
    ensures { result ≡ length_of bytes.now }
{
    u32::from_be_bytes([bytes[0], bytes[1], bytes[2], bytes[3]])
}

fn put_decoded(
    list: &mut Vec<Framed>,
    alloc: Global,
    heard: Heard,
    frame: &[u8],
) -> Result<(), Failure>
    requires { length frame.now ≡ length_of frame.now + 4 }
{
    put_ok(list, decode(alloc, heard, frame))
}

/// The message that a frame is decoded as, in a list.
pub fn decoded(alloc: Global, heard: Heard, frame: &[u8]) -> Result<Vec<Framed>, Failure> {
    if frame.len() < 4 {
        return Err(Failure::Words);
    }
    if frame.len() != length_of(frame) as usize + 4 {
        return Err(Failure::Words);
    }
    let mut list = Vec::new(alloc);
    put_decoded(&mut list, alloc, heard, frame)?;
    Ok(list)
}

/// Puts the next message that waits behind the others, if one does.
pub fn put_taken(list: &mut Vec<Framed>, feeder: &mut Feeder) -> Result<(), Failure> {
    put_some(list, feeder.take())
}

fn fed(feeder: &mut Feeder, piece: &[u8]) -> Result<(), Failure> {
    match feeder.feed(piece) {
        Ok(()) => Ok(()),
        Err(_) => Err(Failure::Refused),
    }
}

/// The message of a frame that comes in one piece, in a list.
pub fn heard_whole(alloc: Global, heard: Heard, frame: &[u8]) -> Result<Vec<Framed>, Failure> {
    let mut feeder = Feeder::new(alloc, heard);
    let mut list = Vec::new(alloc);
    fed(&mut feeder, frame)?;
    put_taken(&mut list, &mut feeder)?;
    Ok(list)
}

// Feeds the frame byte by byte. No byte before the last makes it whole, and each is counted.
fn put_bytes(list: &mut Vec<Framed>, feeder: &mut Feeder, frame: &[u8]) -> Result<(), Failure> {
    for (count, byte) in frame.iter().enumerate() {
        put_taken(list, feeder)?;
        if feeder.rest() != count || !list.is_empty() {
            return Err(Failure::Refused);
        }
        fed(feeder, &[*byte])?;
    }
    put_taken(list, feeder)
}

/// The message of a frame that comes byte by byte, in a list.
pub fn heard_in_bytes(alloc: Global, heard: Heard, frame: &[u8]) -> Result<Vec<Framed>, Failure> {
    let mut feeder = Feeder::new(alloc, heard);
    let mut list = Vec::new(alloc);
    put_bytes(&mut list, &mut feeder, frame)?;
    Ok(list)
}

/// How the one message is spelled, in a buffer of its own and in one that held other bytes.
pub fn spelled(alloc: Global, list: &[Framed]) -> Result<Bytes, Failure> {
    let [framed] = list else {
        return Err(Failure::Refused);
    };
    let mut buffer = Bytes::of(b"other bytes".to_vec(alloc)?);
    let (Ok(frame), Ok(())) = (encode(alloc, framed), encode_into(&mut buffer, framed)) else {
        return Err(Failure::Refused);
    };
    if buffer.as_slice() != frame.as_slice() {
        return Err(Failure::Refused);
    }
    Ok(frame)
}

/// The one message with the names of its fields.
pub fn framed_text(alloc: Global, list: &[Framed]) -> Result<String, Failure> {
    let [framed] = list else {
        return Err(Failure::Refused);
    };
    Ok(format!(in alloc; "{:?}", framed.message)?)
}
