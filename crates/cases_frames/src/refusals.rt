// What refuses bytes, whole and byte by byte.
use std::alloc::{AllocError, Global};
use wire_messages::{Feeder, Heard, WireRefusal};

// What a feeder answers to the last piece and to an empty one behind it, and what rests then.
#[derive(Clone, Copy, PartialEq, Eq)]
struct Answered {
    answer: Result<(), WireRefusal>,
    again: Result<(), WireRefusal>,
    rest: usize,
}

fn told_then(feeder: &mut Feeder, answer: Result<(), WireRefusal>) -> Answered {
    let again = feeder.feed(b"");
    Answered {
        answer,
        again,
        rest: feeder.rest(),
    }
}

fn told_whole(alloc: Global, heard: Heard, bytes: &[u8]) -> Answered {
    let mut feeder = Feeder::new(alloc, heard);
    let answer = feeder.feed(bytes);
    told_then(&mut feeder, answer)
}

fn told_in_bytes(alloc: Global, heard: Heard, bytes: &[u8]) -> Answered {
    let mut feeder = Feeder::new(alloc, heard);
    let mut answer = Ok(());
    for byte in bytes {
        answer = feeder.feed(&[*byte]);
    }
    told_then(&mut feeder, answer)
}

/// Why the bytes are refused: whole, byte by byte, and at an empty piece behind them, for the same reason and with
/// nothing that rests. None where they are not refused, or not always so.
pub fn refusal(alloc: Global, heard: Heard, bytes: &[u8]) -> Option<WireRefusal> {
    let whole = told_whole(alloc, heard, bytes);
    if whole != told_in_bytes(alloc, heard, bytes)
        || whole.again != whole.answer
        || whole.rest != 0
    {
        return None;
    }
    whole.answer.err()
}

/// The refusal in two words.
pub fn short_text(alloc: Global, refusal: Option<WireRefusal>) -> Result<String, AllocError> {
    match refusal {
        None => String::from_str(alloc, "heard"),
        Some(WireRefusal::TooShort(length)) => format!(in alloc; "short {length}"),
        Some(WireRefusal::TooLong(length)) => format!(in alloc; "long {length}"),
        Some(WireRefusal::BadOperation(number)) => format!(in alloc; "operation {number}"),
        Some(WireRefusal::BadField(place)) => format!(in alloc; "field {place}"),
        Some(WireRefusal::Trailing(place)) => format!(in alloc; "behind {place}"),
        Some(WireRefusal::Memory(error)) => Err(error),
    }
}
