// What a side refuses.
use crate::refusals::refusal;
use cases_words::Failure;
use std::alloc::Global;
use wire_messages::{Heard, Operation, WireRefusal};

fn is_known(alloc: Global, heard: Heard, number: u8) -> bool {
    let refused = refusal(alloc, heard, &[0, 0, 0, 3, 0, 1, number]);
    refused != Some(WireRefusal::BadOperation(number))
}

fn is_operation(heard: Heard, number: u8) -> bool {
    match Operation::of(heard, number) {
        Some(operation) => operation.number() == number,
        None => false,
    }
}

/// The numbers of the operations that a side knows, of all that there are.
pub fn known(alloc: Global, heard: Heard) -> Result<String, Failure> {
    let mut text = String::new(alloc);
    for number in 0..=255u8 {
        if is_known(alloc, heard, number) != is_operation(heard, number) {
            return Err(Failure::Refused);
        }
        if is_operation(heard, number) {
            let front = if text.is_empty() { "" } else { " " };
            text.push_str(format!(in alloc; "{front}{number}")?.as_str())?;
        }
    }
    Ok(text)
}

/// Why the bytes are refused, in the words that a person is told.
pub fn wrong(alloc: Global, heard: Heard, bytes: &[u8]) -> Result<String, Failure> {
    match refusal(alloc, heard, bytes) {
        Some(refusal) => Ok(format!(in alloc; "{refusal}")?),
        None => Ok(String::from_str(alloc, "heard")?),
    }
}
