// The words that the program was called with.
ghost use Rattle.std.specs.Prelude.{◌≡◌, [], IsUtf8};

use crate::zeros::zeros;
use std::alloc::{AllocError, Global};
use std::env::{Env, FillError};

/// The longest word that is taken as it is. No word of a command is near as long.
const MOST_BYTES: usize = 65_536;

/// The words behind the program's name. One that is no UTF-8, or too long, is an empty word.
pub fn host_words<E: Env>(env: &E, alloc: Global) -> Result<Vec<String>, AllocError> {
    let mut buffer = zeros(alloc, MOST_BYTES)?;
    let mut words = Vec::new(alloc);
    for place in 1..usize::MAX {
        let length = match env.arg(place, &mut buffer) {
            Ok(length) => length,
            Err(FillError::NotPresent) => break,
            Err(FillError::TooLong) => 0,
        };
        words.push(String::from_str(alloc, word_of(&buffer[..length]))?)?;
    }
    Ok(words)
}

// The word with these bytes, or the empty one where they are no UTF-8.
fn word_of(bytes: &[u8]) -> &str
    ensures word { IsUtf8 bytes.now → result.now ≡ bytes.now }
    ensures empty { ¬ (IsUtf8 bytes.now) → result.now ≡ [] }
{
    match str::from_utf8(bytes) {
        Ok(word) => word,
        Err(_) => "",
    }
}
