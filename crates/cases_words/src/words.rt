// Words of a case, with one space between them.
use crate::Failure;
use std::alloc::AllocError;

/// The word in front and what is behind it.
pub fn first_word(text: &str) -> (&str, &str) {
    match text.split_once(" ") {
        Some((word, rest)) => (word, rest),
        None => (text, ""),
    }
}

/// The number that stands in front, and what is behind it.
pub fn first_number(text: &str) -> Result<(u32, &str), Failure> {
    let (word, rest) = first_word(text);
    match word.parse::<u32>() {
        Ok(number) => Ok((number, rest)),
        Err(_) => Err(Failure::Words),
    }
}

/// Adds a word behind a space, where there is one in front.
pub fn put_word(text: &mut String, word: &str) -> Result<(), AllocError> {
    if !text.is_empty() {
        text.push(' ')?;
    }
    text.push_str(word)
}
