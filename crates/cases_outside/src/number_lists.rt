// Lists of numbers, from words.
use cases_words::Failure;
use std::alloc::Global;

/// The numbers of a word, with commas between them, or `-` for none.
pub fn numbers(alloc: Global, word: &str) -> Result<Vec<u64>, Failure> {
    let mut all = Vec::new(alloc);
    for part in word.split(',') {
        if part == "-" {
            continue;
        }
        match part.parse::<u64>() {
            Ok(number) => all.push(number)?,
            Err(_) => return Err(Failure::Words),
        }
    }
    Ok(all)
}
