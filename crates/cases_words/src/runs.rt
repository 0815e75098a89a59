// Answers that come many times, told once with their number.
use crate::Failure;
use std::alloc::{AllocError, Global};

/// Texts, each once, by the order in which they came.
#[derive(Drop)]
pub struct Found {
    texts: Vec<String>,
}

const LETTERS: [&str; 8] = ["a", "b", "c", "d", "e", "f", "g", "h"];

impl Found {
    /// No texts yet. Takes no memory.
    pub fn new(alloc: Global) -> Found {
        Found {
            texts: Vec::new(alloc),
        }
    }

    /// The letter of the text: `a` for the first that came.
    pub fn letter(&mut self, text: String) -> Result<&'static str, Failure> {
        let place = match self
            .texts
            .iter()
            .position(|other| other.as_str() == text.as_str())
        {
            Some(place) => place,
            None => {
                self.texts.push(text)?;
                self.texts.len().saturating_sub(1)
            }
        };
        match LETTERS.get(place) {
            Some(letter) => Ok(*letter),
            None => Err(Failure::Refused),
        }
    }

    /// Adds the texts with their letters.
    pub fn put_texts(&self, whole: &mut String) -> Result<(), AllocError> {
        for (place, text) in self.texts.iter().enumerate() {
            if let Some(letter) = LETTERS.get(place) {
                whole.push_str(" / ")?;
                whole.push_str(*letter)?;
                whole.push(' ')?;
                whole.push_str(text.as_str())?;
            }
        }
        Ok(())
    }
}

/// Answers in turn, each with the number of times that it came.
#[derive(Drop)]
pub struct Runs {
    text: String,
    last: String,
    count: u32,
}

impl Runs {
    /// No answers yet. Takes no memory.
    pub fn new(alloc: Global) -> Runs {
        Runs {
            text: String::new(alloc),
            last: String::new(alloc),
            count: 0,
        }
    }

    fn close(&mut self, alloc: Global) -> Result<(), AllocError> {
        if self.count > 0 {
            let run = format!(in alloc; "{} {}, ", self.last, self.count)?;
            self.text.push_str(run.as_str())?;
        }
        self.count = 0;
        Ok(())
    }

    /// Adds an answer.
    pub fn add(&mut self, alloc: Global, answer: String) -> Result<(), AllocError> {
        if answer.as_str() != self.last.as_str() {
            self.close(alloc)?;
            self.last = answer;
        }
        self.count = self.count.saturating_add(1);
        Ok(())
    }

    /// All of them, as `ANSWER COUNT, ..`.
    pub fn told(&mut self, alloc: Global) -> Result<String, AllocError> {
        self.close(alloc)?;
        String::from_str(alloc, self.text.as_str().trim_end_matches(", "))
    }
}
