//! Words that a person may have meant by another one. No function here takes memory.

use crate::grounds::is_verb_in;
use crate::usages::usage_of;
use line_script::{Place, VERBS, Verb};

/// So many letters of a word are enough to tell which one was meant.
const FEWEST_LETTERS: usize = 3;

/// The form of a line whose first word is near to this one, if there is one: outside a block in a script for a place,
/// or within a batch, where no place is given.
pub(crate) fn near_usage(outside: Option<Place>, word: &[u8]) -> Option<&'static str> {
    if let Some(verb) = VERBS
        .iter()
        .copied()
        .find(|verb| is_near_verb(outside, word, *verb))
    {
        return Some(usage_of(verb.text()));
    }
    let of_blocks: &[&str] = match outside {
        Some(_) => &["batch", "template"],
        None => &["end"],
    };
    of_blocks
        .iter()
        .copied()
        .find(|known| is_near(word, known.as_bytes()))
}

fn is_near_verb(outside: Option<Place>, word: &[u8], verb: Verb) -> bool {
    is_verb_in(outside, verb) && is_near(word, verb.text())
}

/// Whether a person who wrote the word may have meant the known one: it is the same but for capitals; or, where that
/// has three letters at least, but for one slip besides (a letter that lacks, one too many, another one, or two that
/// are exchanged), or three letters or more that it begins with.
pub fn is_near(word: &[u8], known: &[u8]) -> bool {
    let (behind, known_behind) = behind_common_front(word, known);
    if behind.is_empty() && known_behind.is_empty() {
        return true;
    }
    if known.len() < FEWEST_LETTERS {
        return false;
    }
    if behind.is_empty() && word.len() >= FEWEST_LETTERS {
        return true;
    }
    let (middle, known_middle) = before_common_back(behind, known_behind);
    is_one_slip(middle, known_middle)
}

fn is_one_slip(word: &[u8], known: &[u8]) -> bool {
    match (word, known) {
        ([], []) | ([_], []) | ([], [_]) | ([_], [_]) => true,
        ([a, b], [c, d]) => a.eq_ignore_ascii_case(d) && b.eq_ignore_ascii_case(c),
        _ => false,
    }
}

/// What is left of both behind the letters that they begin with together.
fn behind_common_front<'a>(word: &'a [u8], known: &'a [u8]) -> (&'a [u8], &'a [u8]) {
    let mut rest = (word, known);
    for _ in 0..word.len() {
        match rest {
            ([a, word @ ..], [b, known @ ..]) if a.eq_ignore_ascii_case(b) => rest = (word, known),
            _ => return rest,
        }
    }
    rest
}

/// What is left of both before the letters that they end with together.
fn before_common_back<'a>(word: &'a [u8], known: &'a [u8]) -> (&'a [u8], &'a [u8]) {
    let mut rest = (word, known);
    for _ in 0..word.len() {
        match rest {
            ([word @ .., a], [known @ .., b]) if a.eq_ignore_ascii_case(b) => rest = (word, known),
            _ => return rest,
        }
    }
    rest
}
