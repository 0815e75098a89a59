// What a person is told of words that are no command.
ghost use Rattle.std.specs.Prelude.{◌≡◌};

use crate::word_faults::WordFault;
use desk_ports::{Sink, shown_bytes};
use run_endings::{MOST_SHOWN_BYTES, note_text};
use std::alloc::{AllocError, Global};
use word_line::{fault_text, form_text, help_text};

/// Tells why the words are no command. Where they are the words of no line, clap says what is wrong and what the form
/// of the command is, or which names are near. Where a word begins with `-`, the help stands behind the fault, and
/// where a word is wrong in its place, the form of the command.
pub fn note_words<K: Sink>(alloc: Global, words: &[String], fault: WordFault, sink: &mut K)
    ensures taken { K.taken sink.new ≡ K.taken sink.old }
    ensures count { K.faults sink.new ≡ K.faults sink.old }
{
    match fault {
        WordFault::NoLine => note_lines(line_text(alloc, words), sink),
        WordFault::Dash { .. } => {
            note_text(word_text(alloc, words, fault), sink);
            note_lines(help_text(alloc), sink);
        }
        _ => {
            note_text(word_text(alloc, words, fault), sink);
            note_lines(command_form(alloc, words), sink);
        }
    }
}

// Tells each line of a text for which there was memory.
fn note_lines<K: Sink>(text: Result<String, AllocError>, sink: &mut K)
    ensures taken { K.taken sink.new ≡ K.taken sink.old }
    ensures count { K.faults sink.new ≡ K.faults sink.old }
{
    if let Ok(text) = text {
        for line in text.as_str().lines() {
            sink.note(line);
        }
    }
}

// What clap says of words that are those of no line. Each stands in it as a person is shown it, so that none brings a
// line of its own, or what a terminal acts on.
fn line_text(alloc: Global, words: &[String]) -> Result<String, AllocError> {
    let shown = shown_words(alloc, words)?;
    fault_text(alloc, &shown)
}

fn shown_words(alloc: Global, words: &[String]) -> Result<Vec<String>, AllocError> {
    let mut shown = Vec::new(alloc);
    for word in words {
        shown.push(shown_bytes(alloc, word.as_bytes(), MOST_SHOWN_BYTES)?)?;
    }
    Ok(shown)
}

// The form of the command that the first word names.
fn command_form(alloc: Global, words: &[String]) -> Result<String, AllocError> {
    match words.first() {
        Some(name) => form_text(alloc, name.as_str()),
        None => Ok(String::new(alloc)),
    }
}

// The word that is wrong, and why.
fn word_text(alloc: Global, words: &[String], fault: WordFault) -> Result<String, AllocError> {
    let Some((place, word)) = wrong_word(words, fault) else {
        return format!(in alloc; "privilege: {fault}");
    };
    let shown = shown_bytes(alloc, word.as_bytes(), MOST_SHOWN_BYTES)?;
    let number = place.saturating_add(1);
    format!(in alloc; "privilege: word {number}, \"{shown}\": {fault}")
}

// The place of the word that is wrong, and the word.
fn wrong_word(words: &[String], fault: WordFault) -> Option<(usize, &String)> {
    let place = fault.place()?;
    Some((place, words.get(place)?))
}
