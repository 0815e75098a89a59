//! The words of a line, tested before memory is asked for.

ghost use Rattle.std.specs.Prelude.{◌≡◌, [], ◌∷◌, Some, None, Ok, Err, IsTrue, IfOk, MatchOption, MatchResult, is_some};
ghost use Rattle.smack_rules.specs.Words.{words_of};
ghost use Rattle.rule_templates.specs.TemplateLine.{is_label_word, word_of, change_of};
ghost use Rattle.rule_templates.specs.TemplateLine.{line_with, line_of, is_kept_line};

use crate::lines::{Change, LineFault, TemplateLine, Word};
use crate::placeholders::{Placeholder, begins_with_tilde};
use smack_rules::{Modes, label_fault, split_word};
use std::alloc::{AllocError, Global};

/// The words of a line that is right.
#[derive(Clone, Copy)]
pub(crate) struct Parts<'t> {
    subject: &'t [u8],
    object: &'t [u8],
    change: Change,
    ghost subject_known: { IsTrue (is_some (word_of subject.now)) },
    ghost object_known: { IsTrue (is_some (word_of object.now)) },
}

impl Parts<'_> {
    /// The line in memory of its own.
    pub(crate) fn keep(&self, alloc: Global) -> Result<TemplateLine, AllocError>
        ensures line { IfOk result (λ line.
            line_with (word_of self.now.subject.now) (word_of self.now.object.now) (Some self.now.change) ≡ Ok line) }
        ensures kept { IfOk result (λ line. IsTrue (is_kept_line line)) }
    {
        Ok(TemplateLine {
            subject: Word::keep(alloc, self.subject)?,
            object: Word::keep(alloc, self.object)?,
            change: self.change,
        })
    }
}

/// Tests a line: two label words, and one or two mode words. A line of another form is named so, whatever its
/// placeholders are. Takes no memory.
pub(crate) fn parts_of(line: &[u8]) -> Result<Parts<'_>, LineFault>
    ensures { MatchResult result
        (λ parts. line_of line.now
        ≡ line_with (word_of parts.subject.now) (word_of parts.object.now) (Some parts.change))
        (λ fault. line_of line.now ≡ Err fault) }
{
    let (subject, rest) = split_word(line).ok_or(LineFault::Form)?;
    let (object, rest) = split_word(rest).ok_or(LineFault::Form)?;
    let change = read_change(rest).ok_or(LineFault::Form)?;
    if !is_label_word(subject) || !is_label_word(object) {
        return Err(LineFault::Form);
    }
    if !is_known(subject) || !is_known(object) {
        return Err(LineFault::UnknownPlaceholder);
    }
    Ok(Parts {
        subject,
        object,
        change,
    })
}

/// Reads the mode words behind the labels of a line: one sets, two adjust.
fn read_change(words: &[u8]) -> Option<Change>
    ensures { result ≡ change_of (words_of words.now) }
{
    let (first, rest) = split_word(words)?;
    let modes = Modes::read(first)?;
    let Some((second, rest)) = split_word(rest) else {
        return Some(Change::Set(modes));
    };
    let deny = Modes::read(second)?;
    if split_word(rest).is_some() {
        return None;
    }
    Some(Change::Adjust { allow: modes, deny })
}

/// Whether a word is a label, or begins with `~`.
fn is_label_word(word: &[u8]) -> bool
    ensures { result ≡ is_label_word word.now }
{
    begins_with_tilde(word) || label_fault(word).is_none()
}

/// Whether a label word is a label without `~` at the front, or a placeholder.
fn is_known(word: &[u8]) -> bool
    requires { IsTrue (is_label_word word.now) }
    ensures { result ≡ is_some (word_of word.now) }
{
    !begins_with_tilde(word) || Placeholder::of_word(word).is_some()
}
