//! Lines of a template: rules whose labels may be placeholders.

ghost use Rattle.std.specs.Prelude.{◌≡◌, ◌∷◌, [], ◌++◌, Some, IsTrue, IfOk, OnOk, is_some};
ghost use Rattle.rule_templates.specs.Expansion.{has_process, is_process_word};
ghost use Rattle.rule_templates.specs.TemplateLine.{word_text, line_text, word_of, is_kept_word};

use crate::placeholders::Placeholder;
use smack_rules::{Label, Modes};
use std::alloc::{AllocError, Global};

/// A label word of a template.
#[derive(Debug, Drop)]
pub enum Word {
    /// A label that is the same for each package. It does not begin with `~`.
    Fixed(Label),
    /// A label of the package.
    OfPackage(Placeholder),
}

/// What a line changes in the modes of a subject and an object.
#[derive(Clone, Copy, Debug, PartialEq, Eq)]
pub enum Change {
    /// The pair has these modes from now on, whatever it had before.
    Set(Modes),
    /// The pair gains `allow`, and then loses `deny`.
    Adjust { allow: Modes, deny: Modes },
}

/// A line of a template: a rule whose labels may be placeholders.
#[derive(Debug, Drop)]
pub struct TemplateLine {
    pub subject: Word,
    pub object: Word,
    pub change: Change,
}

/// What is wrong with the bytes of a line.
#[derive(Clone, Copy, Debug, PartialEq, Eq)]
pub enum LineFault {
    /// It is no rule, whatever its placeholders are.
    Form,
    /// It would be right but for a word that begins with `~` and is no placeholder.
    UnknownPlaceholder,
}

impl Word {
    /// The word in memory of its own.
    pub(crate) fn keep(alloc: Global, word: &[u8]) -> Result<Word, AllocError>
        requires { IsTrue (is_some (word_of word.now)) }
        ensures word { IfOk result (λ kept. word_of word.now ≡ Some kept) }
        ensures kept { IfOk result (λ kept. IsTrue (is_kept_word kept)) }
    {
        match Placeholder::of_word(word) {
            Some(placeholder) => Ok(Word::OfPackage(placeholder)),
            None => Ok(Word::Fixed(Label::of(alloc, word)?)),
        }
    }

    /// The bytes of the word.
    fn as_slice(&self) -> &[u8]
        ensures { result.now ≡ word_text self.now }
    {
        match self {
            Word::Fixed(label) => label.as_slice(),
            Word::OfPackage(placeholder) => placeholder.text(),
        }
    }

    /// Whether the word is `~PROCESS~`.
    fn is_process(&self) -> bool
        ensures { result ≡ is_process_word self.now }
    {
        match self {
            Word::Fixed(_) => false,
            Word::OfPackage(placeholder) => placeholder.is_process(),
        }
    }

    /// An equal word.
    fn copy(&self) -> Result<Word, AllocError>
        ensures { IfOk result (λ word. word ≡ self.now) }
    {
        match self {
            Word::Fixed(label) => Ok(Word::Fixed(label.copy()?)),
            Word::OfPackage(placeholder) => Ok(Word::OfPackage(*placeholder)),
        }
    }
}

impl TemplateLine {
    /// Appends the line with its newline. Where memory is wanting, a part of it may stand at the end.
    pub(crate) fn append_to(&self, text: &mut Vec<u8>) -> Result<(), AllocError>
        ensures { OnOk result (text.new.items ≡ text.old.items ++ (line_text self.now ++ 10 ∷ [])) }
    {
        text.extend_from_slice(self.subject.as_slice())?;
        text.push(b' ')?;
        text.extend_from_slice(self.object.as_slice())?;
        text.push(b' ')?;
        self.change.append_to(text)?;
        text.push(b'\n')?;
        Ok(())
    }

    /// Whether the line has `~PROCESS~`.
    pub(crate) fn has_process(&self) -> bool
        ensures { result ≡ has_process self.now }
    {
        self.subject.is_process() || self.object.is_process()
    }

    /// An equal line.
    pub(crate) fn copy(&self) -> Result<TemplateLine, AllocError>
        ensures { IfOk result (λ line. line ≡ self.now) }
    {
        Ok(TemplateLine {
            subject: self.subject.copy()?,
            object: self.object.copy()?,
            change: self.change,
        })
    }
}

impl Change {
    ghost use Rattle.smack_rules.specs.Spelling.{parted};
    ghost use Rattle.rule_templates.specs.TemplateLine.{change_words};

    /// Appends the mode words, parted by one space.
    fn append_to(self, text: &mut Vec<u8>) -> Result<(), AllocError>
        ensures { OnOk result (text.new.items ≡ text.old.items ++ parted (change_words self)) }
    {
        match self {
            Change::Set(modes) => modes.append_to(text),
            Change::Adjust { allow, deny } => {
                allow.append_to(text)?;
                text.push(b' ')?;
                deny.append_to(text)
            }
        }
    }
}
