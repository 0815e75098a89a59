//! The one spelling of modes and of rules.

ghost use Rattle.std.specs.Prelude.{◌≡◌, [], ◌∷◌, ◌++◌, Ok, Some, None, OnOk, OnErr};
ghost use Rattle.smack_rules.specs.Label.{label_fault};
ghost use Rattle.smack_rules.specs.Modes.{spelling, letter_if};
ghost use Rattle.smack_rules.specs.Rule.{line_rule};
ghost use Rattle.smack_rules.specs.Spelling.{rule_text};
ghost use Rattle.smack_rules.specs.parts.Growing.{Lengthens};

use crate::label::Label;
use crate::modes::Modes;
use crate::rule::Rule;
use std::alloc::AllocError;

impl Modes {
    /// Appends the letters of the set in the order `rwxatlb`, or `-` where it has none. Where memory is wanting,
    /// nothing is appended.
    pub fn append_to(self, text: &mut Vec<u8>) -> Result<(), AllocError>
        ensures text { OnOk result (text.new.items ≡ text.old.items ++ spelling self) }
        ensures kept { OnErr result (text.new.items ≡ text.old.items) }
    {
        let before = text.len();
        match append_spelling(self, text) {
            Ok(()) => Ok(()),
            Err(error) => {
                text.truncate(before);
                Err(error)
            }
        }
    }
}

impl Rule {
    /// Appends the rule's line without its newline: the words, parted by one space. It reads back as this rule. Where
    /// memory is wanting, nothing is appended.
    pub fn append_to(&self, text: &mut Vec<u8>) -> Result<(), AllocError>
        ensures text { OnOk result (text.new.items ≡ text.old.items ++ rule_text self.now) }
        ensures again { OnOk result (line_rule (rule_text self.now) ≡ Ok (Some self.now)) }
        ensures kept { OnErr result (text.new.items ≡ text.old.items) }
    {
        let before = text.len();
        match append_words(self, text) {
            Ok(()) => Ok(()),
            Err(error) => {
                text.truncate(before);
                Err(error)
            }
        }
    }
}

/// Appends the words of a rule, parted by one space. Where memory is wanting, a part of them may stand at the end.
fn append_words(rule: &Rule, text: &mut Vec<u8>) -> Result<(), AllocError>
    ensures text { OnOk result (text.new.items ≡ text.old.items ++ rule_text rule.now) }
    ensures again { OnOk result (line_rule (rule_text rule.now) ≡ Ok (Some rule.now)) }
    ensures err { OnErr result (Lengthens text.old.items text.new.items) }
{
    match rule {
        Rule::Set {
            subject,
            object,
            modes,
        } => {
            append_pair(subject, object, text)?;
            modes.append_to(text)
        }
        Rule::Adjust {
            subject,
            object,
            allow,
            deny,
        } => {
            append_pair(subject, object, text)?;
            allow.append_to(text)?;
            text.push(b' ')?;
            deny.append_to(text)
        }
    }
}

/// Appends two labels, with a space behind each. Where memory is wanting, a part of them may stand at the end.
fn append_pair(subject: &Label, object: &Label, text: &mut Vec<u8>) -> Result<(), AllocError>
    ensures text { OnOk result (text.new.items ≡ text.old.items ++ (subject.now ++ (32 ∷ (object.now ++ 32 ∷ [])))) }
    ensures subject { OnOk result (label_fault subject.now ≡ None) }
    ensures object { OnOk result (label_fault object.now ≡ None) }
    ensures err { OnErr result (Lengthens text.old.items text.new.items) }
{
    text.extend_from_slice(subject.as_slice())?;
    text.push(b' ')?;
    text.extend_from_slice(object.as_slice())?;
    text.push(b' ')?;
    Ok(())
}

/// Appends the letters of a set. Where memory is wanting, some of them may stand at the end.
fn append_spelling(modes: Modes, text: &mut Vec<u8>) -> Result<(), AllocError>
    ensures text { OnOk result (text.new.items ≡ text.old.items ++ spelling modes) }
    ensures err { OnErr result (Lengthens text.old.items text.new.items) }
{
    if modes.is_empty() {
        text.push(b'-')?;
        return Ok(());
    }
    append_if(modes.read, b'r', text)?;
    append_if(modes.write, b'w', text)?;
    append_if(modes.execute, b'x', text)?;
    append_if(modes.append, b'a', text)?;
    append_if(modes.transmute, b't', text)?;
    append_if(modes.lock, b'l', text)?;
    append_if(modes.bring_up, b'b', text)
}

/// Appends a letter where it is there.
fn append_if(present: bool, letter: u8, text: &mut Vec<u8>) -> Result<(), AllocError>
    ensures text { OnOk result (text.new.items ≡ text.old.items ++ letter_if present letter) }
    ensures kept { OnErr result (text.new.items ≡ text.old.items) }
{
    if present {
        text.push(letter)?;
    }
    Ok(())
}
