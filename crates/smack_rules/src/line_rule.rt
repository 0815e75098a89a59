//! Rule lines, read without taking memory.

ghost use Rattle.std.specs.Prelude.{◌≡◌, List, [], ◌∷◌, ℕ, IfOk};
ghost use Rattle.smack_rules.specs.Effective.{effective_from};
ghost use Rattle.smack_rules.specs.Rule.{is_pair, line_rule, rule_behind};
ghost use Rattle.smack_rules.specs.Words.{words_of};
ghost use Rattle.smack_rules.specs.parts.Changes.{change_of};
ghost use Rattle.smack_rules.specs.parts.Lines.{rule_with};

use crate::changes::{Change, PairChange};
use crate::label::{Label, label_fault};
use crate::modes::Modes;
use crate::pair_key::PairKey;
use crate::rule::{LineRefusal, Rule};
use crate::words::split_word;
use std::alloc::{AllocError, Global};
use std::marker::Model;

/// The rule of a line, with the labels as they stand in that line.
#[derive(Debug, Drop)]
pub struct LineRule<'a> {
    subject: &'a [u8],
    object: &'a [u8],
    modes: Modes,
    deny: Option<Modes>,
}

impl<'a> Model for LineRule<'a> {
    ghost use Rattle.std.specs.Prelude.{◌≡◌, None};
    ghost use Rattle.smack_rules.specs.Label.{label_fault};
    ghost use Rattle.smack_rules.specs.declared.rule.Rule.{Rule};
    ghost use Rattle.smack_rules.specs.parts.Lines.{spelled_rule};

    ghost Value = { Rule };

    ghost view = { λ line. spelled_rule line.subject.now line.object.now line.modes line.deny };

    ghost invariant = { λ line. (label_fault line.subject.now ≡ None) × (label_fault line.object.now ≡ None) };
}

impl<'a> LineRule<'a> {
    /// Reads a line, as [`Rule::read_line`] does. The only refusal is `Form`.
    pub fn read(line: &'a [u8]) -> Result<Option<LineRule<'a>>, LineRefusal>
        ensures { result ≡ line_rule line.now }
    {
        let Some((subject, rest)) = split_word(line) else {
            return Ok(None);
        };
        let Some((object, rest)) = split_word(rest) else {
            return Err(LineRefusal::Form);
        };
        if label_fault(subject).is_some() || label_fault(object).is_some() {
            return Err(LineRefusal::Form);
        }
        let (modes, deny) = read_modes(rest)?;
        Ok(Some(LineRule {
            subject,
            object,
            modes,
            deny,
        }))
    }

    /// The rule with labels of its own.
    pub fn to_rule(&self, alloc: Global) -> Result<Rule, AllocError>
        ensures { IfOk result (λ rule. rule ≡ self.now) }
    {
        let subject = Label::of(alloc, self.subject)?;
        let object = Label::of(alloc, self.object)?;
        match self.deny {
            None => Ok(Rule::Set {
                subject,
                object,
                modes: self.modes,
            }),
            Some(deny) => Ok(Rule::Adjust {
                subject,
                object,
                allow: self.modes,
                deny,
            }),
        }
    }

    /// The change that the rule makes.
    pub fn change(&self) -> PairChange<'a>
        ensures { result ≡ change_of self.now }
    {
        let change = match self.deny {
            None => Change::setting(self.modes),
            Some(deny) => Change::adjusting(self.modes, deny),
        };
        let key = PairKey::of(self.subject, self.object);
        PairChange { key, change }
    }

    /// What the rule makes of a pair's modes. It compares labels, and makes no mark of them as a table does.
    pub fn modes_behind(&self, modes: Modes, subject: &[u8], object: &[u8]) -> Modes
        ensures { result ≡ effective_from modes (self.now ∷ []) subject.now object.now }
    {
        if !is_pair(self.subject, self.object, subject, object) {
            return modes;
        }
        match self.deny {
            None => self.modes,
            Some(deny) => modes.adjusted(self.modes, deny),
        }
    }
}

/// Whether a rule for the first two labels is one for the last two.
fn is_pair(rule_subject: &[u8], rule_object: &[u8], subject: &[u8], object: &[u8]) -> bool
    ensures { result ≡ is_pair rule_subject.now rule_object.now subject.now object.now }
{
    rule_subject == subject && rule_object == object
}

/// Reads the words behind the labels: one mode word, or two.
fn read_modes(words: &[u8]) -> Result<(Modes, Option<Modes>), LineRefusal>
    ensures { (subject object : List ℕ)
        → rule_with subject object result ≡ rule_behind subject object (words_of words.now) }
{
    let (first, rest) = split_word(words).ok_or(LineRefusal::Form)?;
    let modes = Modes::read(first).ok_or(LineRefusal::Form)?;
    let Some((second, rest)) = split_word(rest) else {
        return Ok((modes, None));
    };
    let deny = Modes::read(second).ok_or(LineRefusal::Form)?;
    if split_word(rest).is_some() {
        return Err(LineRefusal::Form);
    }
    Ok((modes, Some(deny)))
}
