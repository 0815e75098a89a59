//! The modes that a list of rules gives a pair, without a table: plain and slow.

ghost use Rattle.std.specs.Prelude.{◌≡◌, [], ◌∷◌};
ghost use Rattle.smack_rules.specs.Rule.{is_pair};
ghost use Rattle.smack_rules.specs.Effective.{effective, effective_from};
ghost use Rattle.smack_rules.specs.parts.Setting.{modes_set};

use crate::label::Label;
use crate::modes::Modes;
use crate::rule::Rule;

/// The modes that rules give a pair: those of its last `Set`, changed by the `Adjust`s after it.
/// A [`crate::RuleTable`] grants the same, and answers at once.
pub fn effective_of(rules: &[Rule], subject: &Label, object: &Label) -> Modes
    ensures { result ≡ effective rules.now subject.now object.now }
{
    let (start, later) = from_last_set(rules, subject, object);
    let mut modes = start;
    for rule in later {
        modes = changed_by(modes, rule, subject, object);
    }
    modes
}

/// The modes of the pair's last `Set`, and the rules behind it. Where none sets the pair, no access and all rules.
fn from_last_set<'a>(rules: &'a [Rule], subject: &Label, object: &Label) -> (Modes, &'a [Rule])
    ensures { effective_from result.0 result.1.now subject.now object.now
        ≡ effective rules.now subject.now object.now }
{
    for i in (0..rules.len()).rev() {
        if let Some(modes) = modes_set(&rules[i], subject, object) {
            return (modes, &rules[i + 1..]);
        }
    }
    (Modes::NO_ACCESS, rules)
}

/// What a rule sets a pair to, whatever it had before.
fn modes_set(rule: &Rule, subject: &Label, object: &Label) -> Option<Modes>
    ensures { result ≡ modes_set subject.now object.now rule.now }
{
    match rule {
        Rule::Set {
            subject: rule_subject,
            object: rule_object,
            modes,
        } if is_pair(rule_subject, rule_object, subject, object) => Some(*modes),
        _ => None,
    }
}

/// What a rule makes of a pair's modes.
fn changed_by(modes: Modes, rule: &Rule, subject: &Label, object: &Label) -> Modes
    ensures { result ≡ effective_from modes (rule.now ∷ []) subject.now object.now }
{
    match rule {
        Rule::Set {
            subject: rule_subject,
            object: rule_object,
            modes: set,
        } if is_pair(rule_subject, rule_object, subject, object) => *set,
        Rule::Adjust {
            subject: rule_subject,
            object: rule_object,
            allow,
            deny,
        } if is_pair(rule_subject, rule_object, subject, object) => modes.adjusted(*allow, *deny),
        _ => modes,
    }
}

/// Whether a rule for these labels is for the pair.
fn is_pair(rule_subject: &Label, rule_object: &Label, subject: &Label, object: &Label) -> bool
    ensures { result ≡ is_pair rule_subject.now rule_object.now subject.now object.now }
{
    rule_subject.as_slice() == subject.as_slice() && rule_object.as_slice() == object.as_slice()
}
