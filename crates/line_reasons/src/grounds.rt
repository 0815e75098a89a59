//! Where lines stand, and which lines are known there.

ghost use Rattle.std.specs.Prelude.{◌≡◌, Some, None, MatchOption};
ghost use Rattle.std.specs.List.{list_all};
ghost use Rattle.smack_rules.specs.Words.{is_blank};
ghost use Rattle.line_script.specs.Grammar.{is_skipped};
ghost use Rattle.script_words.specs.Verbs.{verb_at};
ghost use Rattle.line_reasons.specs.parts.Grounds as grounds;

use crate::forms::Form;
use crate::stands::{begins_line_of, is_line_of, may_end};
use crate::word_tests::{begins, cut_at};
use line_script::{Place, Spot, VERBS, Verb};

/// What decides which lines are known.
#[derive(Clone, Copy, Debug, PartialEq, Eq)]
pub(crate) enum Ground {
    /// Outside a block, in a script for this place.
    Outside(Place),
    Batch,
    Template { is_full: bool },
    /// In a text of rules.
    Rules,
}

pub(crate) const TEMPLATE_FORMS: [Form; 4] = [
    Form::TemplateLabel,
    Form::TemplateLabel,
    Form::Modes,
    Form::MoreModes,
];

pub(crate) const RULE_FORMS: [Form; 4] = [Form::Label, Form::Label, Form::Modes, Form::MoreModes];

impl Ground {
    /// Where a line of a script stands.
    pub(crate) fn of(spot: Spot) -> Ground
        ensures { result ≡ grounds.ground_of spot }
    {
        match spot {
            Spot::Outside(place) => Ground::Outside(place),
            Spot::Batch => Ground::Batch,
            Spot::Template { is_full } => Ground::Template { is_full },
        }
    }

    /// Whether a line is known here.
    pub(crate) fn is_line(self, line: &[u8]) -> bool
        ensures { result ≡ grounds.is_line self line.now }
    {
        match self {
            Ground::Outside(place) => is_line_outside(place, line),
            Ground::Batch => is_line_of_batch(line),
            Ground::Template { is_full } => is_line_of_template(is_full, line),
            Ground::Rules => is_blank_line(line) || is_line_of(true, &RULE_FORMS, line),
        }
    }

    /// Whether a line that is known here can begin so.
    pub(crate) fn begins_line(self, front: &[u8]) -> bool
        ensures { result ≡ grounds.begins_line self front.now }
    {
        match self {
            Ground::Outside(place) => begins_line_outside(place, front),
            Ground::Batch => begins_line_of_batch(front),
            Ground::Template { is_full } => begins_line_of_template(is_full, front),
            Ground::Rules => begins_line_of(true, &RULE_FORMS, front),
        }
    }
}

fn is_line_outside(place: Place, line: &[u8]) -> bool
    ensures { result ≡ grounds.is_line (Ground.Outside place) line.now }
{
    if is_skipped(line) || line == b"batch".as_slice() || line == b"template".as_slice() {
        return true;
    }
    is_verb_line(Some(place), line)
}

fn begins_line_outside(place: Place, front: &[u8]) -> bool
    ensures { result ≡ grounds.begins_line (Ground.Outside place) front.now }
{
    if is_skipped(front) || begins(front, b"batch") || begins(front, b"template") {
        return true;
    }
    begins_verb_line(Some(place), front)
}

fn is_line_of_batch(line: &[u8]) -> bool
    ensures { result ≡ grounds.is_line Ground.Batch line.now }
{
    if is_skipped(line) || line == b"end".as_slice() {
        return true;
    }
    is_verb_line(None, line)
}

fn begins_line_of_batch(front: &[u8]) -> bool
    ensures { result ≡ grounds.begins_line Ground.Batch front.now }
{
    if is_skipped(front) || begins(front, b"end") {
        return true;
    }
    begins_verb_line(None, front)
}

fn is_line_of_template(is_full: bool, line: &[u8]) -> bool
    ensures { result ≡ grounds.is_line (Ground.Template is_full) line.now }
{
    if line == b"end".as_slice() {
        return true;
    }
    !is_full && is_line_of(true, &TEMPLATE_FORMS, line)
}

fn begins_line_of_template(is_full: bool, front: &[u8]) -> bool
    ensures { result ≡ grounds.begins_line (Ground.Template is_full) front.now }
{
    if begins(front, b"end") {
        return true;
    }
    !is_full && begins_line_of(true, &TEMPLATE_FORMS, front)
}

fn is_skipped(line: &[u8]) -> bool
    ensures { result ≡ is_skipped line.now }
{
    matches!(line, [] | [b'#', ..])
}

fn is_blank_line(line: &[u8]) -> bool
    ensures { result ≡ list_all is_blank line.now }
{
    line.iter().all(|byte| is_blank(*byte))
}

fn is_blank(byte: u8) -> bool
    ensures { result ≡ is_blank byte }
{
    matches!(byte, b' ' | b'\t')
}

// ---- lines with a first word of their own

fn is_verb_line(outside: Option<Place>, line: &[u8]) -> bool
    ensures { result ≡ grounds.is_verb_line outside line.now }
{
    match cut_at(line, b' ') {
        Some((first, rest)) => match forms_of(outside, first) {
            Some(forms) => is_line_of(false, forms, rest),
            None => false,
        },
        None => match forms_of(outside, line) {
            Some(forms) => may_end(forms),
            None => false,
        },
    }
}

fn begins_verb_line(outside: Option<Place>, front: &[u8]) -> bool
    ensures { result ≡ grounds.begins_verb_line outside front.now }
{
    match cut_at(front, b' ') {
        Some((first, rest)) => match forms_of(outside, first) {
            Some(forms) => begins_line_of(false, forms, rest),
            None => false,
        },
        None => begins_verb(outside, front),
    }
}

fn begins_verb(outside: Option<Place>, front: &[u8]) -> bool
    ensures { result ≡ grounds.begins_verb outside front.now }
{
    VERBS.iter().any(|verb| can_be(outside, *verb, front))
}

/// Whether a first word that is known here can begin so.
fn can_be(outside: Option<Place>, verb: Verb, front: &[u8]) -> bool
    ensures { result ≡ grounds.can_be outside front.now verb }
{
    is_verb_in(outside, verb) && begins(front, verb.text())
}

/// The forms behind a first word, where it is known here.
pub(crate) fn forms_of(outside: Option<Place>, first: &[u8]) -> Option<&'static [Form]>
    ensures { MatchOption result (grounds.forms_of outside (verb_at first.now) ≡ None)
        (λ forms. grounds.forms_of outside (verb_at first.now) ≡ Some forms.now) }
{
    let Some(verb) = Verb::of_word(first) else {
        return None;
    };
    if is_verb_in(outside, verb) {
        Some(verb_forms(verb))
    } else {
        None
    }
}

/// Whether a first word is known outside a block in a script for a place, or within a batch, where no place is given.
pub(crate) fn is_verb_in(outside: Option<Place>, verb: Verb) -> bool
    ensures { result ≡ grounds.is_verb_in outside verb }
{
    match outside {
        Some(place) => place.knows(verb),
        None => changes_policies(verb),
    }
}

fn changes_policies(verb: Verb) -> bool
    ensures { result ≡ grounds.changes_policies verb }
{
    match verb {
        Verb::Set | Verb::Unset => true,
        _ => false,
    }
}

/// The forms of the words behind each first word.
fn verb_forms(verb: Verb) -> &'static [Form]
    ensures { result.now ≡ grounds.verb_forms verb }
{
    match verb {
        Verb::Set => &[
            Form::Bucket,
            Form::Field,
            Form::Field,
            Form::Field,
            Form::Result,
        ],
        Verb::Unset => &[Form::Bucket, Form::Field, Form::Field, Form::Field],
        Verb::Bucket => &[Form::Bucket, Form::Result],
        Verb::Drop => &[Form::Bucket],
        Verb::Erase | Verb::List => &[
            Form::Bucket,
            Form::FilterField,
            Form::FilterField,
            Form::FilterField,
        ],
        Verb::Layout | Verb::Shares | Verb::Status | Verb::Stop => &[],
        Verb::User => &[Form::Uid, Form::UserType],
        Verb::NoUser | Verb::Levels => &[Form::Uid],
        Verb::Install | Verb::Hybrid => &[
            Form::Ident,
            Form::Author,
            Form::Ident,
            Form::Scope,
            Form::Names,
        ],
        Verb::Convert => &[Form::Ident, Form::PackageKind],
        Verb::Remove => &[Form::Ident, Form::Scope],
        Verb::Check => &[Form::Name, Form::Name, Form::Name],
        Verb::From => &[
            Form::Bucket,
            Form::Depth,
            Form::Name,
            Form::Name,
            Form::Name,
        ],
        Verb::Access => &[Form::Label, Form::Label, Form::Request],
        Verb::Level => &[
            Form::Uid,
            Form::Setter,
            Form::Uid,
            Form::Name,
            Form::Name,
            Form::Level,
        ],
        Verb::Audit => &[Form::Name],
        Verb::Share | Verb::Unshare => &[Form::Ident, Form::Ident, Form::Ident],
    }
}
