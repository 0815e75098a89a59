//! How far the forms of a line go along its bytes.

ghost use Rattle.std.specs.Prelude.{◌≡◌, ◌<◌, List, [], Some, None, length, position, MatchOption, IfSome};
ghost use Rattle.line_reasons.specs.declared.forms.Form.{Form};
ghost use Rattle.line_reasons.specs.parts.Runs as runs;

use crate::forms::Form;
use std::marker::Model;

/// Where a front of a line is: the forms from the part under way on, and the bytes of that part.
#[derive(Drop)]
pub(crate) struct Stand<'t> {
    pub(crate) forms: &'static [Form],
    pub(crate) part: &'t [u8],
}

impl<'t> Model for Stand<'t> {
    ghost use Rattle.line_reasons.specs.parts.Runs.{Stand, stand};

    ghost Value = { Stand };

    ghost view = { λ at. stand at.forms.now at.part.now };
}

/// Where a front leads to. `None` where a part in it is no word of its form.
pub(crate) fn run<'t>(blanks: bool, forms: &'static [Form], text: &'t [u8]) -> Option<Stand<'t>>
    ensures { result ≡ runs.run blanks (runs.stand forms.now []) text.now }
{
    let mut forms = forms;
    let mut rest = text;
    while let Some((part, after)) = cut_part(blanks, rest) {
        let Some(left) = behind_part(blanks, forms, part) else {
            return None;
        };
        forms = left;
        rest = after;
    }
    Some(Stand { forms, part: rest })
}

/// Whether a line has these forms.
pub(crate) fn is_line_of(blanks: bool, forms: &'static [Form], line: &[u8]) -> bool
    ensures { result ≡ runs.is_line_of blanks forms.now line.now }
{
    match run(blanks, forms, line) {
        Some(at) => ends_at(blanks, at.forms, at.part),
        None => false,
    }
}

/// Whether a line of these forms can begin so.
pub(crate) fn begins_line_of(blanks: bool, forms: &'static [Form], front: &[u8]) -> bool
    ensures { result ≡ runs.begins_line_of blanks forms.now front.now }
{
    match run(blanks, forms, front) {
        Some(at) => is_gap(blanks, at.part) || begins_at(at.forms, at.part),
        None => false,
    }
}

/// Whether a line may end with this part.
pub(crate) fn ends_at(blanks: bool, forms: &'static [Form], part: &[u8]) -> bool
    ensures { result ≡ runs.ends_at blanks (runs.stand forms.now part.now) }
{
    match behind_part(blanks, forms, part) {
        Some(left) => may_end(left),
        None => false,
    }
}

pub(crate) fn may_end(forms: &[Form]) -> bool
    ensures { result ≡ runs.may_end forms.now }
{
    match forms {
        [] => true,
        [form, ..] => form.may_lack(),
    }
}

fn begins_at(forms: &[Form], part: &[u8]) -> bool
    ensures { result ≡ runs.begins_at forms.now part.now }
{
    match forms {
        [] => false,
        [form, ..] => form.begins_word(part),
    }
}

/// The forms of the words behind this part.
fn behind_part(blanks: bool, forms: &'static [Form], part: &[u8]) -> Option<&'static [Form]>
    ensures { MatchOption result (runs.behind_part blanks forms.now part.now ≡ None)
        (λ left. runs.behind_part blanks forms.now part.now ≡ Some left.now) }
{
    if is_gap(blanks, part) {
        return Some(forms);
    }
    behind_word(forms, part)
}

fn behind_word(forms: &'static [Form], word: &[u8]) -> Option<&'static [Form]>
    ensures { MatchOption result (runs.behind_word forms.now word.now ≡ None)
        (λ left. runs.behind_word forms.now word.now ≡ Some left.now) }
{
    match forms {
        [] => None,
        [form, behind @ ..] => {
            if !form.is_word(word) {
                return None;
            }
            if form.repeats() {
                return Some(forms);
            }
            if form.leaves_out(word) {
                return Some(without_first(behind));
            }
            Some(behind)
        }
    }
}

fn without_first(forms: &'static [Form]) -> &'static [Form]
    ensures { result.now ≡ runs.without_first forms.now }
{
    match forms {
        [] => forms,
        [_, behind @ ..] => behind,
    }
}

fn is_gap(blanks: bool, part: &[u8]) -> bool
    ensures { result ≡ runs.is_gap blanks part.now }
{
    match part {
        [] => blanks,
        [_, ..] => false,
    }
}

/// Cuts a text at the first byte that parts words.
fn cut_part(blanks: bool, text: &[u8]) -> Option<(&[u8], &[u8])>
    ensures parts { MatchOption result
        ((forms : List Form) → runs.run blanks (runs.stand forms []) text.now ≡ Some (runs.stand forms text.now))
        (λ cut. (forms : List Form) → runs.run blanks (runs.stand forms []) text.now
        ≡ runs.run_behind blanks (runs.behind_part blanks forms cut.0.now) cut.1.now) }
    ensures shorter { IfSome result (λ cut. length cut.1.now < length text.now) }
{
    match first_parting(blanks, text) {
        Some(at) => Some((&text[..at], &text[at + 1..])),
        None => None,
    }
}

fn first_parting(blanks: bool, text: &[u8]) -> Option<usize>
    ensures place { result ≡ position (runs.parts_words blanks) text.now }
    ensures within { IfSome result (λ at. at < length text.now) }
{
    text.iter().position(|byte| parts_words(blanks, *byte))
}

/// Whether a byte parts words.
fn parts_words(blanks: bool, byte: u8) -> bool
    ensures { result ≡ runs.parts_words blanks byte }
{
    if blanks {
        return byte == b' ' || byte == b'\t';
    }
    byte == b' '
}
