//! Which reason a fault has. The place is proved, the reason is tested.

ghost use Rattle.std.specs.Prelude.{◌≤◌, length};

use crate::forms::Form;
use crate::grounds::{Ground, RULE_FORMS, TEMPLATE_FORMS, forms_of};
use crate::near_words::near_usage;
use crate::reasons::Reason;
use crate::stands::{may_end, run};
use crate::usages::usage_of;
use crate::word_tests::cut_at;
use crate::words_wrong::word_reason;
use desk_ports::shown_bytes;
use line_script::{Place, Verb};
use std::alloc::{AllocError, Global};

/// The most bytes of a line that a reason shows.
const MOST_SHOWN: usize = 40;

const RULE_USAGE: &str = "SUBJECT OBJECT MODES, or SUBJECT OBJECT ALLOW DENY";

/// A front that a known line can begin with, and what follows it in the line.
#[derive(Clone, Copy)]
struct Fault<'t> {
    front: &'t [u8],
    rest: &'t [u8],
}

/// The reason for the fault at the place.
pub(crate) fn reason_at(
    alloc: Global,
    ground: Ground,
    line: &[u8],
    place: usize,
) -> Result<Reason, AllocError>
    requires { place ≤ length line.now }
{
    let (front, rest) = line.split_at(place);
    let fault = Fault { front, rest };
    if let [b'\r', ..] = rest {
        return Ok(Reason::CarriageReturn);
    }
    if line.starts_with(b"\xef\xbb\xbf") {
        return Ok(Reason::ByteOrderMark);
    }
    match ground {
        Ground::Outside(place) => script_reason(alloc, Some(place), line, fault),
        Ground::Batch => script_reason(alloc, None, line, fault),
        Ground::Template { is_full } => template_reason(alloc, is_full, line, fault),
        Ground::Rules => rule_reason(alloc, line, fault),
    }
}

/// The form of a line of a script, where its first word is known and the reason is about another one.
pub(crate) fn form_at(ground: Ground, line: &[u8], reason: &Reason) -> Option<&'static str> {
    if !reason.is_about_a_word() {
        return None;
    }
    match ground {
        Ground::Outside(place) => form_of_line(Some(place), line),
        Ground::Batch => form_of_line(None, line),
        Ground::Template { .. } | Ground::Rules => None,
    }
}

fn form_of_line(outside: Option<Place>, line: &[u8]) -> Option<&'static str> {
    let (first, _) = cut_at(line, b' ')?;
    forms_of(outside, first)?;
    Some(usage_of(first))
}

// ---- scripts

fn script_reason(
    alloc: Global,
    outside: Option<Place>,
    line: &[u8],
    fault: Fault,
) -> Result<Reason, AllocError> {
    if let Some(reason) = blank_reason(fault) {
        return Ok(reason);
    }
    match cut_at(fault.front, b' ') {
        None => first_word_reason(alloc, outside, line, fault),
        Some((first, behind)) => match forms_of(outside, first) {
            Some(forms) => {
                let fault = Fault {
                    front: behind,
                    rest: fault.rest,
                };
                words_reason(alloc, false, forms, usage_of(first), fault)
            }
            None => first_word(alloc, outside, first),
        },
    }
}

/// A blank where none may stand.
fn blank_reason(fault: Fault) -> Option<Reason> {
    match (fault.front, fault.rest) {
        (_, [b'\t', ..]) => Some(Reason::Tab),
        ([], [b' ', ..]) => {
            if are_spaces(fault.rest) {
                return Some(Reason::SpacesAlone);
            }
            Some(Reason::SpaceInFront)
        }
        ([.., b' '], [b' ', ..]) => {
            if are_spaces(fault.rest) {
                return Some(Reason::SpaceAtEnd);
            }
            Some(Reason::TwoSpaces)
        }
        _ => None,
    }
}

fn first_word_reason(
    alloc: Global,
    outside: Option<Place>,
    line: &[u8],
    fault: Fault,
) -> Result<Reason, AllocError> {
    let word = first_word_of(line);
    if is_alone(outside, word) {
        return Ok(surplus(usage_of(word), fault.rest));
    }
    if forms_of(outside, word).is_some() {
        if fault.rest.is_empty() {
            return Ok(Reason::TooFewWords(usage_of(word)));
        }
        return Ok(surplus(usage_of(word), fault.rest));
    }
    if outside.is_none() && is_known_outside(word) {
        return Ok(Reason::NotInBatch);
    }
    if word == b"end".as_slice() {
        return Ok(Reason::NoBlock);
    }
    match outside {
        Some(Place::Local) if is_known_outside(word) => Ok(Reason::OfAdmin),
        Some(Place::Admin) if is_known_outside(word) => Ok(Reason::OfLocal),
        _ => first_word(alloc, outside, word),
    }
}

/// The bytes in front of the first blank or carriage return.
fn first_word_of(line: &[u8]) -> &[u8] {
    match line
        .iter()
        .position(|byte| matches!(byte, b' ' | b'\t' | b'\r'))
    {
        Some(at) => &line[..at],
        None => line,
    }
}

/// A word that opens or ends a block here, and is a line by itself.
fn is_alone(outside: Option<Place>, word: &[u8]) -> bool {
    match outside {
        Some(_) => opens_block(word),
        None => word == b"end".as_slice(),
    }
}

fn opens_block(word: &[u8]) -> bool {
    word == b"batch".as_slice() || word == b"template".as_slice()
}

fn is_known_outside(word: &[u8]) -> bool {
    Verb::of_word(word).is_some() || opens_block(word)
}

fn first_word(alloc: Global, outside: Option<Place>, word: &[u8]) -> Result<Reason, AllocError> {
    let (front, behind) = word.split_at(word.len().min(MOST_SHOWN));
    let shown = shown_bytes(alloc, front, 4 * MOST_SHOWN)?;
    if behind.is_empty() {
        Ok(Reason::FirstWord {
            shown,
            near: near_usage(outside, word),
        })
    } else {
        Ok(Reason::LongFirstWord(shown))
    }
}

/// More than a line that is whole.
fn surplus(usage: &'static str, rest: &[u8]) -> Reason {
    if are_blank_to_the_end(rest) {
        Reason::SpaceAtEnd
    } else {
        Reason::TooManyWords(usage)
    }
}

fn are_spaces(bytes: &[u8]) -> bool {
    bytes.iter().all(|byte| *byte == b' ')
}

/// Spaces and what else an editor hides at the end of a line.
fn are_blank_to_the_end(bytes: &[u8]) -> bool {
    bytes
        .iter()
        .all(|byte| matches!(byte, b' ' | b'\t' | b'\r'))
}

// ---- words behind one another

fn words_reason(
    alloc: Global,
    blanks: bool,
    forms: &'static [Form],
    usage: &'static str,
    fault: Fault,
) -> Result<Reason, AllocError> {
    let Some(at) = run(blanks, forms, fault.front) else {
        return Ok(Reason::TooManyWords(usage));
    };
    match at.forms {
        [] => Ok(surplus(usage, fault.rest)),
        [form, ..] => {
            let whole = form.is_word(at.part);
            match fault.rest {
                [] => {
                    if at.part.is_empty() && may_end(at.forms) {
                        return Ok(Reason::SpaceAtEnd);
                    }
                    if whole || at.part.is_empty() {
                        return Ok(Reason::TooFewWords(usage));
                    }
                }
                [b' ' | b'\t', ..] => {
                    if whole {
                        return Ok(surplus(usage, fault.rest));
                    }
                }
                _ => {}
            }
            word_reason(alloc, *form, at.part, fault.rest.first().copied())
        }
    }
}

// ---- rules

fn template_reason(
    alloc: Global,
    is_full: bool,
    line: &[u8],
    fault: Fault,
) -> Result<Reason, AllocError> {
    if is_end_with_blanks(line) {
        return Ok(Reason::EndNotAlone);
    }
    if is_full {
        return Ok(Reason::TemplateFull);
    }
    if are_blanks(line) {
        return Ok(Reason::EmptyLine);
    }
    if let [b'#', ..] = line {
        return Ok(Reason::Comment);
    }
    words_reason(alloc, true, &TEMPLATE_FORMS, RULE_USAGE, fault)
}

fn rule_reason(alloc: Global, line: &[u8], fault: Fault) -> Result<Reason, AllocError> {
    if let [b'#', ..] = line {
        return Ok(Reason::Comment);
    }
    words_reason(alloc, true, &RULE_FORMS, RULE_USAGE, fault)
}

/// Whether `end` is the one word of a line.
fn is_end_with_blanks(line: &[u8]) -> bool {
    let Some(at) = line.iter().position(|byte| !matches!(byte, b' ' | b'\t')) else {
        return false;
    };
    match &line[at..] {
        [b'e', b'n', b'd', behind @ ..] => are_blank_to_the_end(behind),
        _ => false,
    }
}

fn are_blanks(bytes: &[u8]) -> bool {
    bytes.iter().all(|byte| matches!(byte, b' ' | b'\t'))
}
