ghost use Rattle.std.specs.Prelude.{◌≡◌, Some, IfOk, IfSome};
ghost use Rattle.line_script.specs.Block.{outside};
ghost use Rattle.line_script.specs.Grammar.{change_at, line_at, lone_change, lone_step, outside_at};
ghost use Rattle.script_words.specs.Words.{word};
ghost use Rattle.script_words.specs.Verbs.{verb_at};
ghost use Rattle.line_script.specs.Turn.{AsksRequest};
ghost use Rattle.line_script.specs.parts.Beginnings.{begins_as_check};
ghost use Rattle.script_words.specs.Reading.{Gives, GivesWord};
ghost use Rattle.script_words.specs.declared.places.Place.{Place};
ghost use Rattle.line_script.specs.declared.steps.Step.TheVariants as step;

use crate::changes::{set_line, set_step, unset_line, unset_step};
use crate::commands::{
    bucket_line, convert_line, drop_line, erase_line, layout_line, nouser_line, remove_line,
    user_line,
};
use crate::installs::install_line;
use crate::levels::{audit_line, level_line, levels_line};
use crate::questions::{
    access_line, check_line, from_line, list_line, status_line, stop_line, whole_question,
};
use crate::sharing::{share_line, shares_line, unshare_line};
use crate::steps::Step;
use bucket_store::Change;
use cynara_keys::BorrowedQuestion;
use script_words::{LineRefusal, Place, Verb, Words};
use std::alloc::Global;

/// The step of a line that stands outside a block, in a script for this place, and is neither blank nor a comment.
#[tactic(auto, unfolding(crate::specs::Grammar::lone_step))]
pub(crate) fn lone_step<'a>(
    alloc: Global,
    place: Place,
    line: &'a [u8],
) -> Result<Step<'a>, LineRefusal>
    ensures step { Gives result (lone_step place line.now) }
    ensures asked { IfOk result AsksRequest }
{
    let mut words = Words::of(line);
    let verb = verb_word(&mut words)?;
    if !place.knows(verb) {
        return Err(LineRefusal::Syntax);
    }
    line_behind(alloc, verb, &mut words)
}

/// The change that a line of a batch is.
#[tactic(auto, unfolding(crate::specs::Grammar::lone_change))]
pub(crate) fn lone_change(alloc: Global, line: &[u8]) -> Result<Change, LineRefusal>
    ensures { Gives result (lone_change line.now) }
{
    let mut words = Words::of(line);
    let verb = verb_word(&mut words)?;
    change_behind(alloc, verb, &mut words)
}

/// The question of a line that is `check` and stands outside a block. `None` for every other line, and for one that is
/// wrong.
#[inline(always)]
pub(crate) fn lone_check<'a>(line: &'a [u8]) -> Option<BorrowedQuestion<'a>>
    ensures { IfSome result (λ question. (place : Place)
        → outside_at place line.now ≡ Some (outside place, step.Check question)) }
{
    if !begins_as_check(line) {
        return None;
    }
    let mut words = Words::of(line);
    let verb = words.next()?;
    if verb != b"check".as_slice() {
        return None;
    }
    match whole_question(&mut words) {
        Ok(question) => Some(question),
        Err(_) => None,
    }
}

/// Whether the first byte is that of `check`.
fn begins_as_check(line: &[u8]) -> bool
    ensures { result ≡ begins_as_check line.now }
{
    matches!(line, [b'c', ..])
}

fn verb_word(words: &mut Words) -> Result<Verb, LineRefusal>
    ensures { GivesWord result words.new (word verb_at words.old) }
{
    let text = words.next().ok_or(LineRefusal::Syntax)?;
    Verb::of_word(text).ok_or(LineRefusal::Syntax)
}

#[tactic(auto, unfolding(crate::specs::Grammar::change_at))]
fn change_behind(alloc: Global, verb: Verb, words: &mut Words) -> Result<Change, LineRefusal>
    ensures { Gives result (change_at verb words.old) }
{
    match verb {
        Verb::Set => set_line(alloc, words),
        Verb::Unset => unset_line(alloc, words),
        _ => Err(LineRefusal::Syntax),
    }
}

/// Each line has a function of its own that is not inlined: a function pays at its entry for all that it may hold.
#[tactic(auto, unfolding(crate::specs::Grammar::line_at))]
fn line_behind<'a>(
    alloc: Global,
    verb: Verb,
    words: &mut Words<'a>,
) -> Result<Step<'a>, LineRefusal>
    ensures step { Gives result (line_at verb words.old) }
    ensures asked { IfOk result AsksRequest }
{
    match verb {
        Verb::Set => set_step(alloc, words),
        Verb::Unset => unset_step(alloc, words),
        Verb::Bucket => bucket_line(alloc, words),
        Verb::Drop => drop_line(alloc, words),
        Verb::Erase => erase_line(alloc, words),
        Verb::Layout => layout_line(alloc, words),
        Verb::User => user_line(alloc, words),
        Verb::NoUser => nouser_line(alloc, words),
        Verb::Install => install_line(alloc, words, false),
        Verb::Hybrid => install_line(alloc, words, true),
        Verb::Convert => convert_line(alloc, words),
        Verb::Remove => remove_line(alloc, words),
        Verb::List => list_line(alloc, words),
        Verb::Check => check_line(words),
        Verb::From => from_line(alloc, words),
        Verb::Access => access_line(alloc, words),
        Verb::Level => level_line(alloc, words),
        Verb::Levels => levels_line(words),
        Verb::Audit => audit_line(alloc, words),
        Verb::Share => share_line(alloc, words),
        Verb::Unshare => unshare_line(alloc, words),
        Verb::Shares => shares_line(words),
        Verb::Status => status_line(words),
        Verb::Stop => stop_line(words),
    }
}
