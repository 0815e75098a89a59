//! Lines on levels and the audit, behind their first word.

ghost use Rattle.std.specs.Prelude.{IfOk};
ghost use Rattle.line_script.specs.Grammar.{target_at, setter_at, level_line_at, levels_at, audit_at};
ghost use Rattle.line_script.specs.Turn.{AsksRequest};
ghost use Rattle.script_words.specs.Reading.{Gives, GivesWord};
ghost use Rattle.line_script.specs.declared.steps.Step.TheVariants as step;

use crate::steps::Step;
use desk_ports::Boxed;
use level_requests::{LevelRequest, Setter};
use script_words::{LineRefusal, Words, end_word, level_word, name_word, setter_word, uid_word};
use std::alloc::Global;

/// `level CALLER own CLIENT PRIVILEGE LEVEL`, or `level CALLER admin UID CLIENT PRIVILEGE LEVEL`.
#[tactic(auto, unfolding(crate::specs::Grammar::level_line_at))]
#[inline(never)]
pub(crate) fn level_line<'a>(alloc: Global, words: &mut Words<'a>) -> Result<Step<'a>, LineRefusal>
    ensures step { Gives result (level_line_at words.old) }
    ensures asked { IfOk result AsksRequest }
{
    let caller = uid_word(words)?;
    let by = setter_words(words)?;
    let client = name_word(alloc, words)?;
    let privilege = name_word(alloc, words)?;
    let level = level_word(words)?;
    let Some(()) = end_word(words) else {
        return Err(LineRefusal::Syntax);
    };
    let request = LevelRequest {
        caller,
        by,
        client,
        privilege,
        level,
    };
    let request = Boxed::of(alloc, request).map_err(LineRefusal::Memory)?;
    Ok(Step::Level(request))
}

/// `own`, or `admin UID`.
#[tactic(auto, unfolding(crate::specs::Grammar::setter_at))]
fn setter_words(words: &mut Words) -> Result<Setter, LineRefusal>
    ensures { GivesWord result words.new (setter_at words.old) }
{
    let has_target = setter_word(words)?;
    target_words(words, has_target)
}

/// The number of the user for whom an administrator sets a level.
#[tactic(auto, unfolding(crate::specs::Grammar::target_at))]
fn target_words(words: &mut Words, has_target: bool) -> Result<Setter, LineRefusal>
    ensures { GivesWord result words.new (target_at has_target words.old) }
{
    if !has_target {
        return Ok(Setter::Own);
    }
    let target = uid_word(words)?;
    Ok(Setter::Administrator { target })
}

/// `levels UID`.
#[tactic(auto, unfolding(crate::specs::Grammar::levels_at))]
#[inline(never)]
pub(crate) fn levels_line<'a>(words: &mut Words<'a>) -> Result<Step<'a>, LineRefusal>
    ensures step { Gives result (levels_at words.old) }
    ensures asked { IfOk result AsksRequest }
{
    let uid = uid_word(words)?;
    let Some(()) = end_word(words) else {
        return Err(LineRefusal::Syntax);
    };
    Ok(Step::Levels { uid })
}

/// `audit USER`.
#[tactic(auto, unfolding(crate::specs::Grammar::audit_at))]
#[inline(never)]
pub(crate) fn audit_line<'a>(alloc: Global, words: &mut Words<'a>) -> Result<Step<'a>, LineRefusal>
    ensures step { Gives result (audit_at words.old) }
    ensures asked { IfOk result AsksRequest }
{
    let user = name_word(alloc, words)?;
    let Some(()) = end_word(words) else {
        return Err(LineRefusal::Syntax);
    };
    Ok(Step::Audit { user })
}
