//! Lines that change one policy, behind their first word.

ghost use Rattle.std.specs.Prelude.{Some, option_map, IfOk};
ghost use Rattle.line_script.specs.Grammar.{set_at, unset_at, change_step};
ghost use Rattle.line_script.specs.Turn.{AsksRequest};
ghost use Rattle.script_words.specs.Reading.{Gives};

use crate::steps::Step;
use bucket_store::{Change, Changes};
use desk_state::Command;
use script_words::{LineRefusal, Words, bucket_word, end_word, key_words, result_word};
use std::alloc::{AllocError, Global};

/// `set BUCKET CLIENT USER PRIVILEGE RESULT`.
#[tactic(auto, unfolding(crate::specs::Grammar::set_at))]
pub(crate) fn set_line(alloc: Global, words: &mut Words) -> Result<Change, LineRefusal>
    ensures { Gives result (set_at words.old) }
{
    let bucket = bucket_word(alloc, words)?;
    let key = key_words(alloc, words)?;
    let result = result_word(alloc, words)?;
    let Some(()) = end_word(words) else {
        return Err(LineRefusal::Syntax);
    };
    Ok(Change::Set {
        bucket,
        key,
        result,
    })
}

/// `unset BUCKET CLIENT USER PRIVILEGE`.
#[tactic(auto, unfolding(crate::specs::Grammar::unset_at))]
pub(crate) fn unset_line(alloc: Global, words: &mut Words) -> Result<Change, LineRefusal>
    ensures { Gives result (unset_at words.old) }
{
    let bucket = bucket_word(alloc, words)?;
    let key = key_words(alloc, words)?;
    let Some(()) = end_word(words) else {
        return Err(LineRefusal::Syntax);
    };
    Ok(Change::Delete { bucket, key })
}

/// The same two lines outside a batch.
#[inline(never)]
pub(crate) fn set_step<'a>(alloc: Global, words: &mut Words<'a>) -> Result<Step<'a>, LineRefusal>
    ensures step { Gives result (option_map change_step (set_at words.old)) }
    ensures asked { IfOk result AsksRequest }
{
    let change = set_line(alloc, words)?;
    one_change(alloc, change)
}

#[inline(never)]
pub(crate) fn unset_step<'a>(alloc: Global, words: &mut Words<'a>) -> Result<Step<'a>, LineRefusal>
    ensures step { Gives result (option_map change_step (unset_at words.old)) }
    ensures asked { IfOk result AsksRequest }
{
    let change = unset_line(alloc, words)?;
    one_change(alloc, change)
}

/// One change, as a command of its own.
fn one_change<'a>(alloc: Global, change: Change) -> Result<Step<'a>, LineRefusal>
    ensures step { Gives result (Some (change_step change)) }
    ensures asked { IfOk result AsksRequest }
{
    let mut list = Vec::new(alloc);
    list.push(change)
        .map_err(AllocError::from)
        .map_err(LineRefusal::Memory)?;
    let changes = Changes::of(list);
    Step::of_command(alloc, Command::SetPolicies { changes })
}
