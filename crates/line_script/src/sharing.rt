//! Lines on shares, behind their first word.

ghost use Rattle.std.specs.Prelude.{IfOk};
ghost use Rattle.line_script.specs.Grammar.{share_at, unshare_at, shares_at};
ghost use Rattle.line_script.specs.Turn.{AsksRequest};
ghost use Rattle.script_words.specs.Reading.{Gives};

use crate::steps::Step;
use script_words::{LineRefusal, Words, end_word, ident_word};
use std::alloc::Global;

/// `share OWNER TARGET NAME`.
#[tactic(auto, unfolding(crate::specs::Grammar::share_at))]
#[inline(never)]
pub(crate) fn share_line<'a>(alloc: Global, words: &mut Words<'a>) -> Result<Step<'a>, LineRefusal>
    ensures step { Gives result (share_at words.old) }
    ensures asked { IfOk result AsksRequest }
{
    let owner = ident_word(alloc, words)?;
    let target = ident_word(alloc, words)?;
    let name = ident_word(alloc, words)?;
    let Some(()) = end_word(words) else {
        return Err(LineRefusal::Syntax);
    };
    Ok(Step::Share {
        owner,
        target,
        name,
    })
}

/// `unshare OWNER TARGET NAME`.
#[tactic(auto, unfolding(crate::specs::Grammar::unshare_at))]
#[inline(never)]
pub(crate) fn unshare_line<'a>(
    alloc: Global,
    words: &mut Words<'a>,
) -> Result<Step<'a>, LineRefusal>
    ensures step { Gives result (unshare_at words.old) }
    ensures asked { IfOk result AsksRequest }
{
    let owner = ident_word(alloc, words)?;
    let target = ident_word(alloc, words)?;
    let name = ident_word(alloc, words)?;
    let Some(()) = end_word(words) else {
        return Err(LineRefusal::Syntax);
    };
    Ok(Step::Unshare {
        owner,
        target,
        name,
    })
}

/// `shares`.
#[tactic(auto, unfolding(crate::specs::Grammar::shares_at))]
#[inline(never)]
pub(crate) fn shares_line<'a>(words: &mut Words<'a>) -> Result<Step<'a>, LineRefusal>
    ensures step { Gives result (shares_at words.old) }
    ensures asked { IfOk result AsksRequest }
{
    let Some(()) = end_word(words) else {
        return Err(LineRefusal::Syntax);
    };
    Ok(Step::Shares)
}
