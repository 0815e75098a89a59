//! Lines that are one command, behind their first word.

ghost use Rattle.std.specs.Prelude.{IfOk};
ghost use Rattle.line_script.specs.Grammar.{set_bucket_at, drop_at, erase_at, layout_at, user_at, nouser_at};
ghost use Rattle.line_script.specs.Grammar.{convert_at, remove_at};
ghost use Rattle.line_script.specs.Turn.{AsksRequest};
ghost use Rattle.script_words.specs.Reading.{Gives};

use crate::steps::Step;
use desk_state::Command;
use script_words::{
    LineRefusal, Words, bucket_word, end_word, filter_words, ident_word, package_kind_word,
    result_word, scope_word, uid_word, user_type_word,
};
use std::alloc::Global;

/// `bucket BUCKET RESULT`.
#[tactic(auto, unfolding(crate::specs::Grammar::set_bucket_at))]
#[inline(never)]
pub(crate) fn bucket_line<'a>(alloc: Global, words: &mut Words<'a>) -> Result<Step<'a>, LineRefusal>
    ensures step { Gives result (set_bucket_at words.old) }
    ensures asked { IfOk result AsksRequest }
{
    let bucket = bucket_word(alloc, words)?;
    let fallback = result_word(alloc, words)?;
    let Some(()) = end_word(words) else {
        return Err(LineRefusal::Syntax);
    };
    Step::of_command(alloc, Command::SetBucket { bucket, fallback })
}

/// `drop BUCKET`.
#[tactic(auto, unfolding(crate::specs::Grammar::drop_at))]
#[inline(never)]
pub(crate) fn drop_line<'a>(alloc: Global, words: &mut Words<'a>) -> Result<Step<'a>, LineRefusal>
    ensures step { Gives result (drop_at words.old) }
    ensures asked { IfOk result AsksRequest }
{
    let bucket = bucket_word(alloc, words)?;
    let Some(()) = end_word(words) else {
        return Err(LineRefusal::Syntax);
    };
    Step::of_command(alloc, Command::RemoveBucket { bucket })
}

/// `erase BUCKET FILTER FILTER FILTER`.
#[tactic(auto, unfolding(crate::specs::Grammar::erase_at))]
#[inline(never)]
pub(crate) fn erase_line<'a>(alloc: Global, words: &mut Words<'a>) -> Result<Step<'a>, LineRefusal>
    ensures step { Gives result (erase_at words.old) }
    ensures asked { IfOk result AsksRequest }
{
    let bucket = bucket_word(alloc, words)?;
    let filter = filter_words(alloc, words)?;
    let Some(()) = end_word(words) else {
        return Err(LineRefusal::Syntax);
    };
    Step::of_command(alloc, Command::Erase { bucket, filter })
}

/// `layout`.
#[tactic(auto, unfolding(crate::specs::Grammar::layout_at))]
#[inline(never)]
pub(crate) fn layout_line<'a>(alloc: Global, words: &mut Words<'a>) -> Result<Step<'a>, LineRefusal>
    ensures step { Gives result (layout_at words.old) }
    ensures asked { IfOk result AsksRequest }
{
    let Some(()) = end_word(words) else {
        return Err(LineRefusal::Syntax);
    };
    Step::of_command(alloc, Command::Layout)
}

/// `user UID TYPE`.
#[tactic(auto, unfolding(crate::specs::Grammar::user_at))]
#[inline(never)]
pub(crate) fn user_line<'a>(alloc: Global, words: &mut Words<'a>) -> Result<Step<'a>, LineRefusal>
    ensures step { Gives result (user_at words.old) }
    ensures asked { IfOk result AsksRequest }
{
    let uid = uid_word(words)?;
    let kind = user_type_word(words)?;
    let Some(()) = end_word(words) else {
        return Err(LineRefusal::Syntax);
    };
    Step::of_command(alloc, Command::UserSet { uid, kind })
}

/// `nouser UID`.
#[tactic(auto, unfolding(crate::specs::Grammar::nouser_at))]
#[inline(never)]
pub(crate) fn nouser_line<'a>(alloc: Global, words: &mut Words<'a>) -> Result<Step<'a>, LineRefusal>
    ensures step { Gives result (nouser_at words.old) }
    ensures asked { IfOk result AsksRequest }
{
    let uid = uid_word(words)?;
    let Some(()) = end_word(words) else {
        return Err(LineRefusal::Syntax);
    };
    Step::of_command(alloc, Command::UserRemove { uid })
}

/// `convert PACKAGE KIND`.
#[tactic(auto, unfolding(crate::specs::Grammar::convert_at))]
#[inline(never)]
pub(crate) fn convert_line<'a>(
    alloc: Global,
    words: &mut Words<'a>,
) -> Result<Step<'a>, LineRefusal>
    ensures step { Gives result (convert_at words.old) }
    ensures asked { IfOk result AsksRequest }
{
    let package = ident_word(alloc, words)?;
    let hybrid = package_kind_word(words)?;
    let Some(()) = end_word(words) else {
        return Err(LineRefusal::Syntax);
    };
    Step::of_command(alloc, Command::Convert { package, hybrid })
}

/// `remove APP SCOPE`.
#[tactic(auto, unfolding(crate::specs::Grammar::remove_at))]
#[inline(never)]
pub(crate) fn remove_line<'a>(alloc: Global, words: &mut Words<'a>) -> Result<Step<'a>, LineRefusal>
    ensures step { Gives result (remove_at words.old) }
    ensures asked { IfOk result AsksRequest }
{
    let app = ident_word(alloc, words)?;
    let scope = scope_word(words)?;
    let Some(()) = end_word(words) else {
        return Err(LineRefusal::Syntax);
    };
    Step::of_command(alloc, Command::Uninstall { app, scope })
}
