//! Lines that ask and change nothing, and the line that ends a service, behind their first word.

ghost use Rattle.std.specs.Prelude.{◌≡◌, Some, IfOk, MatchResult};
ghost use Rattle.line_script.specs.Grammar.{list_at, check_at, from_at, access_at, status_at, stop_at};
ghost use Rattle.line_script.specs.Turn.{AsksRequest};
ghost use Rattle.script_words.specs.Reading.{Gives, Refuses};
ghost use Rattle.line_script.specs.declared.steps.Step.TheVariants as step;

use crate::steps::Step;
use cynara_keys::BorrowedQuestion;
use desk_ports::Boxed;
use script_words::{
    LineRefusal, Words, bucket_word, depth_word, end_word, filter_words, label_word,
    question_words, request_word,
};
use std::alloc::Global;

/// `list BUCKET FILTER FILTER FILTER`.
#[tactic(auto, unfolding(crate::specs::Grammar::list_at))]
#[inline(never)]
pub(crate) fn list_line<'a>(alloc: Global, words: &mut Words<'a>) -> Result<Step<'a>, LineRefusal>
    ensures step { Gives result (list_at words.old) }
    ensures asked { IfOk result AsksRequest }
{
    let bucket = bucket_word(alloc, words)?;
    let filter = filter_words(alloc, words)?;
    let Some(()) = end_word(words) else {
        return Err(LineRefusal::Syntax);
    };
    let filter = Boxed::of(alloc, filter).map_err(LineRefusal::Memory)?;
    Ok(Step::List { bucket, filter })
}

/// `check CLIENT USER PRIVILEGE`.
#[inline(never)]
pub(crate) fn check_line<'a>(words: &mut Words<'a>) -> Result<Step<'a>, LineRefusal>
    ensures step { Gives result (check_at words.old) }
    ensures asked { IfOk result AsksRequest }
{
    let question = whole_question(words)?;
    Ok(Step::Check(question))
}

/// The question of `check`, which all words behind it say.
#[tactic(auto, unfolding(crate::specs::Grammar::check_at))]
#[inline(always)]
pub(crate) fn whole_question<'a>(words: &mut Words<'a>) -> Result<BorrowedQuestion<'a>, LineRefusal>
    ensures { MatchResult result (λ question. check_at words.old ≡ Some (step.Check question))
        (λ refusal. Refuses refusal (check_at words.old)) }
{
    let question = question_words(words)?;
    let Some(()) = end_word(words) else {
        return Err(LineRefusal::Syntax);
    };
    Ok(question)
}

/// `from BUCKET MODE CLIENT USER PRIVILEGE`.
#[tactic(auto, unfolding(crate::specs::Grammar::from_at))]
#[inline(never)]
pub(crate) fn from_line<'a>(alloc: Global, words: &mut Words<'a>) -> Result<Step<'a>, LineRefusal>
    ensures step { Gives result (from_at words.old) }
    ensures asked { IfOk result AsksRequest }
{
    let bucket = bucket_word(alloc, words)?;
    let deep = depth_word(words)?;
    let question = question_words(words)?;
    let Some(()) = end_word(words) else {
        return Err(LineRefusal::Syntax);
    };
    Ok(Step::From {
        bucket,
        deep,
        question,
    })
}

/// `access SUBJECT OBJECT MODES`.
#[tactic(auto, unfolding(crate::specs::Grammar::access_at))]
#[inline(never)]
pub(crate) fn access_line<'a>(alloc: Global, words: &mut Words<'a>) -> Result<Step<'a>, LineRefusal>
    ensures step { Gives result (access_at words.old) }
    ensures asked { IfOk result AsksRequest }
{
    let subject = label_word(alloc, words)?;
    let object = label_word(alloc, words)?;
    let asked = request_word(words)?;
    let Some(()) = end_word(words) else {
        return Err(LineRefusal::Syntax);
    };
    Ok(Step::Access {
        subject,
        object,
        asked,
    })
}

/// `status`.
#[tactic(auto, unfolding(crate::specs::Grammar::status_at))]
#[inline(never)]
pub(crate) fn status_line<'a>(words: &mut Words<'a>) -> Result<Step<'a>, LineRefusal>
    ensures step { Gives result (status_at words.old) }
    ensures asked { IfOk result AsksRequest }
{
    let Some(()) = end_word(words) else {
        return Err(LineRefusal::Syntax);
    };
    Ok(Step::Status)
}

/// `stop`.
#[tactic(auto, unfolding(crate::specs::Grammar::stop_at))]
#[inline(never)]
pub(crate) fn stop_line<'a>(words: &mut Words<'a>) -> Result<Step<'a>, LineRefusal>
    ensures step { Gives result (stop_at words.old) }
    ensures asked { IfOk result AsksRequest }
{
    let Some(()) = end_word(words) else {
        return Err(LineRefusal::Syntax);
    };
    Ok(Step::Stop)
}
