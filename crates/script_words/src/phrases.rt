//! Several words that say one thing.

ghost use Rattle.script_words.specs.Phrases.{key_at, question_at, filter_at};
ghost use Rattle.script_words.specs.Reading.{GivesWord};

use crate::line_words::Words;
use crate::refusals::LineRefusal;
use crate::word_forms::{field_text, filter_word, name_text};
use cynara_keys::{BorrowedQuestion, Filter, Key};
use std::alloc::Global;

/// `CLIENT USER PRIVILEGE` of a policy.
#[tactic(auto, unfolding(crate::specs::Phrases::key_at))]
pub fn key_words(alloc: Global, words: &mut Words) -> Result<Key, LineRefusal>
    ensures { GivesWord result words.new (key_at words.old) }
{
    let client = field_text(words)?;
    let user = field_text(words)?;
    let privilege = field_text(words)?;
    Key::of(alloc, client, user, privilege).map_err(LineRefusal::Memory)
}

/// `CLIENT USER PRIVILEGE` of a question, whose names stay in the line.
#[tactic(auto, unfolding(crate::specs::Phrases::question_at))]
#[inline(always)]
pub fn question_words<'a>(words: &mut Words<'a>) -> Result<BorrowedQuestion<'a>, LineRefusal>
    ensures { GivesWord result words.new (question_at words.old) }
{
    let client = name_text(words)?;
    let user = name_text(words)?;
    let privilege = name_text(words)?;
    Ok(BorrowedQuestion::of(client, user, privilege))
}

/// `FILTER FILTER FILTER`.
#[tactic(auto, unfolding(crate::specs::Phrases::filter_at))]
pub fn filter_words(alloc: Global, words: &mut Words) -> Result<Filter, LineRefusal>
    ensures { GivesWord result words.new (filter_at words.old) }
{
    let client = filter_word(alloc, words)?;
    let user = filter_word(alloc, words)?;
    let privilege = filter_word(alloc, words)?;
    Ok(Filter {
        client,
        user,
        privilege,
    })
}
