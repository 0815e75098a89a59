//! Results, as scripts write them.

ghost use Rattle.cynara_keys.specs.PolicyResult.{is_agent};
ghost use Rattle.std.specs.Prelude.{◌≡◌, ◌==◌, MatchOption, position};
ghost use Rattle.script_words.specs.Words.{word};
ghost use Rattle.script_words.specs.Numbers.{number_that};
ghost use Rattle.script_words.specs.WordForms.{bucket_result_at, agent_result_at, result_at, ruling_at};
ghost use Rattle.script_words.specs.Reading.{Gives, GivesWord};

use crate::line_words::Words;
use crate::numbers::read_number;
use crate::refusals::LineRefusal;
use cynara_keys::{Kind, Metadata, MetadataRefusal, PolicyResult};
use std::alloc::Global;

/// Takes the next word, which is a result.
pub fn result_word(alloc: Global, words: &mut Words) -> Result<PolicyResult, LineRefusal>
    ensures { GivesWord result words.new (word result_at words.old) }
{
    let Some(text) = words.next() else {
        return Err(LineRefusal::Syntax);
    };
    read_result(alloc, text)
}

/// Reads `deny`, `none`, `allow`, `bucket:BUCKET` or `agent:KIND:METADATA`.
#[tactic(auto, unfolding(crate::specs::WordForms::result_at))]
fn read_result(alloc: Global, text: &[u8]) -> Result<PolicyResult, LineRefusal>
    ensures { Gives result (result_at text.now) }
{
    if text == b"deny".as_slice() {
        return Ok(PolicyResult::without_metadata(alloc, Kind::DENY));
    }
    if text == b"none".as_slice() {
        return Ok(PolicyResult::without_metadata(alloc, Kind::NONE));
    }
    if text == b"allow".as_slice() {
        return Ok(PolicyResult::without_metadata(alloc, Kind::ALLOW));
    }
    if let Some(name) = text.strip_prefix(b"bucket:") {
        return read_bucket_result(alloc, name);
    }
    if let Some(agent) = text.strip_prefix(b"agent:") {
        return read_agent_result(alloc, agent);
    }
    Err(LineRefusal::Syntax)
}

/// Reads `BUCKET`, which stands behind `bucket:`.
#[tactic(auto, unfolding(crate::specs::WordForms::bucket_result_at))]
fn read_bucket_result(alloc: Global, text: &[u8]) -> Result<PolicyResult, LineRefusal>
    ensures { Gives result (bucket_result_at text.now) }
{
    if text == b".".as_slice() {
        return Ok(PolicyResult::without_metadata(alloc, Kind::BUCKET));
    }
    if text.is_empty() {
        return Err(LineRefusal::Syntax);
    }
    result_of(alloc, Kind::BUCKET, text)
}

/// Reads `KIND:METADATA`, which stands behind `agent:`.
#[tactic(auto, unfolding(crate::specs::WordForms::agent_result_at))]
fn read_agent_result(alloc: Global, text: &[u8]) -> Result<PolicyResult, LineRefusal>
    ensures { Gives result (agent_result_at text.now) }
{
    let Some(colon) = first_colon(text) else {
        return Err(LineRefusal::Syntax);
    };
    let Some(kind) = read_agent_kind(&text[..colon]) else {
        return Err(LineRefusal::Syntax);
    };
    result_of(alloc, kind, &text[colon + 1..])
}

/// Makes a result, where the kind may have the metadata.
fn result_of(alloc: Global, kind: Kind, metadata: &[u8]) -> Result<PolicyResult, LineRefusal>
    ensures { Gives result (ruling_at kind.0 metadata.now) }
{
    match Metadata::read(alloc, metadata) {
        Ok(metadata) => match PolicyResult::of(kind, metadata) {
            Ok(made) => Ok(made),
            Err(_) => Err(LineRefusal::Syntax),
        },
        Err(MetadataRefusal::Memory(error)) => Err(LineRefusal::Memory(error)),
        Err(_) => Err(LineRefusal::Syntax),
    }
}

/// Reads the number of an agent.
fn read_agent_kind(text: &[u8]) -> Option<Kind>
    ensures { MatchOption result (number_that is_agent text.now ≡ None)
        (λ kind. number_that is_agent text.now ≡ Some kind.0) }
{
    let number = read_number(text)?;
    let kind = Kind(u16::try_from(number).ok()?);
    if kind.is_agent() { Some(kind) } else { None }
}

fn first_colon(text: &[u8]) -> Option<usize>
    ensures { result ≡ position (λ byte. byte == 58) text.now }
{
    text.iter().position(|byte| *byte == b':')
}
