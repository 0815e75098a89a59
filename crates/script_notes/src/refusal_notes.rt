// What a person is told of a refused line.
ghost use Rattle.std.specs.Prelude.{◌≡◌};

use crate::near_names::{near_app, near_bucket};
use crate::refusal_words::{app_words, bucket_words, level_words, refusal_words, share_words};
use cynara_keys::BucketName;
use desk_ports::Sink;
use desk_state::{Desk, Refusal};
use policy_levels::LevelRefusal;
use private_sharing::ShareRefusal;
use run_endings::note_text;
use std::alloc::{AllocError, Global};

/// A rule that a line of a script broke.
#[derive(Drop)]
pub enum BrokenRule {
    OfCommand(Refusal),
    OfLevel(LevelRefusal),
    OfShare(ShareRefusal),
}

/// Tells which rule the command of the line with this number broke, where no more is known of the policy state.
pub fn note_refusal<K: Sink>(alloc: Global, number: u32, refusal: &Refusal, sink: &mut K)
    ensures taken { K.taken sink.new ≡ K.taken sink.old }
    ensures count { K.faults sink.new ≡ K.faults sink.old }
{
    note_words(alloc, number, refusal_words(alloc, refusal), sink);
}

/// Tells which rule the line with this number broke at the policy state.
pub fn note_broken_rule<K: Sink>(
    alloc: Global,
    number: u32,
    broken: &BrokenRule,
    desk: &Desk,
    sink: &mut K,
)
    ensures taken { K.taken sink.new ≡ K.taken sink.old }
    ensures count { K.faults sink.new ≡ K.faults sink.old }
{
    note_words(alloc, number, broken_words(alloc, broken, desk), sink);
}

/// Tells why the line with this number was refused.
pub fn note_words<K: Sink>(
    alloc: Global,
    number: u32,
    words: Result<String, AllocError>,
    sink: &mut K,
)
    ensures taken { K.taken sink.new ≡ K.taken sink.old }
    ensures count { K.faults sink.new ≡ K.faults sink.old }
{
    if let Ok(words) = words {
        note_text(
            format!(in alloc; "privilege: line {number}: refused: {words}"),
            sink,
        );
    }
}

fn broken_words(alloc: Global, broken: &BrokenRule, desk: &Desk) -> Result<String, AllocError> {
    match broken {
        BrokenRule::OfCommand(Refusal::NoBucket(bucket)) => {
            absent_bucket_words(alloc, bucket, desk)
        }
        BrokenRule::OfCommand(refusal) => refusal_words(alloc, refusal),
        BrokenRule::OfLevel(refusal) => level_words(alloc, *refusal),
        BrokenRule::OfShare(ShareRefusal::UnknownApp(app)) => {
            let near = near_app(alloc, desk, app.as_slice())?;
            with_guess(alloc, app_words(alloc, app)?, near)
        }
        BrokenRule::OfShare(refusal) => share_words(alloc, refusal),
    }
}

/// That a bucket is not there, with one that may be meant.
pub fn absent_bucket_words(
    alloc: Global,
    bucket: &BucketName,
    desk: &Desk,
) -> Result<String, AllocError> {
    let near = near_bucket(alloc, desk, bucket.as_slice())?;
    with_guess(alloc, bucket_words(alloc, bucket)?, near)
}

/// The words, with what may be meant behind them.
pub fn with_guess(
    alloc: Global,
    words: String,
    near: Option<String>,
) -> Result<String, AllocError> {
    match near {
        Some(near) => format!(in alloc; "{words}; did you mean {near}?"),
        None => Ok(words),
    }
}
