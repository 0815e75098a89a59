// A check that is read where it stands: its names are lent, and the reply is spelled where it waits.
ghost use Rattle.std.specs.Prelude.{◌≡◌};
ghost use Rattle.bucket_eval.specs.Lent.{outcome_lent};
ghost use Rattle.desk_world.specs.Links.{reading_of};
ghost use Rattle.client_door.specs.InPlace.{replies_of, Rules};
ghost use Rattle.client_door.specs.declared.judging.Ruling.TheVariants.{Left, Memory};

use bucket_eval::BorrowedAnswer;
use cynara_keys::Kind;
use desk_ports::Bytes;
use live_desk::BorrowedVerdict;
use wire_messages::{LentCheck, encode_judged_behind};

/// What the policies say of a check.
#[derive(Drop)]
pub(crate) enum Ruling {
    /// A verdict, whose reply was put behind those that wait: its commit, and whether it is ALLOW.
    Ruled { commit: u64, allowed: bool },
    /// An agent would decide. Nothing was put.
    Left,
    /// Want of memory. Nothing was put.
    Memory,
}

impl Ruling {
    /// How many replies were put.
    pub fn replies(&self) -> u32
        ensures { result ≡ replies_of self.now }
    {
        match self {
            Ruling::Ruled { .. } => 1,
            Ruling::Left | Ruling::Memory => 0,
        }
    }
}

/// What the verdict of the policies is for a check: where it decides, its reply is put behind what the buffer has.
pub(crate) fn judge_check(
    frames: &mut Bytes,
    check: &LentCheck<'_>,
    verdict: &BorrowedVerdict<'_>,
) -> Ruling
    ensures { Rules check.now.sequence
        (reading_of verdict.now.commit check.now.simple (outcome_lent verdict.now.answer)) frames.old frames.new result }
{
    let sequence = check.sequence;
    judge_answer(
        frames,
        sequence,
        check.simple,
        verdict.commit,
        &verdict.answer,
    )
}

// What the answer of the policies of a commit is for a check, be it a simple one or not.
fn judge_answer(
    frames: &mut Bytes,
    sequence: u16,
    _simple: bool,
    commit: u64,
    answer: &BorrowedAnswer<'_>,
) -> Ruling
    ensures { Rules sequence (reading_of commit _simple (outcome_lent answer.now)) frames.old frames.new result }
{
    let kind = answer.result.kind();
    if kind.is_agent() {
        return Ruling::Left;
    }
    match encode_judged_behind(frames, sequence, commit, answer) {
        Ok(()) => Ruling::Ruled {
            commit,
            allowed: kind == Kind::ALLOW,
        },
        Err(_) => Ruling::Memory,
    }
}
