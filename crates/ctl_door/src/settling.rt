// A state, and what the service answers at the same commit.
ghost use Rattle.std.specs.Prelude.{IfOk};
ghost use Rattle.ctl_door.specs.Settling.{IsToldOfOne};

use crate::asking::verdict_of;
use crate::refusals::DoorRefusal;
use crate::states::state_of_service;
use bucket_eval::{Index, Scratch, Verdict};
use cynara_keys::Question;
use desk_state::Desk;
use link_ports::Dial;
use std::alloc::{AllocError, Global};

/// How often a device may change between two readings of it.
const MOST_TURNS: u32 = 8;

/// A state of the service, and what the service answers to a question.
#[derive(Drop)]
pub struct Settled {
    pub desk: Desk,
    pub verdict: Verdict,
    /// Whether the state and the answer are of one commit.
    pub is_of_one: bool,
    /// Whether the state has the same answer, by the same policy.
    pub agrees: bool,
}

/// The state of the service, and what the service answers to the question. Where the device changed between both they
/// are asked again, up to eight times. It may wait.
pub fn settled_state<N: Dial>(
    alloc: Global,
    question: &Question,
    dial: &mut N,
) -> Result<Settled, DoorRefusal>
    ensures { IfOk result IsToldOfOne }
{
    let mut settled = asked_once(alloc, question, dial)?;
    'turns: for _ in 1..MOST_TURNS {
        if settled.is_of_one {
            break;
        }
        settled = asked_once(alloc, question, dial)?;
    }
    Ok(settled)
}

fn asked_once<N: Dial>(
    alloc: Global,
    question: &Question,
    dial: &mut N,
) -> Result<Settled, DoorRefusal>
    ensures { IfOk result IsToldOfOne }
{
    let desk = state_of_service(alloc, dial)?;
    let verdict = verdict_of(alloc, question, dial)?;
    match is_answer_of(alloc, &desk, question, &verdict) {
        Ok(agrees) => {
            let is_of_one = desk.commit() == verdict.commit;
            Ok(Settled {
                desk,
                verdict,
                is_of_one,
                agrees,
            })
        }
        Err(error) => Err(DoorRefusal::Memory(error)),
    }
}

// Whether the state answers the question as the verdict does.
fn is_answer_of(
    alloc: Global,
    desk: &Desk,
    question: &Question,
    verdict: &Verdict,
) -> Result<bool, AllocError> {
    let index = Index::build(alloc, desk.database())?;
    let mut scratch = Scratch::new(alloc)?;
    let answer = index.verdict(&mut scratch, question);
    Ok(answer == verdict.answer)
}
