// A question goes out on a link, or on one that is dialled, until it has an answer or the machine gives it up.
ghost use Rattle.std.specs.Prelude.{◌≡◌, ◌<◌, ◌≤◌, nat_le, Bool, Some, None};
ghost use Rattle.std.specs.Option.{ForSome};
ghost use Rattle.client_core.specs.declared.stages.Asking.{Asking};
ghost use Rattle.cynara_client.specs.parts.States.{IsDue, IsDueAnew, IsAtRest, seen};
ghost use Rattle.client_core.specs.declared.stages.Stage.TheVariants as stage_is;
ghost use Rattle.cynara_client.specs.parts.Trying.{gives_up, TalksOver, TalksAnew, TriesOnce, Goes};

use crate::replies::{answer_by, refusal_by};
use crate::talking::talk;
use crate::{Checked, ClientRefusal};
use client_core::{ClientMachine, Fault, Step};
use desk_ports::PortFault;
use link_ports::{Dial, DoorKind};
use wire_messages::Message;

/// What became of one try.
#[derive(Drop)]
pub(crate) enum Tried<L: Drop> {
    /// The service said this, over this link.
    Replied { link: L, message: Message },
    /// It was lost, and another is to be made.
    Again,
    /// There is no answer, and no link is left.
    Over(Fault),
}

/// The answer to a question, and the link that is left, if one is.
#[derive(Drop)]
pub(crate) struct Ended<L: Drop> {
    pub link: Option<L>,
    pub answer: Result<Checked, ClientRefusal>,
}

/// Does what the machine says until the question is answered: over this link, or by a dial. At most three tries are
/// left. It may wait.
pub(crate) fn go<N: Dial>(
    machine: &mut ClientMachine,
    dial: &mut N,
    link: Option<N::Link>,
) -> Ended<N::Link>
    requires due { (asking : Asking) × IsDue link asking machine.old × (0 < asking.tries) × (asking.tries ≤ 3) }
    requires unshared { ForSome link (λ link. (N.Link.marks link).ends ≡ 0) }
    ensures went { (asking : Asking) → IsDue link asking machine.old → 0 < asking.tries → asking.tries ≤ 3
        → Goes N.Link.faults N.Link.marks N.Link.traffic N.faults N.dials N.given_back asking link result.answer
        dial.old (seen dial.new result.link machine.new) machine.old }
    ensures rests { IsAtRest result.link machine.new }
    ensures unshared { ForSome result.link (λ link. (N.Link.marks link).ends ≡ 0) }
{
    match try_once(machine, dial, link) {
        Tried::Replied { link, message } => Ended {
            link: Some(link),
            answer: answer_by(message),
        },
        Tried::Again => go_on(machine, dial),
        Tried::Over(fault) => Ended {
            link: None,
            answer: Err(refusal_by(fault)),
        },
    }
}

// The same where at most two are left.
fn go_on<N: Dial>(machine: &mut ClientMachine, dial: &mut N) -> Ended<N::Link>
    requires due { (asking : Asking) × IsDueAnew asking machine.old × (0 < asking.tries) × (asking.tries ≤ 2) }
    ensures went { (asking : Asking) → IsDueAnew asking machine.old → 0 < asking.tries → asking.tries ≤ 2
        → Goes N.Link.faults N.Link.marks N.Link.traffic N.faults N.dials N.given_back asking None result.answer
        dial.old (seen dial.new result.link machine.new) machine.old }
    ensures rests { IsAtRest result.link machine.new }
    ensures unshared { ForSome result.link (λ link. (N.Link.marks link).ends ≡ 0) }
{
    match try_once(machine, dial, None) {
        Tried::Replied { link, message } => Ended {
            link: Some(link),
            answer: answer_by(message),
        },
        Tried::Again => go_last(machine, dial),
        Tried::Over(fault) => Ended {
            link: None,
            answer: Err(refusal_by(fault)),
        },
    }
}

// The same where one is left.
fn go_last<N: Dial>(machine: &mut ClientMachine, dial: &mut N) -> Ended<N::Link>
    requires due { (asking : Asking) × IsDueAnew asking machine.old × (0 < asking.tries) × (asking.tries ≤ 1) }
    ensures went { (asking : Asking) → IsDueAnew asking machine.old → 0 < asking.tries → asking.tries ≤ 1
        → Goes N.Link.faults N.Link.marks N.Link.traffic N.faults N.dials N.given_back asking None result.answer
        dial.old (seen dial.new result.link machine.new) machine.old }
    ensures rests { IsAtRest result.link machine.new }
    ensures unshared { ForSome result.link (λ link. (N.Link.marks link).ends ≡ 0) }
{
    match try_once(machine, dial, None) {
        Tried::Replied { link, message } => Ended {
            link: Some(link),
            answer: answer_by(message),
        },
        Tried::Again => unreachable!(),
        Tried::Over(fault) => Ended {
            link: None,
            answer: Err(refusal_by(fault)),
        },
    }
}

// One try.
fn try_once<N: Dial>(
    machine: &mut ClientMachine,
    dial: &mut N,
    link: Option<N::Link>,
) -> Tried<N::Link>
    requires due { (asking : Asking) × IsDue link asking machine.old }
    requires unshared { ForSome link (λ link. (N.Link.marks link).ends ≡ 0) }
    ensures { (asking : Asking) → IsDue link asking machine.old
        → TriesOnce N.Link.faults N.Link.marks N.Link.traffic N.faults N.dials N.given_back asking link result
        machine.old machine.new dial.old dial.new }
{
    match link {
        Some(link) => talk_over(machine, dial, link),
        None => match dial.dial(DoorKind::Client) {
            Ok(link) => talk_anew(machine, dial, link),
            Err(PortFault::Failed) => lose(machine),
            Err(PortFault::Memory(error)) => {
                machine.leave();
                Tried::Over(Fault::Memory(error))
            }
        },
    }
}

// One try, over a link that was dialled.
fn talk_anew<N: Dial>(machine: &mut ClientMachine, dial: &mut N, link: N::Link) -> Tried<N::Link>
    requires dialling { (asking : Asking) × (machine.old.stage ≡ stage_is.Dialling asking) }
    requires unshared { (N.Link.marks link).ends ≡ 0 }
    ensures { (asking : Asking) → machine.old.stage ≡ stage_is.Dialling asking
        → TalksAnew N.Link.faults N.Link.marks N.Link.traffic N.faults N.dials N.given_back asking link result
        machine.old machine.new dial.old dial.new }
{
    match machine.dialled() {
        Step::Send => talk_over(machine, dial, link),
        _ => unreachable!(),
    }
}

// A dial failed.
fn lose<L: Drop>(machine: &mut ClientMachine) -> Tried<L>
    requires { (asking : Asking) × (machine.old.stage ≡ stage_is.Dialling asking) }
    ensures { (asking : Asking) → machine.old.stage ≡ stage_is.Dialling asking
        → gives_up (nat_le asking.tries 1) asking.is_tried asking result machine.old machine.new }
{
    match machine.down() {
        Step::Dial => Tried::Again,
        Step::Over(fault) => Tried::Over(fault),
        _ => unreachable!(),
    }
}

// One try, over a link that is there or was dialled. It is given back unless the service answers.
fn talk_over<N: Dial>(machine: &mut ClientMachine, dial: &mut N, link: N::Link) -> Tried<N::Link>
    requires due { (asking : Asking) × IsDue (Some link) asking machine.old }
    requires unshared { (N.Link.marks link).ends ≡ 0 }
    ensures { (asking : Asking) (is_new : Bool) → IsDue (Some link) asking machine.old
        → TalksOver N.Link.faults N.Link.marks N.Link.traffic N.faults N.dials N.given_back is_new asking link result
        machine.old machine.new dial.old dial.new }
{
    let mut link = link;
    match talk(machine, &mut link) {
        Step::Reply(message) => Tried::Replied { link, message },
        Step::Dial => {
            dial.give_back(link);
            Tried::Again
        }
        Step::Over(fault) => {
            dial.give_back(link);
            Tried::Over(fault)
        }
        _ => unreachable!(),
    }
}
