// A question is asked: from what is kept, or of the service.
ghost use Rattle.std.specs.Prelude.{◌≡◌, None, Some, Ok, IfOk};
ghost use Rattle.std.specs.Option.{ForSome};
ghost use Rattle.answer_cache.specs.Cache.{asked_in, answer_in, newest};
ghost use Rattle.bucket_eval.specs.declared.answers.Verdict as verdict_type;
ghost use Rattle.client_core.specs.Client.{forgotten};
ghost use Rattle.cynara_client.specs.parts.States.{IsAlone, IsAtRest, IsLinked, seen};
ghost use Rattle.cynara_client.specs.Checking.{Checks, Serves};
ghost use Rattle.cynara_client.specs.parts.Looking.{LooksAt};
ghost use Rattle.cynara_client.specs.parts.Putting.{Puts, PutsAndLooks};
ghost use Rattle.cynara_client.specs.declared.refusals.Checked.TheVariants as checked;

use crate::replies::refusal_by;
use crate::trying::{Ended, go};
use crate::{Checked, ClientRefusal};
use client_core::{ClientMachine, Fault, Step};
use cynara_keys::{Name, Question};
use link_ports::{Dial, Link};
use std::alloc::AllocError;

/// Asks a question in a session, over this link, if one is there. It may wait.
pub(crate) fn ask<N: Dial>(
    machine: &mut ClientMachine,
    dial: &mut N,
    link: Option<N::Link>,
    session: &Name,
    question: &Question,
    simple: bool,
) -> Ended<N::Link>
    requires rests { IsAtRest link machine.old }
    requires unshared { ForSome link (λ link. (N.Link.marks link).ends ≡ 0) }
    ensures asked { Checks N.Link.faults N.Link.marks N.Link.traffic N.Link.content N.faults N.dials N.given_back
        (asked_in session.now question.now) simple result.answer
        (seen dial.old link machine.old) (seen dial.new result.link machine.new) }
    ensures rests { IsAtRest result.link machine.new }
    ensures unshared { ForSome result.link (λ link. (N.Link.marks link).ends ≡ 0) }
{
    let Some(link) = link else {
        return ask_anew(machine, dial, session, question, simple);
    };
    let Some(link) = look(dial, link) else {
        return ask_past(machine, dial, session, question, simple);
    };
    if machine.reuse(session, question) {
        return Ended {
            link: Some(link),
            answer: kept_answer(machine),
        };
    }
    ask_over(machine, dial, link, session, question, simple)
}

// Asks a link whether it is up. One that is down is given back.
fn look<N: Dial>(dial: &mut N, link: N::Link) -> Option<N::Link>
    requires { (N.Link.marks link).ends ≡ 0 }
    ensures looked { LooksAt N.Link.faults N.Link.marks N.Link.traffic N.Link.content N.faults N.dials N.given_back
        link result dial.old dial.new }
    ensures unshared { ForSome result (λ link. (N.Link.marks link).ends ≡ 0) }
{
    let mut link = link;
    if link.is_up() {
        return Some(link);
    }
    dial.give_back(link);
    None
}

// The verdict that was used last.
fn kept_answer(machine: &ClientMachine) -> Result<Checked, ClientRefusal>
    ensures { (verdict : verdict_type.Verdict) → newest machine.now.cache ≡ Some verdict
        → result ≡ Ok (checked.Judged verdict) }
{
    match machine.newest() {
        Some(verdict) => Ok(Checked::Judged(verdict.verdict())),
        None => Err(ClientRefusal::Unavailable),
    }
}

// Gives the machine the question. Where no memory is found for it, the machine gives the connection up.
fn put(machine: &mut ClientMachine, session: &Name, question: &Question, simple: bool) -> Step
    ensures { Puts session.now question.now simple result machine.old machine.new }
{
    match copied(session, question) {
        Ok((session, question)) => machine.ask(session, question, simple),
        Err(error) => {
            machine.leave();
            Step::Over(Fault::Memory(error))
        }
    }
}

fn copied(session: &Name, question: &Question) -> Result<(Name, Question), AllocError>
    ensures session { IfOk result (λ both. both.0 ≡ session.now) }
    ensures question { IfOk result (λ both. both.1 ≡ question.now) }
{
    Ok((session.copy()?, question.copy()?))
}

// The same where a link is there, and the machine is told whether it is up.
fn put_and_look(
    machine: &mut ClientMachine,
    session: &Name,
    question: &Question,
    simple: bool,
    is_up: bool,
) -> Step
    requires { IsLinked machine.old }
    ensures { PutsAndLooks session.now question.now simple is_up result machine.old machine.new }
{
    match put(machine, session, question, simple) {
        Step::Look => machine.looked(is_up),
        Step::Over(fault) => Step::Over(fault),
        _ => unreachable!(),
    }
}

// No link is there.
fn ask_anew<N: Dial>(
    machine: &mut ClientMachine,
    dial: &mut N,
    session: &Name,
    question: &Question,
    simple: bool,
) -> Ended<N::Link>
    requires { IsAlone machine.old }
    ensures asked { Serves N.Link.faults N.Link.marks N.Link.traffic N.faults N.dials N.given_back
        (asked_in session.now question.now) simple 3 result.answer
        (seen dial.old None machine.old) (seen dial.new result.link machine.new) }
    ensures rests { IsAtRest result.link machine.new }
    ensures unshared { ForSome result.link (λ link. (N.Link.marks link).ends ≡ 0) }
{
    match put(machine, session, question, simple) {
        Step::Dial => go(machine, dial, None),
        Step::Over(fault) => Ended {
            link: None,
            answer: Err(refusal_by(fault)),
        },
        _ => unreachable!(),
    }
}

// The link that was there was found down, and was given back.
fn ask_past<N: Dial>(
    machine: &mut ClientMachine,
    dial: &mut N,
    session: &Name,
    question: &Question,
    simple: bool,
) -> Ended<N::Link>
    requires { IsLinked machine.old }
    ensures asked { Serves N.Link.faults N.Link.marks N.Link.traffic N.faults N.dials N.given_back
        (asked_in session.now question.now) simple 2 result.answer
        (seen dial.old None (forgotten machine.old)) (seen dial.new result.link machine.new) }
    ensures rests { IsAtRest result.link machine.new }
    ensures unshared { ForSome result.link (λ link. (N.Link.marks link).ends ≡ 0) }
{
    match put_and_look(machine, session, question, simple, false) {
        Step::Dial => go(machine, dial, None),
        Step::Over(fault) => Ended {
            link: None,
            answer: Err(refusal_by(fault)),
        },
        _ => unreachable!(),
    }
}

// The link is up, and nothing that is kept is the answer.
fn ask_over<N: Dial>(
    machine: &mut ClientMachine,
    dial: &mut N,
    link: N::Link,
    session: &Name,
    question: &Question,
    simple: bool,
) -> Ended<N::Link>
    requires linked { IsLinked machine.old }
    requires missed { answer_in (asked_in session.now question.now) machine.old.cache ≡ None }
    requires unshared { (N.Link.marks link).ends ≡ 0 }
    ensures asked { Serves N.Link.faults N.Link.marks N.Link.traffic N.faults N.dials N.given_back
        (asked_in session.now question.now) simple 3 result.answer
        (seen dial.old (Some link) machine.old) (seen dial.new result.link machine.new) }
    ensures rests { IsAtRest result.link machine.new }
    ensures unshared { ForSome result.link (λ link. (N.Link.marks link).ends ≡ 0) }
{
    match put_and_look(machine, session, question, simple, true) {
        Step::Send => go(machine, dial, Some(link)),
        Step::Over(fault) => {
            dial.give_back(link);
            Ended {
                link: None,
                answer: Err(refusal_by(fault)),
            }
        }
        _ => unreachable!(),
    }
}
