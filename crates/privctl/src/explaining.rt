// `explain`.
ghost use Rattle.std.specs.Prelude.{◌≡◌, true};

use crate::devices::state_at;
use crate::questions::question_of;
use crate::services::{net_within, tell_refusal};
use crate::telling::{DONE, NOT_DONE, written};
use ctl_door::{Settled, settled_state};
use ctl_text::{put, put_number};
use ctl_views::explain;
use ctl_words::{Asked, At};
use cynara_keys::Question;
use desk_ports::{Bytes, Sink};
use std::alloc::{AllocError, Global};

/// Tells why the question is answered as it is.
pub(crate) fn explain_question<K: Sink>(
    rt: &HostRuntime,
    alloc: Global,
    asked: Asked<'_>,
    at: At<'_>,
    sink: &mut K,
) -> u8 {
    let question = match question_of(alloc, asked, sink) {
        Ok(question) => question,
        Err(status) => return status,
    };
    match at {
        At::Service { seconds } => explain_service(rt, alloc, &question, seconds, sink),
        At::Copy { .. } => match state_at(rt, alloc, at, sink) {
            Some(desk) => written(explain(alloc, &desk, &question), DONE, sink),
            None => NOT_DONE,
        },
    }
}

// The same of a service, which is asked whether it answers so.
fn explain_service<K: Sink>(
    rt: &HostRuntime,
    alloc: Global,
    question: &Question,
    seconds: u32,
    sink: &mut K,
) -> u8 {
    let Some(mut net) = net_within(rt, seconds) else {
        return NOT_DONE;
    };
    match settled_state(alloc, question, &mut net) {
        Ok(settled) => {
            let text = text_of(alloc, question, &settled);
            written(text, status_of(&settled), sink)
        }
        Err(refusal) => {
            tell_refusal(alloc, &refusal, &net, sink);
            NOT_DONE
        }
    }
}

// 0 only where the service answers as the explanation says.
fn status_of(settled: &Settled) -> u8
    ensures { result ≡ 0 → (settled.now.is_of_one ≡ true) × (settled.now.agrees ≡ true) }
{
    if settled.is_of_one && settled.agrees {
        return DONE;
    }
    NOT_DONE
}

fn text_of(alloc: Global, question: &Question, settled: &Settled) -> Result<Bytes, AllocError> {
    let mut text = explain(alloc, &settled.desk, question)?;
    if !settled.is_of_one {
        put(
            &mut text,
            "The device changed meanwhile, again and again: the service answered at commit ",
        )?;
        put_number(&mut text, settled.verdict.commit)?;
        put(&mut text, ". Ask once more.\n")?;
        return Ok(text);
    }
    if settled.agrees {
        put(
            &mut text,
            "The service was asked too, and answers so at this commit.\n",
        )?;
        return Ok(text);
    }
    put(
        &mut text,
        "The service answers otherwise, which is a mistake of privctl or of the service.\n",
    )?;
    Ok(text)
}
