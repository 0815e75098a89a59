// Asking, and what is told of the answer.
ghost use Rattle.std.specs.Prelude.{◌≡◌, false, Result};
ghost use Rattle.client_runs.specs.AskedOnce.{first_frame, AsksOnce};
ghost use Rattle.cynara_client.specs.declared.refusals.Checked as checked;
ghost use Rattle.cynara_client.specs.declared.refusals.ClientRefusal as refused;
ghost use Rattle.ctl_may.specs.Status as word;

use crate::lines::line_of;
use crate::objects::object_of;
use crate::statuses::{NOT_ASKED, status_of};
use crate::whys::note_why;
use client_runs::ask_once;
use cynara_client::{Checked, ClientRefusal};
use cynara_keys::{Name, Question};
use desk_ports::{Bytes, Failed, Sink, write_all};
use link_ports::Dial;
use std::alloc::{AllocError, Global};

/// The name of the session. Nothing is kept of a session that asks once.
const SESSION: &[u8] = b"privctl";

/// How an answer is told.
#[derive(Clone, Copy, Debug, PartialEq, Eq)]
pub enum Telling {
    /// By a line, where there is an answer, and else by a note.
    Line,
    /// By a line of JSON.
    Json,
    /// By the status alone.
    Quiet,
}

/// Asks the service whether the use of a privilege is granted, tells the answer, and gives its status: 0 allowed, 1
/// denied, 2 nobody decided, 3 not asked, which is also that of an answer that could not be told. It may wait.
pub fn may<N: Dial, K: Sink>(
    alloc: Global,
    question: &Question,
    telling: Telling,
    dial: &mut N,
    sink: &mut K,
) -> u8
    ensures status { (answer : Result checked.Checked refused.ClientRefusal)
        × AsksOnce N.Link.faults N.Link.marks N.Link.traffic N.faults N.dials N.given_back
        (first_frame false question.now) answer dial.old dial.new
        × word.Ends telling (word.status_of answer) result }
    ensures allowed { result ≡ 0 → (answer : Result checked.Checked refused.ClientRefusal)
        × AsksOnce N.Link.faults N.Link.marks N.Link.traffic N.faults N.dials N.given_back
        (first_frame false question.now) answer dial.old dial.new
        × word.Allows answer }
{
    let answer = answer_to(alloc, question, dial);
    tell(alloc, question, &answer, telling, sink)
}

// What the service answers.
fn answer_to<N: Dial>(
    alloc: Global,
    question: &Question,
    dial: &mut N,
) -> Result<Checked, ClientRefusal>
    ensures { AsksOnce N.Link.faults N.Link.marks N.Link.traffic N.faults N.dials N.given_back
        (first_frame false question.now) result dial.old dial.new }
{
    match Name::read(alloc, SESSION) {
        Ok(session) => ask_once(alloc, &session, question, false, dial),
        Err(_) => Err(ClientRefusal::Memory(AllocError)),
    }
}

// Tells the answer, and gives its status.
fn tell<K: Sink>(
    alloc: Global,
    question: &Question,
    answer: &Result<Checked, ClientRefusal>,
    telling: Telling,
    sink: &mut K,
) -> u8
    ensures { word.Ends telling (word.status_of answer.now) result }
{
    let status = status_of(answer);
    match telling {
        Telling::Quiet => status,
        Telling::Line => {
            note_why(alloc, answer, sink);
            written(line_of(alloc, answer), status, sink)
        }
        Telling::Json => written(object_of(alloc, question, answer, status), status, sink),
    }
}

// Writes the text, and gives the status; where that fails, 3.
fn written<K: Sink>(text: Result<Bytes, AllocError>, status: u8, sink: &mut K) -> u8
    ensures { word.Ends Telling.Line status result }
{
    match text {
        Ok(text) => match write_all(sink, text.as_slice()) {
            Ok(()) => status,
            Err(Failed) => NOT_ASKED,
        },
        Err(_) => {
            sink.note("privctl: out of memory");
            NOT_ASKED
        }
    }
}
