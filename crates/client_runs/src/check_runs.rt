// `check` and `simple`.
ghost use Rattle.std.specs.Prelude.{◌≡◌, true, false, None};
ghost use Rattle.run_endings.specs.Ending.{Unraised};
ghost use Rattle.run_endings.specs.Outside.{sink_seen};
ghost use Rattle.run_endings.specs.Saying.{Said, WritesAnswers};
ghost use Rattle.answer_cache.specs.Cache.{asked_in, empty_cache};
ghost use Rattle.cynara_client.specs.State.{with_dial};
ghost use Rattle.cynara_client.specs.Checking.{Checks};
ghost use Rattle.client_runs.specs.AskedOnce.{first_frame, AsksOnce};
ghost use Rattle.client_runs.specs.CheckRun.{CompletesCheck, EndsCheck, IsCounted, RunsCheck, question_of};
ghost use Rattle.client_runs.specs.AnswerLine.{Says};

use crate::answer_lines::answer_line;
use command_words::AskedNames;
use cynara_client::{Checked, ClientLink, ClientRefusal, ReplyFault};
use cynara_keys::{Name, Question};
use desk_ports::{Failed, Sink, write_all};
use link_ports::Dial;
use run_endings::{Ending, note_text};
use std::alloc::Global;

/// How many answers the client of a run keeps: it asks one question.
const ENTRIES: u32 = 1;

/// Asks the service whether the use of a privilege is granted, where an agent may be asked, and writes the line of its
/// answer. The link is given back. It may wait.
pub fn run_check<N: Dial, K: Sink>(
    alloc: Global,
    asked: &AskedNames,
    dial: &mut N,
    sink: &mut K,
) -> Ending
    ensures run { (said : Said)
        × RunsCheck N.Dial N.Link.Link asked.now false said result dial.old dial.new
        × WritesAnswers result said (sink_seen K.taken K.faults sink.old) (sink_seen K.taken K.faults sink.new) }
    ensures count { IsCounted result (N.faults dial.old) (N.faults dial.new) }
    ensures ends { EndsCheck result }
    ensures completes { Unraised (N.faults dial.old) (N.faults dial.new)
        → Unraised (K.faults sink.old) (K.faults sink.new)
        → (said : Said) × CompletesCheck N.Dial N.Link.Link asked.now false said result dial.old dial.new
        × WritesAnswers result said (sink_seen K.taken K.faults sink.old) (sink_seen K.taken K.faults sink.new) }
{
    run(alloc, asked, false, dial, sink)
}

/// The same, where no agent is asked.
pub fn run_simple<N: Dial, K: Sink>(
    alloc: Global,
    asked: &AskedNames,
    dial: &mut N,
    sink: &mut K,
) -> Ending
    ensures run { (said : Said)
        × RunsCheck N.Dial N.Link.Link asked.now true said result dial.old dial.new
        × WritesAnswers result said (sink_seen K.taken K.faults sink.old) (sink_seen K.taken K.faults sink.new) }
    ensures count { IsCounted result (N.faults dial.old) (N.faults dial.new) }
    ensures ends { EndsCheck result }
    ensures completes { Unraised (N.faults dial.old) (N.faults dial.new)
        → Unraised (K.faults sink.old) (K.faults sink.new)
        → (said : Said) × CompletesCheck N.Dial N.Link.Link asked.now true said result dial.old dial.new
        × WritesAnswers result said (sink_seen K.taken K.faults sink.old) (sink_seen K.taken K.faults sink.new) }
{
    run(alloc, asked, true, dial, sink)
}

fn run<N: Dial, K: Sink>(
    alloc: Global,
    asked: &AskedNames,
    simple: bool,
    dial: &mut N,
    sink: &mut K,
) -> Ending
    ensures run { (said : Said)
        × RunsCheck N.Dial N.Link.Link asked.now simple said result dial.old dial.new
        × WritesAnswers result said (sink_seen K.taken K.faults sink.old) (sink_seen K.taken K.faults sink.new) }
    ensures count { IsCounted result (N.faults dial.old) (N.faults dial.new) }
    ensures ends { EndsCheck result }
    ensures completes { Unraised (N.faults dial.old) (N.faults dial.new)
        → Unraised (K.faults sink.old) (K.faults sink.new)
        → (said : Said) × CompletesCheck N.Dial N.Link.Link asked.now simple said result dial.old dial.new
        × WritesAnswers result said (sink_seen K.taken K.faults sink.old) (sink_seen K.taken K.faults sink.new) }
{
    let answer = answer_to(alloc, asked, simple, dial);
    say(alloc, &answer, sink)
}

// The answer to the question.
fn answer_to<N: Dial>(
    alloc: Global,
    asked: &AskedNames,
    simple: bool,
    dial: &mut N,
) -> Result<Checked, ClientRefusal>
    ensures { AsksOnce N.Link.faults N.Link.marks N.Link.traffic N.faults N.dials N.given_back
        (first_frame simple (question_of asked.now)) result dial.old dial.new }
{
    let client = asked.client.as_slice();
    let user = asked.user.as_slice();
    let privilege = asked.privilege.as_slice();
    match Question::of(alloc, client, user, privilege) {
        Ok(question) => ask_once(alloc, &asked.session, &question, simple, dial),
        Err(error) => Err(ClientRefusal::Memory(error)),
    }
}

/// What a client that is made for this question is answered: the question goes out once at most on each of three links
/// that are dialled, and the link is given back. An agent may be asked, unless `simple` is set. It may wait.
pub fn ask_once<N: Dial>(
    alloc: Global,
    session: &Name,
    question: &Question,
    simple: bool,
    dial: &mut N,
) -> Result<Checked, ClientRefusal>
    ensures { AsksOnce N.Link.faults N.Link.marks N.Link.traffic N.faults N.dials N.given_back
        (first_frame simple question.now) result dial.old dial.new }
{
    match ClientLink::new(alloc, ENTRIES) {
        Ok(client) => ask_by(client, session, question, simple, dial),
        Err(error) => Err(ClientRefusal::Memory(error)),
    }
}

// What a new client is answered, which then gives its link back.
fn ask_by<N: Dial>(
    client: ClientLink<N>,
    session: &Name,
    question: &Question,
    simple: bool,
    dial: &mut N,
) -> Result<Checked, ClientRefusal>
    requires { client ≡ record { link = None; cache = empty_cache 1; sequence = 0 } }
    ensures { AsksOnce N.Link.faults N.Link.marks N.Link.traffic N.faults N.dials N.given_back
        (first_frame simple question.now) result dial.old dial.new }
{
    let mut client = client;
    let answer = check(&mut client, session, question, simple, dial);
    client.leave(dial);
    answer
}

fn check<N: Dial>(
    client: &mut ClientLink<N>,
    session: &Name,
    question: &Question,
    simple: bool,
    dial: &mut N,
) -> Result<Checked, ClientRefusal>
    ensures { Checks N.Link.faults N.Link.marks N.Link.traffic N.Link.content N.faults N.dials N.given_back
        (asked_in session.now question.now) simple result
        (with_dial dial.old client.old) (with_dial dial.new client.new) }
{
    if simple {
        client.simple_check(dial, session, question)
    } else {
        client.check(dial, session, question)
    }
}

// Writes the line of an answer. Where there is none a person is told why.
fn say<K: Sink>(alloc: Global, answer: &Result<Checked, ClientRefusal>, sink: &mut K) -> Ending
    ensures { (said : Said) × Says answer.now said result
        × WritesAnswers result said (sink_seen K.taken K.faults sink.old) (sink_seen K.taken K.faults sink.new) }
{
    note_answer(alloc, answer, sink);
    match answer_line(alloc, answer) {
        Ok(line) => match write_all(sink, line.as_slice()) {
            Ok(()) => Ending::Done,
            Err(Failed) => Ending::Sink,
        },
        Err(ending) => ending,
    }
}

// Tells why there is no answer.
fn note_answer<K: Sink>(alloc: Global, answer: &Result<Checked, ClientRefusal>, sink: &mut K)
    ensures taken { K.taken sink.new ≡ K.taken sink.old }
    ensures count { K.faults sink.new ≡ K.faults sink.old }
{
    match answer {
        Ok(_) => {}
        Err(refusal) => note_refusal(alloc, refusal, sink),
    }
}

// Tells of a reply that is wrong, and that the service cannot be reached. What the service refuses is an answer.
fn note_refusal<K: Sink>(alloc: Global, refusal: &ClientRefusal, sink: &mut K)
    ensures taken { K.taken sink.new ≡ K.taken sink.old }
    ensures count { K.faults sink.new ≡ K.faults sink.old }
{
    match refusal {
        ClientRefusal::BadReply(fault) => note_fault(alloc, fault, sink),
        ClientRefusal::Unavailable => sink.note("privilege: the service cannot be reached"),
        _ => {}
    }
}

fn note_fault<K: Sink>(alloc: Global, fault: &ReplyFault, sink: &mut K)
    ensures taken { K.taken sink.new ≡ K.taken sink.old }
    ensures count { K.faults sink.new ≡ K.faults sink.old }
{
    note_text(format!(in alloc; "privilege: {fault}"), sink);
}
