// What waits to be recorded.
ghost use Rattle.std.specs.Prelude.{◌≡◌, ◌++◌, ◌∷◌, [], length, OnOk, OnErr};
ghost use Rattle.check_monitor.specs.Monitor.{Records};
ghost use Rattle.desk_server.specs.Monitoring.{entry_for, RecordsEach};

use bucket_eval::Cause;
use check_monitor::{Decided, Moment, Recorded, Recorder};
use client_door::{Decision, Judgement, Records};
use cynara_keys::{BorrowedQuestion, Question};
use std::alloc::{AllocError, Global};
use std::sync::Wait;
use std::time::Clock;

/// The decided checks of a connection whose replies are not sent yet, in front of a recorder.
#[derive(Drop)]
pub(crate) struct NotedChecks<'a, R: Wait + Clock + Drop> {
    rt: R,
    recorder: &'a mut Recorder,
    noted: Vec<Judgement>,
}

impl<'a, R: Wait + Clock + Drop> NotedChecks<'a, R> {
    /// Nothing waits. Takes no memory.
    pub fn new(rt: R, alloc: Global, recorder: &'a mut Recorder) -> NotedChecks<'a, R>
        ensures noted { result.noted.items ≡ [] }
        ensures recorder { result.recorder.now ≡ recorder.old }
        ensures same { result.recorder.ghost_name ≡ recorder.entry.ghost_name }
    {
        NotedChecks {
            rt,
            recorder,
            noted: Vec::new(alloc),
        }
    }

    /// Gives the recorder back. What still waits is recorded nowhere: its replies were not sent.
    pub fn into_recorder(self) -> &'a mut Recorder
        ensures recorder { result.now ≡ self.entry.recorder.now }
        ensures same { result.ghost_name ≡ self.entry.recorder.ghost_name }
    {
        self.recorder
    }
}

impl<'a, R: Wait + Clock + Drop> Records for NotedChecks<'a, R> {
    type Kept = Cause;

    ghost use Rattle.std.specs.Prelude.{◌≡◌};
    ghost use Rattle.desk_server.specs.Monitoring.{HasRecorded};

    ghost fits = { λ checks start told. (checks.recorder.ghost_name ≡ start.recorder.ghost_name)
        × HasRecorded start.recorder.now checks.noted.items checks.recorder.now told };

    fn note(
        &mut self,
        question: &BorrowedQuestion<'_>,
        decision: Decision,
        kept: &Cause,
    ) -> Result<(), AllocError> {
        match push(&mut self.noted, question, decision, kept) {
            Ok(()) => Ok(()),
            Err(error) => Err(error),
        }
    }

    fn record_noted(&mut self) {
        record_each(&self.rt, self.recorder, &self.noted);
        self.noted.clear();
    }
}

// Keeps a check until its reply was sent. Its names are copied.
fn push(
    noted: &mut Vec<Judgement>,
    question: &BorrowedQuestion<'_>,
    decision: Decision,
    cause: &Cause,
) -> Result<(), AllocError>
    ensures pushed { OnOk result (noted.new.items ≡ noted.old.items
        ++ record { question = question.now; decision = decision; cause = cause.now } ∷ []) }
    ensures kept { OnErr result (noted.new.items ≡ noted.old.items) }
{
    let alloc = *noted.allocator();
    let question = Question::of(
        alloc,
        question.client(),
        question.user(),
        question.privilege(),
    )?;
    noted.push(Judgement {
        question,
        decision,
        cause: *cause,
    })?;
    Ok(())
}

// Records each check, in order, at the time that the clock tells once for all.
fn record_each<R: Wait + Clock>(rt: &R, recorder: &mut Recorder, judged: &[Judgement])
    ensures { RecordsEach recorder.old judged.now recorder.new }
{
    let time = time_of(rt);
    for judgement in judged {
        record(rt, recorder, time, judgement);
    }
}

fn record<R: Wait>(
    rt: &R,
    recorder: &mut Recorder,
    time: Option<Moment>,
    judgement: &Judgement,
) -> Recorded
    ensures { Records recorder.old (entry_for recorder.old.worker (length recorder.old.put) time judgement.now) result
        recorder.new }
{
    let decided = Decided {
        time,
        commit: judgement.decision.commit,
        agent: judgement.decision.agent,
        allowed: judgement.decision.allowed,
        cause: &judgement.cause,
    };
    recorder.record_decision(rt, &judgement.question, decided)
}

// The time, where the clock tells one before the year 10000.
fn time_of<R: Clock>(rt: &R) -> Option<Moment> {
    match rt.since_1970() {
        Ok(time) => Moment::at(time.as_secs(), time.subsec_millis() as u16),
        Err(_) => None,
    }
}
