ghost use Rattle.std.specs.Prelude.{◌≡◌, [], true, length};
ghost use Rattle.std.specs.Arc.{arc_value};
ghost use Rattle.crossbeam_queue.specs.Passes.{view, IsPassOf, ruled_capacity};
ghost use Rattle.monitor_rule.specs.Entries.{entry_of};
ghost use Rattle.monitor_rule.specs.Steps.{account_of, new_recorder};
ghost use Rattle.check_monitor.specs.Monitor.{IsDecided, IsSame, Records, account_in};
ghost use Rattle.check_monitor.specs.Monitor.{entry_of_decided, new_recorder_of, with_miss};

use crate::alarms::Alarm;
use crate::recording::Recorded;
use crate::running::{Line, LinePass, Puts};
use bucket_eval::{Cause, Verdict};
use cynara_keys::{Kind, Question, Short};
use monitor_rule::{Entry, Moment};
use std::alloc::Global;
use std::marker::Model;
use std::sync::{Arc, Wait};

/// How many entries a recorder puts at most, so that 64 recorders together never put more than a queue can number.
pub const MOST_PUT: u64 = 72_057_594_037_927_936;

/// A decision that is recorded: when, where the clock told; the commit of the policies; the kind of the agent that gave
/// the answer, or none where the policies gave it; whether it is ALLOW; and the policy or fallback that gave it, or
/// that left it to the agent.
#[derive(Clone, Copy)]
pub struct Decided<'a> {
    pub time: Option<Moment>,
    pub commit: u64,
    pub agent: Option<Kind>,
    pub allowed: bool,
    pub cause: &'a Cause,
}

/// What a worker records its checks by. Contracts see the entries that it put.
#[derive(Drop)]
pub struct Recorder {
    queue: Arc<Line>,
    pub(crate) pass: LinePass,
    worker: u32,
    made: u64,
    missed: u64,
    alarm: Arc<Alarm, Global>,
}

impl Model for Recorder {
    ghost use Rattle.std.specs.Prelude.{◌≡◌, ◌≤◌, true, length};
    ghost use Rattle.std.specs.Arc.{arc_value};
    ghost use Rattle.crossbeam_queue.specs.Passes as passes;
    ghost use Rattle.monitor_rule.specs.declared.knowing.View.{View};
    ghost use Rattle.check_monitor.specs.Monitor.{RecorderState};

    ghost Value = { RecorderState };

    ghost view = { λ recorder. record {
      queue = recorder.pass.table_id;
      room = passes.ruled_capacity (arc_value recorder.queue);
      worker = recorder.worker;
      put = (let known : View = passes.view recorder.pass in known.put);
      missed = recorder.missed;
    } };

    ghost invariant = { λ recorder. passes.IsPassOf (arc_value recorder.queue) recorder.pass
        × (let known : View = passes.view recorder.pass in
        (known.records ≡ true) × (known.worker ≡ recorder.worker) × (recorder.made ≡ length known.put))
        × (recorder.made ≤ 72057594037927936) };
}

impl Recorder {
    /// A recorder that put nothing.
    pub(crate) fn of(
        queue: Arc<Line>,
        pass: LinePass,
        worker: u32,
        alarm: Arc<Alarm, Global>,
    ) -> Recorder
        requires pass { IsPassOf (arc_value queue) pass }
        requires view { view pass ≡ new_recorder worker }
        ensures { result ≡ new_recorder_of pass.table_id (ruled_capacity (arc_value queue)) worker }
    {
        Recorder {
            queue,
            pass,
            worker,
            made: 0,
            missed: 0,
            alarm,
        }
    }

    /// Records a check that the policies decided at this time: puts its entry, with the count of what was put before as
    /// its number; or counts it as missed, where the queue held as many entries as it may at a moment of the call, or
    /// where the recorder has put 72,057,594,037,927,936 entries. It wakes the reader's thread where that waits. Takes
    /// no memory. Waits for nobody but for threads that are within a step of the queue.
    pub fn record<R: Wait>(
        &mut self,
        rt: &R,
        time: Option<Moment>,
        question: &Question,
        verdict: &Verdict,
    ) -> Recorded
        requires { IsDecided verdict.now }
        ensures recorded { Records self.old
            (entry_of self.old.worker (length self.old.put) time question.now verdict.now) result self.new }
        ensures same { IsSame self.old self.new }
    {
        let decided = Decided {
            time,
            commit: verdict.commit,
            agent: None,
            allowed: verdict.answer.kind == Kind::ALLOW,
            cause: &verdict.answer.cause,
        };
        self.record_decision(rt, question, decided)
    }

    /// The same, for a check that the policies or an agent decided.
    pub fn record_decision<R: Wait>(
        &mut self,
        rt: &R,
        question: &Question,
        decided: Decided<'_>,
    ) -> Recorded
        ensures recorded { Records self.old
            (entry_of_decided self.old.worker (length self.old.put) question.now decided.entry) result self.new }
        ensures same { IsSame self.old self.new }
    {
        if self.made >= MOST_PUT {
            let missed = self.miss();
            return Recorded::Spent { missed };
        }
        let number = self.made;
        let entry = entry_at(self.worker, number, question, decided);
        match self.queue.push_as::<Puts, R>(rt, &mut self.pass, entry) {
            Ok(()) => {
                self.made = number + 1;
                self.alarm.ring();
                Recorded::Put(number)
            }
            Err(_) => {
                let missed = self.miss();
                Recorded::Full { missed }
            }
        }
    }

    /// How many entries it put.
    pub fn made(&self) -> u64
        ensures { result ≡ length self.now.put }
    {
        self.made
    }

    /// How many checks were missed. The count stands still at its last value.
    pub fn missed(&self) -> u64
        ensures { result ≡ self.now.missed }
    {
        self.missed
    }

    /// The number of its worker.
    pub fn worker(&self) -> u32
        ensures { result ≡ self.now.worker }
    {
        self.worker
    }

    /// What it knows of the queue, for the reader that takes it in.
    pub(crate) fn into_pass(self) -> LinePass
        ensures queue { (result.table_id ≡ self.queue) × (result.me.1 ≡ []) }
        ensures records { (view result).records ≡ true }
        ensures account { account_of (view result) ≡ account_in self }
    {
        let Recorder { queue: _, pass, .. } = self;
        pass
    }

    // Counts a check as missed.
    fn miss(&mut self) -> u64
        ensures missed { result ≡ self.new.missed }
        ensures counted { self.new ≡ with_miss self.old }
    {
        self.missed = self.missed.saturating_add(1);
        self.alarm.miss();
        self.missed
    }
}

// The entry of a check.
fn entry_at(worker: u32, number: u64, question: &Question, decided: Decided<'_>) -> Entry
    ensures { result ≡ entry_of_decided worker number question.now decided.entry }
{
    Entry {
        worker,
        number,
        client: Short::of(question.client()),
        user: Short::of(question.user()),
        privilege: Short::of(question.privilege()),
        commit: decided.commit,
        allowed: decided.allowed,
        time: decided.time,
        agent: decided.agent,
        cause: *decided.cause,
    }
}
