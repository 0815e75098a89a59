ghost use Rattle.std.specs.Prelude.{◌≡◌, ◌≤◌};
ghost use Rattle.desk_ports.specs.Faults.{last_count};
ghost use Rattle.server_hall.specs.Tally.{no_calls, after_enter, after_leave, after_hang, after_ask, after_join};
ghost use Rattle.server_hall.specs.Tally.{after_next, after_answer, after_look, after_part, after_stop};
ghost use Rattle.server_hall.specs.Tally.{stops_after_ask, losses_after_ask, stops_after_join, stops_after_next};

use crate::calls::{AnswerCall, AskCall, JoinCall, LookCall, NextCall, PartCall};
use crate::roll_calls::{EnterCall, HangCall, LeaveCall};
use crate::{AskRefusal, NextRefusal};
use agent_table::{AnswerRefusal, Asked, RegisterRefusal, Taken};
use cynara_keys::{Kind, Metadata, Question};
use live_roll::Left;
use std::marker::Model;
use std::snapshot::Snapshot;

/// What a hall counts of itself, and the last call of each kind. Each form of a hall keeps one. A count stands still at
/// its last value. No call of it takes memory.
#[derive(Drop)]
pub struct HallTally {
    stops: u64,
    hangs: u64,
    losses: u64,
    enters: u64,
    leaves: u64,
    asks: u64,
    joins: u64,
    nexts: u64,
    answers: u64,
    looks: u64,
    parts: u64,
    stop_calls: u64,
    last_enter: Option<u64>,
    last_leave: Option<LeaveCall>,
    last_ask: Option<AskCall>,
    last_join: Option<JoinCall>,
    last_next: Option<NextCall>,
    last_answer: Option<AnswerCall>,
    last_look: Option<LookCall>,
    last_part: Option<PartCall>,
    cleared: u64,
}

impl Model for HallTally {
    ghost use Rattle.server_hall.specs.Tally.{Tally};

    ghost Value = { Tally };

    ghost view = { λ tally. record {
      stops = tally.stops;
      hangs = tally.hangs;
      losses = tally.losses;
      enters = tally.enters;
      leaves = tally.leaves;
      asks = tally.asks;
      joins = tally.joins;
      nexts = tally.nexts;
      answers = tally.answers;
      looks = tally.looks;
      parts = tally.parts;
      stop_calls = tally.stop_calls;
      last_enter = tally.last_enter;
      last_leave = tally.last_leave;
      last_ask = tally.last_ask;
      last_join = tally.last_join;
      last_next = tally.last_next;
      last_answer = tally.last_answer;
      last_look = tally.last_look;
      last_part = tally.last_part;
      cleared = tally.cleared;
    } };
}

impl HallTally {
    /// That of a hall on which no call was made.
    pub fn new() -> HallTally
        ensures { result ≡ no_calls }
    {
        HallTally {
            stops: 0,
            hangs: 0,
            losses: 0,
            enters: 0,
            leaves: 0,
            asks: 0,
            joins: 0,
            nexts: 0,
            answers: 0,
            looks: 0,
            parts: 0,
            stop_calls: 0,
            last_enter: None,
            last_leave: None,
            last_ask: None,
            last_join: None,
            last_next: None,
            last_answer: None,
            last_look: None,
            last_part: None,
            cleared: 0,
        }
    }

    /// How often a call found the hall stopped.
    pub fn stops(&self) -> u64
        ensures { result ≡ self.now.stops }
    {
        self.stops
    }

    /// How often a connection left that a commit had hung up.
    pub fn hangs(&self) -> u64
        ensures { result ≡ self.now.hangs }
    {
        self.hangs
    }

    /// How often a question was lost that had been put.
    pub fn losses(&self) -> u64
        ensures { result ≡ self.now.losses }
    {
        self.losses
    }

    /// How many connections left their places.
    pub fn leaves(&self) -> u64
        ensures { result ≡ self.now.leaves }
    {
        self.leaves
    }

    /// How many questions were to be put.
    pub fn asks(&self) -> u64
        ensures { result ≡ self.now.asks }
    {
        self.asks
    }

    /// How many agents came.
    pub fn joins(&self) -> u64
        ensures { result ≡ self.now.joins }
    {
        self.joins
    }

    /// How often an agent asked for its next question.
    pub fn nexts(&self) -> u64
        ensures { result ≡ self.now.nexts }
    {
        self.nexts
    }

    /// How often an agent answered.
    pub fn answers(&self) -> u64
        ensures { result ≡ self.now.answers }
    {
        self.answers
    }

    /// How often it was asked whether a question still waits.
    pub fn looks(&self) -> u64
        ensures { result ≡ self.now.looks }
    {
        self.looks
    }

    /// How many agents left.
    pub fn parts(&self) -> u64
        ensures { result ≡ self.now.parts }
    {
        self.parts
    }

    /// How often the service was stopped.
    pub fn stop_calls(&self) -> u64
        ensures { result ≡ self.now.stop_calls }
    {
        self.stop_calls
    }

    /// The commit for which all older connections were hung up last.
    pub fn cleared(&self) -> u64
        ensures { result ≡ self.now.cleared }
    {
        self.cleared
    }

    /// The last time that an agent left.
    pub fn last_part(&self) -> Option<PartCall>
        ensures { result ≡ self.now.last_part }
    {
        self.last_part
    }

    /// Counts a connection that entered, and keeps at which commit, or that was refused.
    pub fn count_enter(&mut self, call: EnterCall)
        ensures { self.new ≡ after_enter call self.old }
    {
        self.enters = self.enters.saturating_add(1);
        match call.outcome() {
            Ok(note) => self.last_enter = Some(note),
            Err(_) => self.stops = self.stops.saturating_add(1),
        }
    }

    /// Counts a connection that left, and keeps the call.
    pub fn count_leave(&mut self, call: LeaveCall)
        ensures { self.new ≡ after_leave call self.old }
    {
        self.leaves = self.leaves.saturating_add(1);
        match call.left() {
            Left::Still => {}
            Left::Hung { .. } => self.hangs = self.hangs.saturating_add(1),
            Left::Stopped { .. } => self.stops = self.stops.saturating_add(1),
        }
        self.last_leave = Some(call);
    }

    /// Keeps the commit for which all older connections were hung up.
    pub fn note_hang(&mut self, call: HangCall)
        ensures { self.new ≡ after_hang call self.old }
    {
        self.cleared = call.commit();
    }

    /// Counts a question that was to be put, and keeps the call.
    pub fn count_ask(
        &mut self,
        kind: Kind,
        question: Snapshot<Question>,
        metadata: Snapshot<Metadata>,
        outcome: &Result<(u32, Taken), AskRefusal>,
    )
        ensures { self.new ≡ after_ask (record {
          kind = kind;
          question = question.value;
          metadata = metadata.value;
          result = outcome.now;
        }) self.old }
    {
        self.asks = self.asks.saturating_add(1);
        self.stops = stops_after_ask(outcome, self.stops);
        self.losses = losses_after_ask(outcome, self.losses);
        self.last_ask = Some(AskCall::of(kind, question, metadata, outcome));
    }

    /// Counts an agent that came, and keeps the call.
    pub fn count_join(&mut self, kind: Kind, outcome: &Result<(), RegisterRefusal>)
        ensures { self.new ≡ after_join (record { kind = kind; result = outcome.now }) self.old }
    {
        self.joins = self.joins.saturating_add(1);
        self.stops = stops_after_join(outcome, self.stops);
        self.last_join = Some(JoinCall::of(kind, outcome));
    }

    /// Counts an agent's call for its next question, and keeps it.
    pub fn count_next(&mut self, kind: Kind, outcome: &Result<Asked, NextRefusal>)
        ensures { self.new ≡ after_next (record { kind = kind; result = outcome.now }) self.old }
    {
        self.nexts = self.nexts.saturating_add(1);
        self.stops = stops_after_next(outcome, self.stops);
        self.last_next = Some(NextCall::of(kind, outcome));
    }

    /// Counts an agent's answer, and keeps the call.
    pub fn count_answer(
        &mut self,
        kind: Kind,
        number: u32,
        allowed: bool,
        outcome: &Result<(), AnswerRefusal>,
    )
        ensures { self.new ≡ after_answer (record {
          kind = kind;
          number = number;
          allowed = allowed;
          result = outcome.now;
        }) self.old }
    {
        self.answers = self.answers.saturating_add(1);
        self.last_answer = Some(AnswerCall::of(kind, number, allowed, outcome));
    }

    /// Counts a look at a question, and keeps it.
    pub fn count_look(&mut self, number: u32, open: bool)
        ensures { self.new ≡ after_look (record { number = number; «open» = «open» }) self.old }
    {
        self.looks = self.looks.saturating_add(1);
        self.last_look = Some(LookCall { number, open });
    }

    /// Counts an agent that left.
    pub fn count_part(&mut self, kind: Kind)
        ensures { self.new ≡ after_part kind self.old }
    {
        self.parts = self.parts.saturating_add(1);
        self.last_part = Some(PartCall {
            kind,
            nexts: self.nexts,
            answers: self.answers,
        });
    }

    /// Counts a call that stops the service.
    pub fn count_stop(&mut self)
        ensures { self.new ≡ after_stop self.old }
    {
        self.stop_calls = self.stop_calls.saturating_add(1);
    }
}

fn stops_after_ask(outcome: &Result<(u32, Taken), AskRefusal>, stops: u64) -> u64
    ensures { result ≡ stops_after_ask outcome.now stops }
{
    match outcome {
        Err(AskRefusal::Stopped) => stops.saturating_add(1),
        Err(AskRefusal::Put(_)) | Err(AskRefusal::Gone(_)) => stops,
        Err(AskRefusal::Lost(_)) | Err(AskRefusal::Withdrawn(_)) => stops,
        Ok(_) => stops,
    }
}

fn losses_after_ask(outcome: &Result<(u32, Taken), AskRefusal>, losses: u64) -> u64
    ensures { result ≡ losses_after_ask outcome.now losses }
{
    match outcome {
        Err(AskRefusal::Lost(_)) => losses.saturating_add(1),
        Err(AskRefusal::Put(_)) | Err(AskRefusal::Gone(_)) => losses,
        Err(AskRefusal::Stopped) | Err(AskRefusal::Withdrawn(_)) => losses,
        Ok(_) => losses,
    }
}

fn stops_after_join(outcome: &Result<(), RegisterRefusal>, stops: u64) -> u64
    ensures { result ≡ stops_after_join outcome.now stops }
{
    match outcome {
        Err(RegisterRefusal::Stopped) => stops.saturating_add(1),
        Err(RegisterRefusal::Taken(_)) | Err(RegisterRefusal::Full) => stops,
        Err(RegisterRefusal::Memory(_)) => stops,
        Ok(()) => stops,
    }
}

fn stops_after_next(outcome: &Result<Asked, NextRefusal>, stops: u64) -> u64
    ensures { result ≡ stops_after_next outcome.now stops }
{
    match outcome {
        Err(NextRefusal::Stopped) => stops.saturating_add(1),
        Err(NextRefusal::Memory(_)) | Err(NextRefusal::Left) => stops,
        Ok(_) => stops,
    }
}
