ghost use Rattle.std.specs.Prelude.{◌≡◌, ◌<◌, ◌∷◌, [], Some, false, IfOk, IfErr, OnErr};
ghost use mathlib.Core.List.{IsPrefix};
ghost use Rattle.link_ports.specs.Told.{KeepsTold};
ghost use Rattle.live_roll.specs.Events.{HasHung};
ghost use Rattle.live_roll.specs.Roll.{with_entry, LeavesPlace, HangsTo, StopsAll};
ghost use Rattle.live_desk.specs.History.{last_commit};
ghost use Rattle.live_desk.specs.Seat.{EntersAt};
ghost use Rattle.server_hall.specs.Tally.{after_enter, after_leave, IsRaised, after_hang, after_ask, after_join};
ghost use Rattle.server_hall.specs.Tally.{after_next, after_answer, after_part, after_stop, IsNamedForItself};
ghost use Rattle.server_hall.specs.Told.{AppendsCalls};
ghost use Rattle.server_hall.specs.Found.{marks_after_ask, CountsAsk, IsOfTheTable};
ghost use Rattle.server_hall.specs.Found.{marks_after_next, CountsNext, IsOfTheQueue};
ghost use Rattle.server_hall.specs.ListHall.{IsNewHall};
ghost use Rattle.agent_table.specs.Table.{KindsRise};
ghost use Rattle.server_hall.specs.Service.{told_by, service_of};
ghost use Rattle.server_hall.specs.declared.calls.HallCall as call;

use crate::calls::{AnswerCall, AskCall, HallCall, JoinCall, NextCall};
use crate::list_answers::HallAnswer;
use crate::roll_calls::{enter_roll, hang_roll, leave_roll};
use crate::tallies::HallTally;
use crate::views::{ServiceView, view_of};
use crate::{AskRefusal, Hall, NextRefusal};
use agent_table::{AnswerRefusal, Asked, PutRefusal, Questions, RegisterRefusal, Taken};
use cynara_keys::{Kind, Metadata, Question};
use link_ports::{HangEnd, Link};
use live_desk::{Event, Events, Front, Naming, Publisher, Seat};
use live_roll::{Left, Roll, Stopped};
use std::alloc::{AllocError, Global};
use std::marker::Model;
use std::snapshot::Snapshot;
use std::sync::Wait;

/// A hall in memory, for tests: a roll, and a list of answers to `ask`, `join`, `next`, `answer` and `is_open`, of
/// which each of these calls takes the next one. Where that is an answer to another call, or none is left, the list
/// counts as used up from then on: such a call counts a stop and answers `Stopped`, `answer` refuses, and no question
/// is open. It tells its calls until then. `ask` and `next` look first, once, whether the link is up. Where it is not
/// they take no answer, and refuse `Withdrawn` of number 0 and `Left`. `service` tells of the roll and of a table that
/// no other call touches. It keeps the runtime.
#[derive(Drop)]
pub struct ListHall<R: Wait + Drop, H: HangEnd, J: Naming>
where
    Events<J>: Naming,
{
    rt: R,
    // The next one is the last.
    answers: Vec<HallAnswer>,
    table: Questions,
    roll: Roll<H, J>,
    tally: HallTally,
    // None once the answers are used up.
    calls: Option<Vec<HallCall>>,
}

impl<R: Wait + Drop, H: HangEnd, J: Naming> Model for ListHall<R, H, J>
where
    Events<J>: Naming,
{
    ghost use Rattle.std.specs.Option.{option_map};
    ghost use Rattle.server_hall.specs.ListHall.{HeldHall};

    ghost Value = { HeldHall H };

    ghost view = { λ hall. record {
      left = hall.answers.items;
      table = hall.table;
      roll = hall.roll;
      tally = hall.tally;
      calls = option_map (λ calls. calls.items) hall.calls;
    } };
}

impl<R: Wait + Drop, H: HangEnd, J: Naming> ListHall<R, H, J> {
    /// A hall with this roll, a table with no agent, and these answers in turn. Takes room for as many calls. An answer
    /// `Put` of the table's `Stopped` stands for `Stopped`, and so do `Withdrawn` and `Left`, which no link gets that
    /// is up.
    pub fn new(
        rt: R,
        alloc: Global,
        answers: Vec<HallAnswer>,
        roll: Roll<H, J>,
    ) -> Result<ListHall<R, H, J>, AllocError>
        ensures { IfOk result (IsNewHall roll) }
    {
        let calls = Vec::with_capacity(alloc, answers.len())?;
        let mut answers = answers;
        answers.reverse();
        Ok(ListHall {
            rt,
            answers,
            table: Questions::new(alloc),
            roll,
            tally: HallTally::new(),
            calls: Some(calls),
        })
    }

    /// The same hall with this table, of whose agents `service` tells.
    pub fn with_table(self, table: Questions) -> ListHall<R, H, J>
        ensures { result ≡ record self { table = table } }
    {
        let mut hall = self;
        hall.table = table;
        hall
    }

    /// What it counts, and its last calls.
    pub fn tally(&self) -> &HallTally
        ensures { result.now ≡ self.now.tally }
    {
        &self.tally
    }

    /// Its roll.
    pub fn roll(&self) -> &Roll<H, J>
        ensures { result.now ≡ self.now.roll }
    {
        &self.roll
    }

    /// How many answers are left.
    pub fn left(&self) -> usize {
        self.answers.len()
    }

    /// Whether its answers are used up.
    pub fn is_used_up(&self) -> bool {
        self.calls.is_none()
    }

    // The next answer. From a call on that finds none the answers are used up.
    fn take_answer(&mut self) -> Option<HallAnswer>
        ensures roll { self.new.roll ≡ self.old.roll }
        ensures tally { self.new.tally ≡ self.old.tally }
        ensures calls { AppendsCalls self.old.calls [] self.new.calls }
    {
        let Some(answer) = self.answers.pop() else {
            self.calls = None;
            return None;
        };
        Some(answer)
    }

    // The answers are used up, since the next one belonged to another call.
    fn use_up(&mut self)
        ensures roll { self.new.roll ≡ self.old.roll }
        ensures tally { self.new.tally ≡ self.old.tally }
        ensures calls { AppendsCalls self.old.calls [] self.new.calls }
    {
        self.answers.clear();
        self.calls = None;
    }

    // Keeps a call, as long as the calls are told.
    fn keep(&mut self, call: HallCall)
        ensures roll { self.new.roll ≡ self.old.roll }
        ensures tally { self.new.tally ≡ self.old.tally }
        ensures calls { AppendsCalls self.old.calls (call ∷ []) self.new.calls }
    {
        if let Some(mut calls) = self.calls.take() {
            if let Ok(()) = calls.push(call) {
                self.calls = Some(calls);
            }
        }
    }

    // What whoever asks is told, with this link.
    #[tactic(auto, using(crate::proofs::Marks::marks_up, crate::proofs::Marks::marks_down))]
    fn next_ask<L: Link>(&mut self, link: &mut L) -> Result<(u32, Taken), AskRefusal>
        ensures named { IfErr result IsNamedForItself }
        ensures roll { self.new.roll ≡ self.old.roll }
        ensures tally { self.new.tally ≡ self.old.tally }
        ensures calls { AppendsCalls self.old.calls [] self.new.calls }
        ensures kept { KeepsTold (L.traffic link.old) (L.traffic link.new) }
        ensures marks { L.marks link.new ≡ marks_after_ask result (L.marks link.old) }
        ensures faults { CountsAsk result (L.faults link.old) (L.faults link.new) }
    {
        if !link.is_up() {
            return Err(AskRefusal::Withdrawn(0));
        }
        let outcome = self.listed_ask();
        outcome
    }

    fn listed_ask(&mut self) -> Result<(u32, Taken), AskRefusal>
        ensures named { IfErr result IsNamedForItself }
        ensures own { IfErr result IsOfTheTable }
        ensures roll { self.new.roll ≡ self.old.roll }
        ensures tally { self.new.tally ≡ self.old.tally }
        ensures calls { AppendsCalls self.old.calls [] self.new.calls }
    {
        match self.take_answer() {
            Some(HallAnswer::Ask(Ok(answered))) => Ok(answered),
            Some(HallAnswer::Ask(Err(refusal))) => Err(named(refusal)),
            Some(_) => {
                self.use_up();
                Err(AskRefusal::Stopped)
            }
            None => Err(AskRefusal::Stopped),
        }
    }

    fn next_join(&mut self) -> Result<(), RegisterRefusal>
        ensures roll { self.new.roll ≡ self.old.roll }
        ensures tally { self.new.tally ≡ self.old.tally }
        ensures calls { AppendsCalls self.old.calls [] self.new.calls }
    {
        match self.take_answer() {
            Some(HallAnswer::Join(outcome)) => outcome,
            Some(_) => {
                self.use_up();
                Err(RegisterRefusal::Stopped)
            }
            None => Err(RegisterRefusal::Stopped),
        }
    }

    // What an agent is given, with this link.
    #[tactic(auto, using(crate::proofs::Marks::marks_up, crate::proofs::Marks::marks_down))]
    fn next_next<L: Link>(&mut self, link: &mut L) -> Result<Asked, NextRefusal>
        ensures roll { self.new.roll ≡ self.old.roll }
        ensures tally { self.new.tally ≡ self.old.tally }
        ensures calls { AppendsCalls self.old.calls [] self.new.calls }
        ensures kept { KeepsTold (L.traffic link.old) (L.traffic link.new) }
        ensures marks { L.marks link.new ≡ marks_after_next result (L.marks link.old) }
        ensures faults { CountsNext result (L.faults link.old) (L.faults link.new) }
    {
        if !link.is_up() {
            return Err(NextRefusal::Left);
        }
        let outcome = self.listed_next();
        outcome
    }

    fn listed_next(&mut self) -> Result<Asked, NextRefusal>
        ensures own { IfErr result IsOfTheQueue }
        ensures roll { self.new.roll ≡ self.old.roll }
        ensures tally { self.new.tally ≡ self.old.tally }
        ensures calls { AppendsCalls self.old.calls [] self.new.calls }
    {
        match self.take_answer() {
            Some(HallAnswer::Next(Ok(asked))) => Ok(asked),
            Some(HallAnswer::Next(Err(NextRefusal::Memory(error)))) => {
                Err(NextRefusal::Memory(error))
            }
            Some(HallAnswer::Next(Err(NextRefusal::Stopped | NextRefusal::Left))) => {
                Err(NextRefusal::Stopped)
            }
            Some(_) => {
                self.use_up();
                Err(NextRefusal::Stopped)
            }
            None => Err(NextRefusal::Stopped),
        }
    }

    fn next_answer(&mut self, number: u32) -> Result<(), AnswerRefusal>
        ensures roll { self.new.roll ≡ self.old.roll }
        ensures tally { self.new.tally ≡ self.old.tally }
        ensures calls { AppendsCalls self.old.calls [] self.new.calls }
    {
        match self.take_answer() {
            Some(HallAnswer::Answer(outcome)) => outcome,
            Some(_) => {
                self.use_up();
                Err(AnswerRefusal::UnknownNumber(number))
            }
            None => Err(AnswerRefusal::UnknownNumber(number)),
        }
    }

    fn next_look(&mut self) -> bool
        ensures roll { self.new.roll ≡ self.old.roll }
        ensures tally { self.new.tally ≡ self.old.tally }
        ensures calls { AppendsCalls self.old.calls [] self.new.calls }
    {
        match self.take_answer() {
            Some(HallAnswer::Look(open)) => open,
            Some(_) => {
                self.use_up();
                false
            }
            None => false,
        }
    }
}

// The refusal, named for itself.
fn named(refusal: AskRefusal) -> AskRefusal
    ensures named { IsNamedForItself result }
    ensures own { IsOfTheTable result }
{
    match refusal {
        AskRefusal::Put(PutRefusal::Stopped) => AskRefusal::Stopped,
        AskRefusal::Put(PutRefusal::NoAgent(kind)) => AskRefusal::Put(PutRefusal::NoAgent(kind)),
        AskRefusal::Put(PutRefusal::Full) => AskRefusal::Put(PutRefusal::Full),
        AskRefusal::Put(PutRefusal::Spent) => AskRefusal::Put(PutRefusal::Spent),
        AskRefusal::Put(PutRefusal::Memory(error)) => AskRefusal::Put(PutRefusal::Memory(error)),
        AskRefusal::Gone(number) => AskRefusal::Gone(number),
        AskRefusal::Stopped => AskRefusal::Stopped,
        AskRefusal::Lost(number) => AskRefusal::Lost(number),
        AskRefusal::Withdrawn(_) => AskRefusal::Stopped,
    }
}

impl<R: Wait + Drop, H: HangEnd, J: Naming> Hall for ListHall<R, H, J> {
    type End = H;

    type List = J;

    ghost tally = { λ hall. hall.tally };

    ghost calls = { λ hall. hall.calls };

    ghost told = { λ hall. Some (service_of hall.table hall.roll) };

    fn enter(&mut self, end: H, seat: &mut Seat<J>) -> Result<u64, Stopped>
        requires { H.used end ≡ false }
        ensures tally { self.new.tally ≡ after_enter result self.old.tally }
        ensures calls { self.new.calls ≡ self.old.calls }
        ensures told { IfOk result (λ note. EntersAt note seat.old seat.new) }
        ensures untold { OnErr result (seat.new ≡ seat.old) }

        // More than any hall promises: what it makes of the roll.
        ensures entered { IfOk result
            (λ note. (note ≡ self.old.roll.note) × (self.new.roll ≡ with_entry seat.old.number end self.old.roll)) }
        ensures kept { OnErr result (self.new.roll ≡ self.old.roll) }
    {
        let call = enter_roll(&self.rt, &mut self.roll, end, seat);
        let entered = call.outcome();
        self.tally.count_enter(call);
        entered
    }

    fn leave(&mut self, seat: u32, entered: u64) -> Left
        requires { seat < 64 }
        ensures tally { self.new.tally
            ≡ after_leave (record { seat = seat; entered = entered; left = result }) self.old.tally }
        ensures calls { self.new.calls ≡ self.old.calls }
        ensures raised { IsRaised entered result }

        // More than any hall promises: what it makes of the roll.
        ensures left { LeavesPlace H.used seat self.old.roll self.new.roll }
    {
        let call = leave_roll(&mut self.roll, seat, entered);
        let left = call.left();
        self.tally.count_leave(call);
        left
    }

    fn hang(&mut self, publisher: &Publisher<J>, hangs: &mut Front<Event, Events<J>>)
        ensures tally { self.new.tally ≡ after_hang (last_commit 0 publisher.now) self.old.tally }
        ensures calls { self.new.calls ≡ self.old.calls }
        ensures begins { IsPrefix hangs.old hangs.new }
        ensures up_to { HasHung hangs.new (last_commit 0 publisher.now) }

        // More than any hall promises: what it makes of the roll.
        ensures hung { HangsTo H.used (last_commit 0 publisher.now) self.old.roll self.new.roll }
    {
        let call = hang_roll(&self.rt, &mut self.roll, publisher, hangs);
        self.tally.note_hang(call);
    }

    fn ask<L: Link>(
        &mut self,
        kind: Kind,
        question: Question,
        metadata: Metadata,
        link: &mut L,
    ) -> Result<(u32, Taken), AskRefusal> {
        let outcome = self.next_ask(link);
        self.tally.count_ask(
            kind,
            Snapshot::of(&question),
            Snapshot::of(&metadata),
            &outcome,
        );
        let call = AskCall::of(
            kind,
            Snapshot::of(&question),
            Snapshot::of(&metadata),
            &outcome,
        );
        self.keep(HallCall::Ask(call));
        outcome
    }

    fn join(&mut self, kind: Kind) -> Result<(), RegisterRefusal> {
        let outcome = self.next_join();
        self.tally.count_join(kind, &outcome);
        self.keep(HallCall::Join(JoinCall::of(kind, &outcome)));
        outcome
    }

    fn next<L: Link>(&mut self, kind: Kind, link: &mut L) -> Result<Asked, NextRefusal> {
        let outcome = self.next_next(link);
        self.tally.count_next(kind, &outcome);
        self.keep(HallCall::Next(NextCall::of(kind, &outcome)));
        outcome
    }

    fn answer(&mut self, kind: Kind, number: u32, allowed: bool) -> Result<(), AnswerRefusal> {
        let outcome = self.next_answer(number);
        self.tally.count_answer(kind, number, allowed, &outcome);
        self.keep(HallCall::Answer(AnswerCall::of(kind, number, allowed, &outcome)));
        outcome
    }

    fn is_open(&mut self, number: u32) -> bool {
        let open = self.next_look();
        self.tally.count_look(number, open);
        self.keep(HallCall::Look { number, open });
        open
    }

    fn part(&mut self, kind: Kind) {
        self.tally.count_part(kind);
    }

    fn service(&self, alloc: Global) -> Result<ServiceView, AllocError>
        ensures told { IfOk result (λ view. told_by view ≡ service_of self.now.table self.now.roll) }
        ensures rising { IfOk result (λ view. KindsRise view.kinds.items) }
    {
        view_of(alloc, &self.table, &self.roll)
    }

    fn stop(&mut self)
        ensures tally { self.new.tally ≡ after_stop self.old.tally }
        ensures calls { self.new.calls ≡ self.old.calls }

        // More than any hall promises: what it makes of the roll.
        ensures stopped { StopsAll H.used self.old.roll self.new.roll }
    {
        self.roll.stop();
        self.tally.count_stop();
    }
}
