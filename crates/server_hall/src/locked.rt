ghost use Rattle.std.specs.Prelude.{◌≡◌, None};
ghost use Rattle.server_hall.specs.Tally.{no_calls};

use crate::roll_calls::{enter_roll, hang_roll, leave_roll};
use crate::tallies::HallTally;
use crate::views::{ServiceView, view_under};
use crate::waiting::{ask_at, next_at};
use crate::{AskRefusal, Hall, NextRefusal};
use agent_table::{AnswerRefusal, Asked, Questions, RegisterRefusal, Taken};
use cynara_keys::{Kind, Metadata, Question};
use link_ports::{HangEnd, Link};
use live_desk::{Event, Events, Front, Naming, Publisher, Seat};
use live_roll::{Left, Roll, Stopped};
use std::alloc::{AllocError, Global};
use std::snapshot::Snapshot;
use std::sync::{Condvar, Mutex, Wait};
use std::time::Clock;

/// The table of questions to agents under its lock, and what tells those that wait of news.
#[derive(Drop)]
pub struct QuestionDesk {
    pub table: Mutex<Questions>,
    pub news: Condvar,
}

impl QuestionDesk {
    /// A table with no question. Takes no memory.
    pub fn new(alloc: Global) -> QuestionDesk {
        QuestionDesk {
            table: Mutex::new(Questions::new(alloc)),
            news: Condvar::new(),
        }
    }

    /// Whether the table was stopped. May wait for the lock.
    pub fn is_stopped<R: Wait>(&self, rt: &R) -> bool {
        self.table.lock(rt).is_stopped()
    }
}

/// The hall over a locked roll and a locked table. It keeps the runtime, and counts the calls that are made by way of
/// it. It tells no list of its calls.
#[derive(Drop)]
pub struct Locked<'a, R: Wait + Clock + Drop, H: HangEnd, J: Naming>
where
    Events<J>: Naming,
{
    rt: R,
    roll: &'a Mutex<Roll<H, J>>,
    questions: &'a QuestionDesk,
    tally: HallTally,
}

impl<'a, R: Wait + Clock + Drop, H: HangEnd, J: Naming> Locked<'a, R, H, J> {
    /// The hall over these locks, by way of which no call was made. Takes no memory.
    pub fn new(
        rt: R,
        roll: &'a Mutex<Roll<H, J>>,
        questions: &'a QuestionDesk,
    ) -> Locked<'a, R, H, J>
        ensures { result.tally ≡ no_calls }
    {
        Locked {
            rt,
            roll,
            questions,
            tally: HallTally::new(),
        }
    }

    /// What it counts, and its last calls.
    pub fn tally(&self) -> &HallTally
        ensures { result.now ≡ self.now.tally }
    {
        &self.tally
    }
}

impl<'a, R: Wait + Clock + Drop, H: HangEnd, J: Naming> Hall for Locked<'a, R, H, J> {
    type End = H;

    type List = J;

    ghost tally = { λ hall. hall.tally };

    ghost calls = { λ hall. None };

    // What stands under the locks no clause exposes. `view_under` says what is told of it while they are held.
    ghost told = { λ hall. None };

    fn enter(&mut self, end: H, seat: &mut Seat<J>) -> Result<u64, Stopped> {
        let mut roll = self.roll.lock(&self.rt);
        let call = enter_roll(&self.rt, &mut *roll, end, seat);
        drop(roll);
        let entered = call.outcome();
        self.tally.count_enter(call);
        entered
    }

    fn leave(&mut self, seat: u32, entered: u64) -> Left {
        let mut roll = self.roll.lock(&self.rt);
        let call = leave_roll(&mut *roll, seat, entered);
        drop(roll);
        let left = call.left();
        self.tally.count_leave(call);
        left
    }

    fn hang(&mut self, publisher: &Publisher<J>, hangs: &mut Front<Event, Events<J>>) {
        let mut roll = self.roll.lock(&self.rt);
        let call = hang_roll(&self.rt, &mut *roll, publisher, hangs);
        drop(roll);
        self.tally.note_hang(call);
    }

    fn ask<L: Link>(
        &mut self,
        kind: Kind,
        question: Question,
        metadata: Metadata,
        link: &mut L,
    ) -> Result<(u32, Taken), AskRefusal> {
        let asked = Snapshot::of(&question);
        let with = Snapshot::of(&metadata);
        let outcome = ask_at(&self.rt, self.questions, kind, question, metadata, link);
        self.tally.count_ask(kind, asked, with, &outcome);
        outcome
    }

    fn join(&mut self, kind: Kind) -> Result<(), RegisterRefusal> {
        let outcome = self.questions.table.lock(&self.rt).register(kind);
        self.tally.count_join(kind, &outcome);
        outcome
    }

    fn next<L: Link>(&mut self, kind: Kind, link: &mut L) -> Result<Asked, NextRefusal> {
        let outcome = next_at(&self.rt, self.questions, kind, link);
        self.tally.count_next(kind, &outcome);
        outcome
    }

    fn answer(&mut self, kind: Kind, number: u32, allowed: bool) -> Result<(), AnswerRefusal> {
        let outcome = self
            .questions
            .table
            .lock(&self.rt)
            .answer(kind, number, allowed);
        self.questions.news.notify_all();
        self.tally.count_answer(kind, number, allowed, &outcome);
        outcome
    }

    fn is_open(&mut self, number: u32) -> bool {
        let open = self.questions.table.lock(&self.rt).awaits(number);
        self.tally.count_look(number, open);
        open
    }

    fn part(&mut self, kind: Kind) {
        self.questions.table.lock(&self.rt).drop_agent(kind);
        self.questions.news.notify_all();
        self.tally.count_part(kind);
    }

    fn service(&self, alloc: Global) -> Result<ServiceView, AllocError> {
        let (table, roll, view) = view_under(&self.rt, alloc, self.questions, self.roll);
        drop(roll);
        drop(table);
        view
    }

    fn stop(&mut self) {
        self.roll.lock(&self.rt).stop();
        self.questions.table.lock(&self.rt).stop();
        self.questions.news.notify_all();
        self.tally.count_stop();
    }
}
