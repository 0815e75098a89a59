ghost use Rattle.std.specs.Prelude.{◌≡◌, ◌<◌, IsSome, IfSome, IfOk, IfErr};
ghost use Rattle.std.specs.Bool.{OnTrue};
ghost use mathlib.Core.List.{IsPrefix};
ghost use Rattle.live_desk.specs.History.{GoesOn};
ghost use Rattle.live_desk.specs.Copies.{latest};
ghost use Rattle.live_desk.specs.Seat.{with_note, HasSeen, IsFrom, Answers, IsTold, Tells};

mod holding;

use crate::copies::Published;
use crate::running::{Running, Steps};
use crate::verdicts::BorrowedVerdict;
use bucket_eval::{Scratch, Verdict};
use cynara_keys::{BorrowedQuestion, Question};
use desk_state::Desk;
use left_right::reader::{Reader, Reading};
use live_roll::{Event, Seated};
use state_list::{Events, Front, Naming};
use std::alloc::{AllocError, Global};
use std::marker::Model;
use std::sync::Wait;

pub type SeatReader<J> = Reader<Published<J>, u64, Running>;

pub type SeatReading<J> = Reading<Published<J>, u64, Running>;

/// What one thread reads published states by: a number, which is its place in the roll, the greatest note that the roll
/// told it, what it has seen, and what had happened when a connection entered last in its place.
#[derive(Drop)]
pub struct Seat<J: Naming>
where
    Events<J>: Naming,
{
    // None only while a state is read.
    reader: Option<SeatReader<J>>,
    front: Front<Desk, J>,
    events: Front<Event, Events<J>>,
    number: u32,
    note: u64,
    scratch: Scratch,
}

impl<J: Naming> Model for Seat<J>
where
    Events<J>: Naming,
{
    ghost use Rattle.std.specs.Prelude.{◌≡◌, ◌<◌, true, is_some};
    ghost use Rattle.live_desk.specs.Seat.{SeatState};

    ghost Value = { SeatState };

    ghost view = { λ seat. record { number = seat.number; note = seat.note; seen = seat.front; events = seat.events } };

    ghost invariant = { λ seat. (is_some seat.reader ≡ true) × (seat.number < 64) };
}

impl<J: Naming> Seat<J> {
    /// A seat that has seen these states, knows of these events, and was told no note.
    pub(crate) fn of(
        alloc: Global,
        reader: SeatReader<J>,
        front: Front<Desk, J>,
        events: Front<Event, Events<J>>,
        number: u32,
    ) -> Result<Seat<J>, AllocError>
        requires { number < 64 }
        ensures { IfOk result (λ seat. seat ≡ record { number = number; note = 0; seen = front; events = events }) }
    {
        let scratch = Scratch::new(alloc)?;
        Ok(Seat {
            reader: Some(reader),
            front,
            events,
            number,
            note: 0,
            scratch,
        })
    }

    /// Its number, which is below 64.
    pub fn number(&self) -> u32
        ensures number { result ≡ self.now.number }
        ensures bound { result < 64 }
    {
        self.number
    }

    /// What it has seen.
    pub(crate) fn front(&self) -> &Front<Desk, J>
        ensures { result.now ≡ self.now.seen }
    {
        &self.front
    }

    /// Whether it knows of no more events than stand in this log, which then begins with those that it knows of.
    pub fn knows_only(&self, events: &Front<Event, Events<J>>) -> bool
        ensures { OnTrue result (IsPrefix self.now.events events.now) }
    {
        events.covers(&self.events)
    }

    /// The evaluation of the last state that the seat has then seen, whose commit is not below the greatest note that
    /// the seat was told. The states that it had seen before are a front of those. Takes no lock and no memory. It
    /// tries again where the newest copy is older than the note, so it may wait.
    pub fn check<R: Wait>(&mut self, rt: &R, question: &Question) -> Verdict
        ensures same { self.new ≡ record self.old { seen = self.new.seen } }
        ensures seen { GoesOn self.old.seen self.new.seen }
        ensures verdict { Answers question.now self.new result }
    {
        self.check_with(
            rt,
            &question.borrowed(),
            |verdict: BorrowedVerdict<'_>| verdict.to_verdict(),
        )
    }

    /// The same, for a question whose names stand elsewhere: the verdict's texts are lent to `tell`, which is called
    /// once, and what it returns is answered.
    #[tactic(auto, using(crate::proofs::Looks::seen_tells))]
    pub fn check_with<T, R: Wait, F: FnOnce(BorrowedVerdict<'_>) -> T>(
        &mut self,
        rt: &R,
        question: &BorrowedQuestion<'_>,
        tell: F,
    ) -> T
        requires { F.IsAlwaysCallable tell }
        ensures same { self.new ≡ record self.old { seen = self.new.seen } }
        ensures seen { GoesOn self.old.seen self.new.seen }
        ensures told { Tells question.now self.new (λ verdict. F.post tell verdict result) }
    {
        let reader = self.reader.take().unwrap();
        let reading = newest(rt, reader, &mut self.front, self.note);
        let told = tell_of(reading.get(), &mut self.scratch, question, tell);
        self.reader = Some(reading.leave());
        told
    }
}

impl<J: Naming> Seated<J> for Seat<J> {
    ghost place = { λ seat. seat.number };

    ghost known = { λ seat. seat.events };

    ghost told = { with_note };

    fn place(&self) -> u32 {
        self.number
    }

    #[tactic(auto, using(crate::proofs::Entering::knew_log))]
    fn tell(&mut self, note: u64, events: &Front<Event, Events<J>>) -> bool {
        if !self.events.catch_up(events) {
            return false;
        }
        self.note = self.note.max(note);
        true
    }
}

// Takes the newest copy once its commit is not below the note.
#[tactic(auto, using(crate::proofs::Looks::goes_on_then, crate::proofs::Looks::goes_on_all))]
fn newest<J: Naming, R: Wait>(
    rt: &R,
    first: SeatReader<J>,
    front: &mut Front<Desk, J>,
    note: u64,
) -> SeatReading<J>
    ensures seen { GoesOn front.old front.new }
    ensures newest { HasSeen note (latest result.part.value) front.new }
{
    let mut reader = first;
    for _ in rt.forever() {
        match look(reader, front, note) {
            Ok(reading) => return reading,
            Err(back) => reader = back,
        }
    }
    unreachable!()
}

// Takes the newest copy, unless its commit is below the note. The publisher may be gone too.
#[tactic(auto, using(crate::proofs::Looks::goes_on_all))]
fn look<J: Naming>(
    reader: SeatReader<J>,
    front: &mut Front<Desk, J>,
    note: u64,
) -> Result<SeatReading<J>, SeatReader<J>>
    ensures seen { GoesOn front.old front.new }
    ensures newest { IfOk result (λ reading. HasSeen note (latest reading.part.value) front.new) }
{
    match reader.enter_as::<Steps>() {
        Ok(reading) => {
            if is_seen(reading.get(), front, note) {
                Ok(reading)
            } else {
                Err(reading.leave())
            }
        }
        Err(reader) => Err(reader),
    }
}

// Takes notice of the states up to that of the copy, where it has one whose commit is not below the note; whether it
// did.
#[tactic(auto, using(crate::proofs::Looks::goes_on_all))]
fn is_seen<J: Naming>(copies: &Published<J>, front: &mut Front<Desk, J>, note: u64) -> bool
    ensures seen { GoesOn front.old front.new }
    ensures newest { OnTrue result (HasSeen note (latest copies.now) front.new) }
{
    match &copies.latest {
        Some(shown) => shown.is_seen_by(front, note),
        None => false,
    }
}

// What the caller's function makes of the verdict of the copy.
fn tell_of<T, J: Naming, F: FnOnce(BorrowedVerdict<'_>) -> T>(
    copies: &Published<J>,
    scratch: &mut Scratch,
    question: &BorrowedQuestion<'_>,
    tell: F,
) -> T
    requires there { IsSome (latest copies.now) }
    requires callable { F.IsAlwaysCallable tell }
    ensures { IfSome (latest copies.now) (λ desk. IsTold question.now desk (λ verdict. F.post tell verdict result)) }
{
    let shown = copies.latest.as_ref().unwrap();
    tell(shown.verdict(scratch, question))
}
