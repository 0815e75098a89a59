// What the calls of a hall make of the roll that they are lent. What a hall may count and note of them these functions
// alone make: no other module can.
ghost use Rattle.std.specs.Prelude.{◌≡◌, ◌<◌, false, IsTrue, IfOk, IfErr, OnOk, OnErr};
ghost use mathlib.Core.List.{IsPrefix};
ghost use Rattle.live_roll.specs.Events.{HasHung};
ghost use Rattle.live_roll.specs.Roll.{left_of, with_entry, LeavesPlace, HangsTo};
ghost use Rattle.live_desk.specs.History.{last_commit};
ghost use Rattle.live_desk.specs.Seat.{EntersAt};
ghost use Rattle.server_hall.specs.Tally.{IsRaised};

use link_ports::HangEnd;
use live_desk::{Event, Events, Front, Naming, Publisher, Seat};
use live_roll::{Left, Roll, Stopped};
use std::marker::Model;
use std::sync::Wait;

/// A connection came to enter, and entered at this commit, or was refused. Only `enter_roll` makes one: so a hall that
/// counts one has asked a roll.
#[derive(Drop)]
pub struct EnterCall {
    outcome: Result<u64, Stopped>,
}

impl Model for EnterCall {
    ghost use Rattle.std.specs.Prelude.{ℕ, Result};
    ghost use Rattle.live_roll.specs.declared.answers.Stopped.{Stopped};

    ghost Value = { Result ℕ Stopped };

    ghost view = { λ call. call.outcome };
}

impl EnterCall {
    /// What was answered.
    pub fn outcome(&self) -> Result<u64, Stopped>
        ensures { result ≡ self.now }
    {
        match &self.outcome {
            Ok(note) => Ok(*note),
            Err(refusal) => Err(*refusal),
        }
    }
}

/// A connection left the place of this seat, which had entered at this commit, and this was answered. Only `leave_roll`
/// makes one: so a hall that counts one has left a roll.
#[derive(Drop)]
pub struct LeaveCall {
    seat: u32,
    entered: u64,
    left: Left,
}

impl Model for LeaveCall {
    ghost use Rattle.server_hall.specs.Call.{LeaveMade};

    ghost Value = { LeaveMade };

    ghost view = { λ call. record { seat = call.seat; entered = call.entered; left = call.left } };
}

impl LeaveCall {
    /// What was answered.
    pub fn left(&self) -> Left
        ensures { result ≡ self.now.left }
    {
        self.left
    }
}

/// All connections of a roll were hung up that had entered before this commit. Only `hang_roll` makes one: so a hall
/// that notes one has hung up a roll.
#[derive(Drop)]
pub struct HangCall {
    commit: u64,
}

impl Model for HangCall {
    ghost use Rattle.std.specs.Prelude.{ℕ};

    ghost Value = { ℕ };

    ghost view = { λ call. call.commit };
}

impl HangCall {
    /// The commit.
    pub fn commit(&self) -> u64
        ensures { result ≡ self.now }
    {
        self.commit
    }
}

/// A connection enters, as `Roll::enter` says, or is refused, and its end is dropped. The call is handed out, for a
/// hall to count. Where it entered, the seat knows the events of the roll up to its own entry.
#[tactic(auto, using(crate::proofs::Hangs::enters))]
pub fn enter_roll<R: Wait, H: HangEnd, J: Naming>(
    rt: &R,
    roll: &mut Roll<H, J>,
    end: H,
    seat: &mut Seat<J>,
) -> EnterCall
    ensures open { OnOk result (roll.old.is_stopped ≡ false) }
    ensures refused { OnErr result (IsTrue roll.old.is_stopped) }
    ensures note { IfOk result (λ note. note ≡ roll.old.note) }
    ensures entered { OnOk result (roll.new ≡ with_entry seat.old.number end roll.old) }
    ensures told { IfOk result (λ note. EntersAt note seat.old seat.new) }
    ensures commit { IfErr result (λ refusal. refusal.commit ≡ roll.old.note) }
    ensures kept { OnErr result (roll.new ≡ roll.old) }
    ensures untold { OnErr result (seat.new ≡ seat.old) }
{
    match roll.enter(rt, end, seat) {
        Ok(note) => EnterCall { outcome: Ok(note) },
        Err((end, stopped)) => {
            drop(end);
            EnterCall {
                outcome: Err(stopped),
            }
        }
    }
}

/// A connection leaves, as `Roll::leave` says. The call is handed out, for a hall to count.
pub fn leave_roll<H: HangEnd, J: Naming>(
    roll: &mut Roll<H, J>,
    seat: u32,
    entered: u64,
) -> LeaveCall
    requires { seat < 64 }
    ensures answer { result ≡ record { seat = seat; entered = entered; left = left_of entered roll.old } }
    ensures raised { IsRaised entered result.left }
    ensures left { LeavesPlace H.used seat roll.old roll.new }
{
    let left = roll.leave(seat, entered);
    LeaveCall {
        seat,
        entered,
        left,
    }
}

/// All connections that entered before the last commit of the publisher are hung up, as `Roll::hang_all` says. The call
/// is handed out, for a hall to note. The front becomes the events of the roll, up to this one; where it has more than
/// the roll, which does not come about, it waits for ever.
#[tactic(auto, using(crate::proofs::Hangs::hung_behind))]
pub fn hang_roll<R: Wait, H: HangEnd, J: Naming>(
    rt: &R,
    roll: &mut Roll<H, J>,
    publisher: &Publisher<J>,
    hangs: &mut Front<Event, Events<J>>,
) -> HangCall
    ensures commit { result ≡ last_commit 0 publisher.now }
    ensures hung { HangsTo H.used (last_commit 0 publisher.now) roll.old roll.new }
    ensures events { hangs.new ≡ roll.new.events }
    ensures begins { IsPrefix hangs.old hangs.new }
    ensures up_to { HasHung hangs.new (last_commit 0 publisher.now) }
{
    let commit = publisher.commit();
    roll.hang_all(rt, commit);
    take_notice(rt, roll.known(), hangs);
    HangCall { commit }
}

// Takes notice of the events that are known.
fn take_notice<R: Wait, J: Naming>(
    rt: &R,
    known: &Front<Event, Events<J>>,
    hangs: &mut Front<Event, Events<J>>,
)
    ensures events { hangs.new ≡ known.now }
    ensures begins { IsPrefix hangs.old hangs.new }
{
    for _ in rt.forever() {
        if hangs.catch_up(known) {
            return;
        }
    }
    unreachable!()
}
