// One state that is held, for as many checks as are made of it.
ghost use Rattle.std.specs.Prelude.{◌≡◌, IsSome, IfSome};
ghost use Rattle.live_desk.specs.Copies.{latest};
ghost use Rattle.live_desk.specs.History.{GoesOn};
ghost use Rattle.live_desk.specs.Holding.{AtLast, AnswersAt};

use super::{Seat, newest};
use crate::copies::{DeskCopy, Published};
use bucket_eval::Scratch;
use state_list::Naming;
use std::sync::Wait;

impl<J: Naming> Seat<J> {
    /// Holds the newest state while `answer` runs, which is called once and may make any number of checks, all of that
    /// one state. It is the last state that the seat has then seen, and its commit is not below the greatest note that
    /// the seat was told. `answer` is lent the state, the seat's room for one question, and the two values that it is
    /// to change. Takes no lock and no memory. It tries again where the newest copy is older than the note, so it may
    /// wait; and the publisher waits until `answer` returns, which should wait for nothing.
    #[tactic(auto, using(crate::proofs::Looks::holds_at_last))]
    pub fn hold_newest<A, B, T, R: Wait, F: FnOnce(&DeskCopy, &mut Scratch, &mut A, &mut B) -> T>(
        &mut self,
        rt: &R,
        first: &mut A,
        second: &mut B,
        answer: F,
    ) -> T
        requires { F.IsAlwaysCallable answer }
        ensures same { self.new ≡ record self.old { seen = self.new.seen } }
        ensures seen { GoesOn self.old.seen self.new.seen }
        ensures held { AtLast self.new
            (λ desk. AnswersAt F.FnOnce answer desk first.old second.old result first.new second.new) }
    {
        let reader = self.reader.take().unwrap();
        let reading = newest(rt, reader, &mut self.front, self.note);
        let answered = answer_at(reading.get(), &mut self.scratch, first, second, answer);
        self.reader = Some(reading.leave());
        answered
    }
}

// What the caller's function answers at the state of the copies.
fn answer_at<A, B, T, J: Naming, F: FnOnce(&DeskCopy, &mut Scratch, &mut A, &mut B) -> T>(
    copies: &Published<J>,
    scratch: &mut Scratch,
    first: &mut A,
    second: &mut B,
    answer: F,
) -> T
    requires there { IsSome (latest copies.now) }
    requires callable { F.IsAlwaysCallable answer }
    ensures { IfSome (latest copies.now)
        (λ desk. AnswersAt F.FnOnce answer desk first.old second.old result first.new second.new) }
{
    let shown = copies.latest.as_ref().unwrap();
    lend(shown.desk(), scratch, first, second, answer)
}

// What it answers at this state.
fn lend<A, B, T, F: FnOnce(&DeskCopy, &mut Scratch, &mut A, &mut B) -> T>(
    desk: &DeskCopy,
    scratch: &mut Scratch,
    first: &mut A,
    second: &mut B,
    answer: F,
) -> T
    requires { F.IsAlwaysCallable answer }
    ensures { AnswersAt F.FnOnce answer desk.now first.old second.old result first.new second.new }
{
    answer(desk, scratch, first, second)
}
