ghost use Rattle.std.specs.Prelude.{◌≡◌, ◌<◌, ◌∷◌, [], List, Option, Some, false, IsTrue, IfOk, IfErr, OnErr};
ghost use mathlib.Core.List.{IsPrefix};
ghost use Rattle.cynara_keys.specs.PolicyResult.{is_agent};
ghost use Rattle.link_ports.specs.Told.{KeepsTold};
ghost use Rattle.live_desk.specs.History.{last_commit};
ghost use Rattle.live_roll.specs.Events.{HasHung};
ghost use Rattle.live_desk.specs.Seat.{EntersAt};
ghost use Rattle.server_hall.specs.Tally.{Tally, after_enter, after_leave, IsRaised, after_hang, after_ask, after_join};
ghost use Rattle.server_hall.specs.Tally.{after_next, after_answer, after_look};
ghost use Rattle.server_hall.specs.Tally.{after_part, after_stop, IsNamedForItself};
ghost use Rattle.server_hall.specs.Told.{AppendsCalls};
ghost use Rattle.server_hall.specs.Found.{marks_after_ask, CountsAsk, marks_after_next, CountsNext};
ghost use Rattle.agent_table.specs.Table.{KindsRise};
ghost use Rattle.server_hall.specs.Service.{ServiceTold, told_by};
ghost use Rattle.server_hall.specs.declared.calls.HallCall as call;

use crate::{AskRefusal, NextRefusal, ServiceView};
use agent_table::{AnswerRefusal, Asked, RegisterRefusal, Taken};
use cynara_keys::{Kind, Metadata, Question};
use link_ports::{HangEnd, Link};
use live_desk::{Event, Events, Front, Naming, Publisher, Seat};
use live_roll::{Left, Stopped};
use std::alloc::{AllocError, Global};

/// What all connections of a service share: the roll of the connections that a commit has to hang up, and the questions
/// to agents. A call may wait. Every hall tells its tally; it may tell the list of its calls of `ask`, `join`, `next`,
/// `answer` and `is_open`.
pub trait Hall {
    /// What hangs a connection of a client up.
    type End: HangEnd;

    /// Which service it is of: the names of the list of its published states, and of that of its roll's events.
    type List: Naming;

    /// How often each call was made, how often one found the hall stopped, and the last calls.
    ghost tally: { Self → Tally };

    /// The calls of `ask`, `join`, `next`, `answer` and `is_open`, in order, where the hall tells them.
    ghost calls: { Self → Option (List call.HallCall) };

    /// What it would tell of the service now, where the hall exposes that.
    ghost told: { Self → Option ServiceTold };

    /// A connection enters, in the place of the seat. The seat is told the commit at which it enters, which is
    /// answered, and the events of the roll up to this entry: no disconnect among them is for a later commit. Refuses
    /// `Stopped`; the end is then dropped, and the seat is as before.
    fn enter(&mut self, end: Self::End, seat: &mut Seat<Self::List>) -> Result<u64, Stopped>
        requires { Self.End.used end ≡ false }
        ensures tally { tally self.new ≡ after_enter result (tally self.old) }
        ensures calls { calls self.new ≡ calls self.old }
        ensures told { IfOk result (λ note. EntersAt note seat.old seat.new) }
        ensures untold { OnErr result (seat.new ≡ seat.old) };

    /// A connection leaves that entered at this commit in the place of this seat. `Hung` where a later commit has hung
    /// it up, and else `Stopped` where the service is stopped.
    fn leave(&mut self, seat: u32, entered: u64) -> Left
        requires { seat < 64 }
        ensures tally { tally self.new
            ≡ after_leave (record { seat = seat; entered = entered; left = result }) (tally self.old) }
        ensures calls { calls self.new ≡ calls self.old }
        ensures raised { IsRaised entered result };

    /// Hangs up each connection that entered before the last commit of the publisher. The front of the roll's events
    /// goes on, up to this disconnect.
    fn hang(
        &mut self,
        publisher: &Publisher<Self::List>,
        hangs: &mut Front<Event, Events<Self::List>>,
    )
        ensures tally { tally self.new ≡ after_hang (last_commit 0 publisher.now) (tally self.old) }
        ensures calls { calls self.new ≡ calls self.old }
        ensures begins { IsPrefix hangs.old hangs.new }
        ensures up_to { HasHung hangs.new (last_commit 0 publisher.now) };

    /// Puts a question to the agent of the kind, and waits for its answer: the number of the question, and the question
    /// that was found under it with the answer. Want of memory is `Put` of it. While it waits it looks each tenth of a
    /// second whether the asker's link is up. Where it is not, the question is taken away, and refused as `Withdrawn`.
    fn ask<L: Link>(
        &mut self,
        kind: Kind,
        question: Question,
        metadata: Metadata,
        link: &mut L,
    ) -> Result<(u32, Taken), AskRefusal>
        requires { IsTrue (is_agent kind.0) }
        ensures tally { tally self.new ≡ after_ask (record {
          kind = kind;
          question = question;
          metadata = metadata;
          result = result;
        }) (tally self.old) }
        ensures calls { AppendsCalls (calls self.old) (call.HallCall.Ask (record {
          kind = kind;
          question = question;
          metadata = metadata;
          result = result;
        }) ∷ []) (calls self.new) }
        ensures named { IfErr result IsNamedForItself }
        ensures kept { KeepsTold (L.traffic link.old) (L.traffic link.new) }
        ensures marks { L.marks link.new ≡ marks_after_ask result (L.marks link.old) }
        ensures faults { CountsAsk result (L.faults link.old) (L.faults link.new) };

    /// An agent comes for the kind. Refuses `Stopped`, `Taken` where the kind has an agent, and `Full` where as many
    /// kinds have one as may.
    fn join(&mut self, kind: Kind) -> Result<(), RegisterRefusal>
        requires { IsTrue (is_agent kind.0) }
        ensures tally { tally self.new ≡ after_join (record { kind = kind; result = result }) (tally self.old) }
        ensures calls { AppendsCalls (calls self.old)
            (call.HallCall.Join (record { kind = kind; result = result }) ∷ []) (calls self.new) };

    /// Waits until there is a question for the agent of the kind, and gives it. Refuses `Stopped`. While it waits it
    /// looks each tenth of a second whether the agent's link is up. Where it is not, the agent has `Left`.
    fn next<L: Link>(&mut self, kind: Kind, link: &mut L) -> Result<Asked, NextRefusal>
        requires { IsTrue (is_agent kind.0) }
        ensures tally { tally self.new ≡ after_next (record { kind = kind; result = result }) (tally self.old) }
        ensures calls { AppendsCalls (calls self.old)
            (call.HallCall.Next (record { kind = kind; result = result }) ∷ []) (calls self.new) }
        ensures kept { KeepsTold (L.traffic link.old) (L.traffic link.new) }
        ensures marks { L.marks link.new ≡ marks_after_next result (L.marks link.old) }
        ensures faults { CountsNext result (L.faults link.old) (L.faults link.new) };

    /// Takes the answer of the agent of the kind to the question of the number. Refuses it where no such question waits
    /// for it.
    fn answer(&mut self, kind: Kind, number: u32, allowed: bool) -> Result<(), AnswerRefusal>
        requires { IsTrue (is_agent kind.0) }
        ensures tally { tally self.new ≡ after_answer (record {
          kind = kind;
          number = number;
          allowed = allowed;
          result = result;
        }) (tally self.old) }
        ensures calls { AppendsCalls (calls self.old) (call.HallCall.Answer (record {
          kind = kind;
          number = number;
          allowed = allowed;
          result = result;
        }) ∷ []) (calls self.new) };

    /// Whether the question of the number still waits for its answer: it is not answered, was not taken away, its agent
    /// is still there, and the service is not stopped.
    fn is_open(&mut self, number: u32) -> bool
        ensures tally { tally self.new ≡ after_look (record { number = number; «open» = result }) (tally self.old) }
        ensures calls { AppendsCalls (calls self.old) (call.HallCall.Look number result ∷ []) (calls self.new) };

    /// The agent of the kind leaves.
    fn part(&mut self, kind: Kind)
        requires { IsTrue (is_agent kind.0) }
        ensures tally { tally self.new ≡ after_part kind (tally self.old) }
        ensures calls { calls self.new ≡ calls self.old };

    /// What the service tells of itself: the kinds that have an agent, and how many workers serve clients. Changes
    /// nothing: neither the table nor the roll, and it counts no call. Fails for want of memory alone.
    fn service(&self, alloc: Global) -> Result<ServiceView, AllocError>
        ensures told { (told_now : ServiceTold) → told self.now ≡ Some told_now
            → IfOk result (λ view. told_by view ≡ told_now) }
        ensures rising { IfOk result (λ view. KindsRise view.kinds.items) };

    /// The service stops: nobody enters or joins any more, and nobody waits for an answer.
    fn stop(&mut self)
        ensures tally { tally self.new ≡ after_stop (tally self.old) }
        ensures calls { calls self.new ≡ calls self.old };
}
