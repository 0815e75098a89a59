// The calls that a connection of an agent makes on a hall.
ghost use Rattle.std.specs.Prelude.{◌≡◌, ◌∷◌, [], List, Option, IsTrue};
ghost use Rattle.cynara_keys.specs.PolicyResult.{is_agent};
ghost use Rattle.link_ports.specs.Told.{KeepsTold};
ghost use Rattle.server_hall.specs.Tally.{Tally, after_join, after_next, after_answer, after_look, after_part};
ghost use Rattle.server_hall.specs.Told.{AppendsCalls};
ghost use Rattle.server_hall.specs.Found.{marks_after_next, CountsNext};
ghost use Rattle.server_hall.specs.declared.calls.HallCall as call;

use crate::hearing::HeardAnswer;
use agent_table::{AnswerRefusal, Asked, RegisterRefusal};
use cynara_keys::Kind;
use link_ports::Link;
use server_hall::{Hall, NextRefusal};

/// A hall as an agent behind a link of this type may use it. What is bound by this alone can hand in no answer but one
/// whose frame came over such a link, each once, whether or not it returns. Each hall is such a hall.
pub trait AgentHall<L: Link> {
    /// How often each call was made, how often one found the hall stopped, and the last calls.
    ghost tally: { Self → Tally };

    /// The calls of `ask`, `join`, `next`, `answer` and `is_open`, in order, where the hall tells them.
    ghost calls: { Self → Option (List call.HallCall) };

    /// An agent comes for the kind, as at `Hall::join`.
    fn join(&mut self, kind: Kind) -> Result<(), RegisterRefusal>
        requires { IsTrue (is_agent kind.0) }
        ensures tally { tally self.new ≡ after_join (record { kind = kind; result = result }) (tally self.old) }
        ensures calls { AppendsCalls (calls self.old)
            (call.HallCall.Join (record { kind = kind; result = result }) ∷ []) (calls self.new) };

    /// Waits until there is a question for the agent of the kind, as `Hall::next` does.
    fn next(&mut self, kind: Kind, link: &mut L) -> Result<Asked, NextRefusal>
        requires { IsTrue (is_agent kind.0) }
        ensures tally { tally self.new ≡ after_next (record { kind = kind; result = result }) (tally self.old) }
        ensures calls { AppendsCalls (calls self.old)
            (call.HallCall.Next (record { kind = kind; result = result }) ∷ []) (calls self.new) }
        ensures kept { KeepsTold (L.traffic link.old) (L.traffic link.new) }
        ensures marks { L.marks link.new ≡ marks_after_next result (L.marks link.old) }
        ensures faults { CountsNext result (L.faults link.old) (L.faults link.new) };

    /// Takes an answer that was heard of the agent of the kind, as `Hall::answer` does.
    fn answer(&mut self, kind: Kind, heard: HeardAnswer<L>) -> Result<(), AnswerRefusal>
        requires { IsTrue (is_agent kind.0) }
        ensures tally { tally self.new ≡ after_answer (record {
          kind = kind;
          number = heard.number;
          allowed = heard.allowed;
          result = result;
        }) (tally self.old) }
        ensures calls { AppendsCalls (calls self.old) (call.HallCall.Answer (record {
          kind = kind;
          number = heard.number;
          allowed = heard.allowed;
          result = result;
        }) ∷ []) (calls self.new) };

    /// Whether the question of the number still waits for its answer, as at `Hall::is_open`.
    fn is_open(&mut self, number: u32) -> bool
        ensures tally { tally self.new ≡ after_look (record { number = number; «open» = result }) (tally self.old) }
        ensures calls { AppendsCalls (calls self.old) (call.HallCall.Look number result ∷ []) (calls self.new) };

    /// The agent of the kind leaves.
    fn part(&mut self, kind: Kind)
        requires { IsTrue (is_agent kind.0) }
        ensures tally { tally self.new ≡ after_part kind (tally self.old) }
        ensures calls { calls self.new ≡ calls self.old };
}

impl<L: Link, A: Hall> AgentHall<L> for A {
    ghost tally = { λ hall. A.tally hall };

    ghost calls = { λ hall. A.calls hall };

    fn join(&mut self, kind: Kind) -> Result<(), RegisterRefusal> {
        Hall::join(self, kind)
    }

    fn next(&mut self, kind: Kind, link: &mut L) -> Result<Asked, NextRefusal> {
        Hall::next(self, kind, link)
    }

    fn answer(&mut self, kind: Kind, heard: HeardAnswer<L>) -> Result<(), AnswerRefusal>
        requires { IsTrue (is_agent kind.0) }
        ensures tally { A.tally self.new ≡ after_answer (record {
          kind = kind;
          number = heard.number;
          allowed = heard.allowed;
          result = result;
        }) (A.tally self.old) }
        ensures calls { AppendsCalls (A.calls self.old) (call.HallCall.Answer (record {
          kind = kind;
          number = heard.number;
          allowed = heard.allowed;
          result = result;
        }) ∷ []) (A.calls self.new) }
    {
        let given = heard.given();
        Hall::answer(self, kind, given.number, given.allowed)
    }

    fn is_open(&mut self, number: u32) -> bool {
        Hall::is_open(self, number)
    }

    fn part(&mut self, kind: Kind) {
        Hall::part(self, kind);
    }
}
