ghost use Rattle.std.specs.Prelude.{◌≡◌, ◌==◌};
ghost use Rattle.monitor_rule.specs.Entries.{entry_of};

use crate::moments::Moment;
use bucket_eval::{Cause, Verdict};
use cynara_keys::{Kind, Question, Short};

/// A check that a worker answered: its worker, how many entries of that worker came before it, the names that were
/// asked about, the commit of the answer, and whether the answer was ALLOW; when it was recorded, where the clock told;
/// the kind of the agent that gave the answer, if one did; and the policy or fallback that gave it, or that left it to
/// the agent.
#[derive(Clone, Copy, Debug, PartialEq, Eq)]
pub struct Entry {
    pub worker: u32,
    pub number: u64,
    pub client: Short,
    pub user: Short,
    pub privilege: Short,
    pub commit: u64,
    pub allowed: bool,
    pub time: Option<Moment>,
    pub agent: Option<Kind>,
    pub cause: Cause,
}

impl Entry {
    /// The entry of a worker, with this number, for a question and the verdict of the policies. Takes no memory.
    pub fn of(
        worker: u32,
        number: u64,
        time: Option<Moment>,
        question: &Question,
        verdict: &Verdict,
    ) -> Entry
        ensures { result ≡ entry_of worker number time question.now verdict.now }
    {
        Entry {
            worker,
            number,
            client: Short::of(question.client()),
            user: Short::of(question.user()),
            privilege: Short::of(question.privilege()),
            commit: verdict.commit,
            allowed: verdict.answer.kind == Kind::ALLOW,
            time,
            agent: None,
            cause: verdict.answer.cause,
        }
    }
}
