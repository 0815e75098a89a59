// The calls of the hall over locks that wait: for the answer of an agent, and for a question to one. While such a call
// waits it looks each tenth of a second whether the link is up of whoever made it.
ghost use Rattle.std.specs.Prelude.{◌≡◌, None, IsTrue, IfErr};
ghost use Rattle.std.specs.Sync.Mutex.{mutex_guard_value};
ghost use Rattle.cynara_keys.specs.PolicyResult.{is_agent};
ghost use Rattle.link_ports.specs.Told.{KeepsTold};
ghost use Rattle.agent_table.specs.OpenQuestion.{numbered};
ghost use Rattle.server_hall.specs.Tally.{IsNamedForItself};
ghost use Rattle.server_hall.specs.Found.{marks_after_ask, CountsAsk, marks_after_next, CountsNext};

use crate::locked::QuestionDesk;
use crate::table_calls::{Awaited, await_answer, give_next, put_question, withdraw_question};
use crate::{AskRefusal, NextRefusal};
use agent_table::{Asked, Questions, Taken};
use cynara_keys::{Kind, Metadata, Question};
use link_ports::Link;
use std::sync::{MutexGuard, Wait};
use std::time::{Clock, Duration};

/// How long a call waits before it looks at the link, in milliseconds.
const TICK: u64 = 100;

/// Puts a question, and waits for its answer. It has no limit of time of its own: the agent's connection ends where the
/// agent does not answer in time.
pub(crate) fn ask_at<R: Wait + Clock, L: Link>(
    rt: &R,
    questions: &QuestionDesk,
    kind: Kind,
    question: Question,
    metadata: Metadata,
    link: &mut L,
) -> Result<(u32, Taken), AskRefusal>
    requires { IsTrue (is_agent kind.0) }
    ensures named { IfErr result IsNamedForItself }
    ensures kept { KeepsTold (L.traffic link.old) (L.traffic link.new) }
    ensures marks { L.marks link.new ≡ marks_after_ask result (L.marks link.old) }
    ensures faults { CountsAsk result (L.faults link.old) (L.faults link.new) }
{
    let mut table = questions.table.lock(rt);
    let number = match put_question(&mut *table, kind, question, metadata) {
        Ok(number) => number,
        Err(refusal) => return Err(refusal),
    };
    questions.news.notify_all();
    let (table, outcome) = wait_for_answer(rt, questions, table, number, link);
    drop(table);
    outcome
}

// Waits for the answer to the question of the number, as long as the asker's link is up. At the end, under the lock,
// the table has the question no more.
#[tactic(auto, using(crate::proofs::Marks::marks_up, crate::proofs::Marks::marks_down))]
fn wait_for_answer<'a, R: Wait + Clock, L: Link>(
    rt: &R,
    questions: &'a QuestionDesk,
    table: MutexGuard<'a, Questions>,
    number: u32,
    link: &mut L,
) -> (MutexGuard<'a, Questions>, Result<(u32, Taken), AskRefusal>)
    ensures gone { numbered number (mutex_guard_value result.0).questions ≡ None }
    ensures named { IfErr result.1 IsNamedForItself }
    ensures kept { KeepsTold (L.traffic link.old) (L.traffic link.new) }
    ensures marks { L.marks link.new ≡ marks_after_ask result.1 (L.marks link.old) }
    ensures faults { CountsAsk result.1 (L.faults link.old) (L.faults link.new) }
{
    let mut table = table;
    for _ in rt.forever() {
        let tick = Duration::from_millis(TICK);
        table = questions
            .news
            .wait_timeout_while(rt, table, tick, |lent| lent.awaits(number))
            .0;
        match await_answer(&mut *table, number) {
            Awaited::Answered(taken) => return (table, Ok((number, taken))),
            Awaited::Refused(refusal) => return (table, Err(refusal)),
            Awaited::NotYet => {}
        }
        if !link.is_up() {
            withdraw_question(&mut *table, number);
            return (table, Err(AskRefusal::Withdrawn(number)));
        }
    }
    unreachable!()
}

/// Waits until there is a question for the agent of the kind, as long as the agent's link is up.
#[tactic(auto, using(crate::proofs::Marks::marks_up, crate::proofs::Marks::marks_down))]
pub(crate) fn next_at<R: Wait + Clock, L: Link>(
    rt: &R,
    questions: &QuestionDesk,
    kind: Kind,
    link: &mut L,
) -> Result<Asked, NextRefusal>
    requires { IsTrue (is_agent kind.0) }
    ensures kept { KeepsTold (L.traffic link.old) (L.traffic link.new) }
    ensures marks { L.marks link.new ≡ marks_after_next result (L.marks link.old) }
    ensures faults { CountsNext result (L.faults link.old) (L.faults link.new) }
{
    let mut table = questions.table.lock(rt);
    for _ in rt.forever() {
        match give_next(&mut *table, kind) {
            Ok(Some(asked)) => return Ok(asked),
            Ok(None) => {}
            Err(refusal) => return Err(refusal),
        }
        if !link.is_up() {
            return Err(NextRefusal::Left);
        }
        let tick = Duration::from_millis(TICK);
        table = questions.news.wait_timeout(rt, table, tick).0;
    }
    unreachable!()
}
