// What the calls of a hall make of the table of questions that they are lent.
ghost use Rattle.std.specs.Prelude.{◌≡◌, false, None, IsTrue, IfOk, IfErr, OnOk, OnErr};
ghost use Rattle.cynara_keys.specs.PolicyResult.{is_agent};
ghost use Rattle.agent_table.specs.OpenQuestion.{numbered};
ghost use Rattle.agent_table.specs.Table.{after_put, taken_away};
ghost use Rattle.agent_table.specs.Refusals.{put_fault, take_reply, after_take};
ghost use Rattle.server_hall.specs.Tally.{IsNamedForItself};
ghost use Rattle.server_hall.specs.Found.{IsOfTheTable, IsOfTheQueue};
ghost use Rattle.server_hall.specs.Table.{RefusesAsk, awaited, IsGone, IsNamed};
ghost use Rattle.server_hall.specs.Table.{GivesNext, RefusesNext, table_after_next};

use crate::{AskRefusal, NextRefusal};
use agent_table::{Asked, PutRefusal, Questions, TakeRefusal, Taken};
use cynara_keys::{Kind, Metadata, Question};

/// What whoever waits for the answer to a question is told.
#[derive(Drop)]
pub enum Awaited {
    Answered(Taken),
    Refused(AskRefusal),
    NotYet,
}

/// Puts a question, as `Questions::put` does; a stopped table is `Stopped`.
pub fn put_question(
    table: &mut Questions,
    kind: Kind,
    question: Question,
    metadata: Metadata,
) -> Result<u32, AskRefusal>
    requires { IsTrue (is_agent kind.0) }
    ensures accepted { OnOk result (put_fault kind table.old ≡ None) }
    ensures number { IfOk result (λ number. number ≡ table.old.next) }
    ensures ok { OnOk result (table.new ≡ after_put kind question metadata table.old) }
    ensures refused { IfErr result (RefusesAsk (put_fault kind table.old)) }
    ensures err { OnErr result (table.new ≡ table.old) }
    ensures named { IfErr result IsNamedForItself }
    ensures own { IfErr result IsOfTheTable }
{
    match table.put(kind, question, metadata) {
        Ok(number) => Ok(number),
        Err(PutRefusal::Stopped) => Err(AskRefusal::Stopped),
        Err(PutRefusal::NoAgent(kind)) => Err(AskRefusal::Put(PutRefusal::NoAgent(kind))),
        Err(PutRefusal::Full) => Err(AskRefusal::Put(PutRefusal::Full)),
        Err(PutRefusal::Spent) => Err(AskRefusal::Put(PutRefusal::Spent)),
        Err(PutRefusal::Memory(error)) => Err(AskRefusal::Put(PutRefusal::Memory(error))),
    }
}

/// Takes the answer to the question of the number, as `Questions::take` does, if there is one yet.
#[tactic(auto, using(crate::proofs::Gone::numbered_without))]
pub fn await_answer(table: &mut Questions, number: u32) -> Awaited
    ensures answer { result ≡ awaited number (take_reply number table.old) }
    ensures table { table.new ≡ after_take (take_reply number table.old) number table.old }
    ensures gone { IsGone number result table.new.questions }
    ensures named { IsNamed result }
{
    match table.take(number) {
        Ok(taken) => Awaited::Answered(taken),
        Err(TakeRefusal::UnknownNumber(_)) => Awaited::Refused(AskRefusal::Lost(number)),
        Err(TakeRefusal::AgentGone(_)) => Awaited::Refused(AskRefusal::Gone(number)),
        Err(TakeRefusal::Stopped) => Awaited::Refused(AskRefusal::Stopped),
        Err(TakeRefusal::NotYet) => Awaited::NotYet,
    }
}

/// Takes the question of the number away, as `Questions::withdraw` does: nobody waits for its answer any more.
#[tactic(auto, using(crate::proofs::Gone::numbered_without))]
pub fn withdraw_question(table: &mut Questions, number: u32)
    ensures table { table.new ≡ taken_away number table.old }
    ensures gone { numbered number table.new.questions ≡ None }
{
    table.withdraw(number);
}

/// Gives the agent of the kind its next question, as `Questions::next` does, if one waits; a stopped table gives none.
pub fn give_next(table: &mut Questions, kind: Kind) -> Result<Option<Asked>, NextRefusal>
    requires { IsTrue (is_agent kind.0) }
    ensures asked { GivesNext kind.0 table.old result }
    ensures table { table.new ≡ table_after_next kind.0 result table.old }
    ensures stopped { IfErr result (λ refusal. RefusesNext table.old.stopped refusal) }
    ensures own { IfErr result IsOfTheQueue }
    ensures running { OnOk result (table.old.stopped ≡ false) }
{
    if table.is_stopped() {
        return Err(NextRefusal::Stopped);
    }
    match table.next(kind) {
        Ok(asked) => Ok(asked),
        Err(error) => Err(NextRefusal::Memory(error)),
    }
}
