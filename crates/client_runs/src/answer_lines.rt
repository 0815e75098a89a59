// The line of what a check is answered.
ghost use Rattle.std.specs.Prelude.{Ok, Err};
ghost use Rattle.line_answers.specs.Answers.{answer_text};
ghost use Rattle.client_runs.specs.AnswerLine.{GivesText, GivesLine, verdict_line};

use bucket_eval::Verdict;
use cynara_client::{Checked, ClientRefusal};
use desk_ports::Bytes;
use line_answers::{LineAnswer, print};
use run_endings::Ending;
use std::alloc::Global;

/// The line of the answer, or how a run ends without one.
pub(crate) fn answer_line(
    alloc: Global,
    answer: &Result<Checked, ClientRefusal>,
) -> Result<Bytes, Ending>
    ensures { GivesLine answer.now result }
{
    match answer {
        Ok(checked) => checked_line(alloc, checked),
        Err(refusal) => refusal_line(alloc, refusal),
    }
}

fn checked_line(alloc: Global, checked: &Checked) -> Result<Bytes, Ending>
    ensures { GivesLine (Ok checked.now) result }
{
    match checked {
        Checked::Judged(verdict) => verdict_text(alloc, verdict),
        Checked::FromAgent {
            commit,
            kind,
            number,
            allowed,
        } => {
            let answer = LineAnswer::FromAgent {
                commit: *commit,
                allowed: *allowed,
                kind: *kind,
                number: *number,
            };
            printed(alloc, &answer)
        }
    }
}

fn verdict_text(alloc: Global, verdict: &Verdict) -> Result<Bytes, Ending>
    ensures { GivesText (verdict_line verdict.now) result }
{
    let answer = &verdict.answer;
    match &answer.cause.row {
        Some(row) => {
            let text = LineAnswer::ByPolicy {
                commit: verdict.commit,
                bucket: answer.cause.bucket.as_slice(),
                kind: answer.kind,
                metadata: answer.metadata.as_slice(),
                client: row.client.as_slice(),
                user: row.user.as_slice(),
                privilege: row.privilege.as_slice(),
            };
            printed(alloc, &text)
        }
        None => {
            let text = LineAnswer::ByFallback {
                commit: verdict.commit,
                bucket: answer.cause.bucket.as_slice(),
                kind: answer.kind,
                metadata: answer.metadata.as_slice(),
            };
            printed(alloc, &text)
        }
    }
}

// The line of what the service refused, or how a run ends where there is none.
fn refusal_line(alloc: Global, refusal: &ClientRefusal) -> Result<Bytes, Ending>
    ensures { GivesLine (Err refusal.now) result }
{
    match refusal {
        ClientRefusal::NotResolved { commit, kind } => printed(
            alloc,
            &LineAnswer::NotResolved {
                commit: *commit,
                kind: *kind,
            },
        ),
        ClientRefusal::NoAgent { commit, kind } => printed(
            alloc,
            &LineAnswer::NoAgent {
                commit: *commit,
                kind: *kind,
            },
        ),
        ClientRefusal::AgentGone { commit, number } => printed(
            alloc,
            &LineAnswer::AgentGone {
                commit: *commit,
                number: *number,
            },
        ),
        ClientRefusal::AgentFull { commit, kind, most } => printed(
            alloc,
            &LineAnswer::AgentFull {
                commit: *commit,
                kind: *kind,
                most: *most,
            },
        ),
        ClientRefusal::Unavailable => Err(Ending::Net),
        ClientRefusal::Older { .. } => Err(Ending::Reply),
        ClientRefusal::BadReply(_) => Err(Ending::Reply),
        ClientRefusal::Memory(_) => Err(Ending::Memory),
    }
}

fn printed(alloc: Global, answer: &LineAnswer<'_>) -> Result<Bytes, Ending>
    ensures { GivesText (answer_text answer.now) result }
{
    let mut line = Bytes::new(alloc);
    match print(answer, &mut line) {
        Ok(()) => Ok(line),
        Err(_) => Err(Ending::Memory),
    }
}
