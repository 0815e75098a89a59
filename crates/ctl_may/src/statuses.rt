// The status of an answer.
ghost use Rattle.std.specs.Prelude.{◌≡◌, Result};
ghost use Rattle.cynara_client.specs.declared.refusals.Checked as checked;
ghost use Rattle.cynara_client.specs.declared.refusals.ClientRefusal as refused;
ghost use Rattle.ctl_may.specs.Status as word;

use cynara_client::{Checked, ClientRefusal};
use cynara_keys::Kind;

/// The status of a question that is allowed.
pub const ALLOWED: u8 = 0;

/// The status of a question that is denied.
pub const DENIED: u8 = 1;

/// The status of a question that nobody decided: an agent would have to be asked, and did not answer.
pub const UNDECIDED: u8 = 2;

/// The status of a question that was not asked: no service, no answer in time, a wrong reply, or want of memory.
pub const NOT_ASKED: u8 = 3;

/// The status that the answer has.
pub(crate) fn status_of(answer: &Result<Checked, ClientRefusal>) -> u8
    ensures { result ≡ word.status_of answer.now }
{
    match answer {
        Ok(Checked::Judged(verdict)) => status_of_kind(verdict.answer.kind),
        Ok(Checked::FromAgent { allowed, .. }) => { if *allowed { ALLOWED } else { DENIED } }
        Err(refusal) => status_of_refusal(refusal),
    }
}

fn status_of_kind(kind: Kind) -> u8
    ensures { result ≡ word.status_of_kind kind.0 }
{
    if kind == Kind::ALLOW {
        return ALLOWED;
    }
    if kind == Kind::DENY {
        return DENIED;
    }
    UNDECIDED
}

fn status_of_refusal(refusal: &ClientRefusal) -> u8
    ensures { result ≡ word.status_of (Result.Err refusal.now) }
{
    match refusal {
        ClientRefusal::NotResolved { .. } => UNDECIDED,
        ClientRefusal::NoAgent { .. } => UNDECIDED,
        ClientRefusal::AgentGone { .. } => UNDECIDED,
        ClientRefusal::AgentFull { .. } => UNDECIDED,
        ClientRefusal::Unavailable => NOT_ASKED,
        ClientRefusal::Older { .. } => NOT_ASKED,
        ClientRefusal::BadReply(_) => NOT_ASKED,
        ClientRefusal::Memory(_) => NOT_ASKED,
    }
}

/// Status 0 is that of an answer that allows, and of no other. The function does nothing; its clause is the law.
pub fn zero_allows()
    ensures { (answer : Result checked.Checked refused.ClientRefusal) → word.status_of answer ≡ 0 → word.Allows answer }
{}
