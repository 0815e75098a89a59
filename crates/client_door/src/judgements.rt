use bucket_eval::Cause;
use cynara_keys::{Kind, Question};

/// What was decided of a check: the commit of the policies, the kind of the agent that gave the answer, or none where the
/// policies gave it, and whether it is ALLOW.
#[derive(Clone, Copy, Debug, PartialEq, Eq)]
pub struct Decision {
    pub commit: u64,
    pub agent: Option<Kind>,
    pub allowed: bool,
}

/// A check that was decided: what was asked, what was decided, and the cause, the policy or fallback that decided it or that
/// left it to the agent.
#[derive(Debug, Drop)]
pub struct Judgement {
    pub question: Question,
    pub decision: Decision,
    pub cause: Cause,
}
