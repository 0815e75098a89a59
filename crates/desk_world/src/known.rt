use bucket_eval::Verdict;
use cynara_keys::Question;

/// A verdict that a client keeps, with its question.
#[derive(Drop)]
pub struct Known {
    pub question: Question,
    pub verdict: Verdict,
}
