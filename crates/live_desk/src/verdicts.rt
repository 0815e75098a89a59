ghost use Rattle.std.specs.Prelude.{◌≡◌};
ghost use Rattle.bucket_eval.specs.Found.{answer_of};
ghost use Rattle.bucket_eval.specs.Lent.{outcome_lent};

use bucket_eval::{BorrowedAnswer, Verdict};

/// An answer whose texts stand in a published state, and the commit of that state.
#[derive(Clone, Copy)]
pub struct BorrowedVerdict<'a> {
    pub commit: u64,
    pub answer: BorrowedAnswer<'a>,
}

impl<'a> BorrowedVerdict<'a> {
    /// The same verdict, by value. Takes no memory.
    pub fn to_verdict(&self) -> Verdict
        ensures commit { result.commit ≡ self.now.commit }
        ensures answer { result.answer ≡ answer_of (outcome_lent self.now.answer) }
    {
        Verdict {
            commit: self.commit,
            answer: self.answer.to_answer(),
        }
    }
}
