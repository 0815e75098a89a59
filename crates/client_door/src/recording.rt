ghost use Rattle.std.specs.Prelude.{◌≡◌, Option, MatchResult};
ghost use Rattle.link_ports.specs.Told.{ChangesTold};
ghost use Rattle.client_door.specs.Recording.{Recording, Leads, with_noted, with_all_recorded};
ghost use Rattle.bucket_eval.specs.declared.answers.Cause.{Cause};

use crate::{Decision, Keeps, NoCause};
use cynara_keys::BorrowedQuestion;
use std::alloc::AllocError;

/// What the checks of a connection that were decided are recorded by: each is noted when its reply waits to be sent, and
/// recorded once the reply was sent.
pub trait Records {
    /// What is kept of a cause from the reading of the policies to the note.
    type Kept: Keeps;

    /// Whether it may be said of the recorder that since a start, the second one, it recorded so and that so much waits; or
    /// nothing is said of it.
    ghost fits: { Self → Self → Option Recording → Type 0 };

    /// Notes a check whose reply waits to be sent: its question, whose names are lent, what was decided, and what was kept of
    /// the cause. Fails for want of memory alone, and has then noted nothing.
    fn note(
        &mut self,
        question: &BorrowedQuestion<'_>,
        decision: Decision,
        kept: &Self::Kept,
    ) -> Result<(), AllocError>
        ensures { MatchResult result
            (λ _. (cause : Cause) → Self.Kept.tells kept.now cause
            → Leads (fits self.old) (fits self.new) (λ before after. ChangesTold before
            (with_noted (record { question = question.now; decision = decision; cause = cause })) after))
            (λ _. Leads (fits self.old) (fits self.new) (λ before after. after ≡ before)) };

    /// The replies to all checks that were noted were sent: records each of them, in order. It may wait.
    fn record_noted(&mut self)
        ensures { Leads (fits self.old) (fits self.new) (λ before after. ChangesTold before with_all_recorded after) };
}

/// Records nothing.
#[derive(Drop)]
pub(crate) struct Unrecorded;

impl Records for Unrecorded {
    type Kept = NoCause;

    ghost use Rattle.std.specs.Prelude.{◌≡◌, None};

    ghost fits = { λ recorder start told. told ≡ None };

    fn note(
        &mut self,
        _question: &BorrowedQuestion<'_>,
        _decision: Decision,
        _kept: &NoCause,
    ) -> Result<(), AllocError> {
        Ok(())
    }

    fn record_noted(&mut self) {}
}
