//! Refusals that lines answer.

ghost use Rattle.std.specs.Prelude.{◌≡◌, true, MatchResult};
ghost use Rattle.desk_state.specs.declared.refusals.Refusal.TheVariants.{Memory};
ghost use Rattle.line_answers.specs.Refusals.{names_a_rule};

use desk_state::Refusal;
use std::alloc::AllocError;

/// A refusal that names the rule which a command breaks. Want of memory is none, so no line answers it.
#[derive(Clone, Copy)]
pub struct RuleBroken<'a> {
    pub refusal: &'a Refusal,
    ghost names_a_rule: { names_a_rule refusal.now ≡ true },
}

impl<'a> RuleBroken<'a> {
    /// The refusal as an answer, or the want of memory that it is.
    pub fn of(refusal: &'a Refusal) -> Result<RuleBroken<'a>, AllocError>
        ensures { MatchResult result
            (λ broken. broken.refusal.now ≡ refusal.now)
            (λ error. refusal.now ≡ Memory error) }
    {
        match refusal {
            Refusal::Memory(error) => Err(*error),
            _ => Ok(RuleBroken { refusal }),
        }
    }
}
