use desk_ports::Failed;
use std::alloc::AllocError;
use thiserror::Error;

/// Why no further line of a text was handed out.
#[derive(Clone, Copy, Debug, PartialEq, Eq, Error)]
pub enum ReadRefusal {
    /// The line with this number, from 1, is longer than a line of the text may be, or goes past the longest text.
    #[error("line {0} is too long, or goes past the longest text")]
    PastLimit(u32),
    /// A call of the source failed.
    #[error("the input could not be read")]
    Source,
    #[error("out of memory")]
    Memory(AllocError),
}

impl From<Failed> for ReadRefusal {
    ghost use Rattle.std.specs.Prelude.{◌≡◌};
    ghost use Rattle.text_lines.specs.declared.refusal.ReadRefusal.TheVariants.{Source};

    ghost from_gives = { λ _ refusal. refusal ≡ Source };

    fn from(_: Failed) -> ReadRefusal {
        ReadRefusal::Source
    }
}

impl From<AllocError> for ReadRefusal {
    ghost use Rattle.std.specs.Prelude.{◌≡◌};
    ghost use Rattle.text_lines.specs.declared.refusal.ReadRefusal.TheVariants.{Memory};

    ghost from_gives = { λ error refusal. refusal ≡ Memory error };

    fn from(error: AllocError) -> ReadRefusal {
        ReadRefusal::Memory(error)
    }
}
