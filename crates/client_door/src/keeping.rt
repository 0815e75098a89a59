ghost use Rattle.std.specs.Prelude.{◌≡◌};
ghost use Rattle.std.specs.Option.{option_map};
ghost use Rattle.bucket_eval.specs.Found.{answer_of, row_of};
ghost use Rattle.bucket_eval.specs.Lent.{outcome_lent};
ghost use Rattle.bucket_eval.specs.declared.answers.Cause.{Cause as CauseTold};

use bucket_eval::{BorrowedAnswer, Cause, Row};
use cynara_keys::{Key, Short};

/// What is kept of the cause of an answer, whose texts are lent, until the check is noted.
pub trait Keeps: Drop {
    /// Whether it tells this cause.
    ghost tells: { Self → CauseTold → Type 0 };

    /// What is kept of an answer. Takes no memory.
    fn of(answer: &BorrowedAnswer<'_>) -> Self
        ensures { tells result (answer_of (outcome_lent answer.now)).cause };
}

/// Nothing is kept, since nothing is recorded.
#[derive(Drop)]
pub struct NoCause;

impl Keeps for NoCause {
    ghost tells = { λ kept cause. Unit {0} };

    fn of(_answer: &BorrowedAnswer<'_>) -> NoCause {
        NoCause
    }
}

impl Keeps for Cause {
    ghost use Rattle.std.specs.Prelude.{◌≡◌};

    ghost tells = { λ kept cause. kept ≡ cause };

    fn of(answer: &BorrowedAnswer<'_>) -> Cause {
        Cause {
            bucket: Short::of(answer.bucket.as_slice()),
            row: row_lent(answer.key),
        }
    }
}

// The texts of the key, if there is one.
fn row_lent(key: Option<&Key>) -> Option<Row>
    ensures { result ≡ option_map (λ key. row_of key.now) key.entry }
{
    match key {
        Some(key) => Some(row_of(key)),
        None => None,
    }
}

fn row_of(key: &Key) -> Row
    ensures { result ≡ row_of key.now }
{
    Row {
        client: Short::of(key.client()),
        user: Short::of(key.user()),
        privilege: Short::of(key.privilege()),
    }
}
