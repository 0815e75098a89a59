// The message that a step of a script is sent as.
ghost use Rattle.std.specs.Prelude.{◌≡◌, IfOk};
ghost use Rattle.admin_runs.specs.StepMessage.{message_for};

use cynara_keys::{BorrowedQuestion, BucketName, Question};
use line_script::Step;
use std::alloc::{AllocError, Global};
use wire_messages::{Message, message_of};

/// The message of a step; `None` exactly for one that asks for nothing, and for what no script for a service asks for.
pub(crate) fn message_of_step(alloc: Global, step: &Step<'_>) -> Result<Option<Message>, AllocError>
    ensures { IfOk result (λ message. message ≡ message_for step.now) }
{
    match step {
        Step::Command(command) => Ok(Some(message_of(command.get())?)),
        Step::List { bucket, filter } => Ok(Some(Message::Listing {
            bucket: bucket.copy()?,
            filter: filter.get().copy()?,
        })),
        Step::Check(question) => Ok(Some(Message::AdminCheck {
            bucket: BucketName::root(alloc),
            recursive: true,
            question: owned(alloc, question)?,
        })),
        Step::From {
            bucket,
            deep,
            question,
        } => Ok(Some(Message::AdminCheck {
            bucket: bucket.copy()?,
            recursive: *deep,
            question: owned(alloc, question)?,
        })),
        Step::Stop => Ok(Some(Message::Stop)),
        _ => Ok(None),
    }
}

fn owned(alloc: Global, question: &BorrowedQuestion<'_>) -> Result<Question, AllocError>
    ensures { IfOk result (λ owned. owned ≡ question.now) }
{
    Question::of(
        alloc,
        question.client(),
        question.user(),
        question.privilege(),
    )
}
