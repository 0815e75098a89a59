// What a service answers an administrator.
ghost use Rattle.std.specs.Prelude.{◌≡◌, Ok};
ghost use Rattle.ctl_door.specs.Replies.{AsksIfRoom, Asks, check_of, verdict_by, verdict_in, listed, replies_by};

use crate::refusals::{DoorRefusal, of_client};
use admin_client::AdminLink;
use bucket_eval::Verdict;
use cynara_keys::{BucketName, Question};
use link_ports::Dial;
use std::alloc::Global;
use wire_messages::Message;

/// What the root bucket of the service answers to the question, with the buckets that it points to: the verdict of the
/// reply to this very question. `Refused` where the service gave no verdict. The link is given back. It may wait.
pub fn verdict_of<N: Dial>(
    alloc: Global,
    question: &Question,
    dial: &mut N,
) -> Result<Verdict, DoorRefusal>
    ensures { AsksIfRoom N.Link.faults N.Link.marks N.Link.traffic N.faults N.dials N.given_back
        (check_of question.now) (λ heard result. result ≡ verdict_by heard) result dial.old dial.new }
{
    let question = match question.copy() {
        Ok(question) => question,
        Err(error) => return Err(DoorRefusal::Memory(error)),
    };
    let message = Message::AdminCheck {
        bucket: BucketName::root(alloc),
        recursive: true,
        question,
    };
    let replies = replies_to(alloc, &message, dial);
    drop(message);
    match replies {
        Ok(replies) => judged(replies),
        Err(refusal) => Err(refusal),
    }
}

fn judged(replies: Vec<Message>) -> Result<Verdict, DoorRefusal>
    ensures { result ≡ verdict_in replies.items }
{
    let verdict = verdict_in(&replies);
    drop(replies);
    verdict
}

fn verdict_in(replies: &[Message]) -> Result<Verdict, DoorRefusal>
    ensures { result ≡ verdict_in replies.now }
{
    match replies.first() {
        Some(Message::Judged { verdict }) => Ok(verdict.verdict()),
        _ => Err(DoorRefusal::Refused),
    }
}

/// What the service replies to the message. The link is given back. It may wait.
pub(crate) fn replies_to<N: Dial>(
    alloc: Global,
    message: &Message,
    dial: &mut N,
) -> Result<Vec<Message>, DoorRefusal>
    ensures { Asks N.Link.faults N.Link.marks N.Link.traffic N.faults N.dials N.given_back
        message.now (λ heard. listed (λ replies. replies.items) result ≡ replies_by heard) dial.old dial.new }
{
    let mut client = AdminLink::new(alloc);
    let replies = client.send(dial, message);
    client.leave(dial);
    match replies {
        Ok(replies) => Ok(replies),
        Err(refusal) => Err(of_client(refusal)),
    }
}
