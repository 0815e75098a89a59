// Whether a service answers.
ghost use Rattle.std.specs.Prelude.{◌≡◌, Ok, Err, if◌then◌else◌};
ghost use Rattle.ctl_door.specs.Replies.{Asks};
ghost use Rattle.ctl_door.specs.Answering.{Answers, Checks, fault_of, as_result};
ghost use Rattle.ctl_door.specs.Answering.{probe, probe_listing, listing_by, is_list};
ghost use Rattle.ctl_door.specs.declared.refusals.DoorRefusal.TheVariants.{Refused as IsRefused};

use crate::asking::replies_to;
use crate::refusals::DoorRefusal;
use client_runs::ask_once;
use cynara_client::{Checked, ClientRefusal};
use cynara_keys::{BucketName, Filter, FilterField, Name, Question};
use link_ports::Dial;
use std::alloc::{AllocError, Global};
use wire_messages::Message;

/// The name that is asked about. No policy has to name it.
const PROBE: &[u8] = b"privctl";

/// Whether the service answers a check, for which no agent is asked, and a listing. What it refuses of the check is an
/// answer too. Else why not: of a check that was not answered no listing is asked for behind it. It may wait.
pub fn answers<N: Dial>(alloc: Global, dial: &mut N) -> Result<(), DoorRefusal>
    ensures { Answers N.Link.faults N.Link.marks N.Link.traffic N.faults N.dials N.given_back result dial.old dial.new }
{
    let Ok(name) = Name::read(alloc, PROBE) else {
        return Err(DoorRefusal::Memory(AllocError));
    };
    match answers_check(alloc, &name, dial) {
        Ok(()) => answers_listing(alloc, name, dial),
        Err(refusal) => Err(refusal),
    }
}

fn answers_check<N: Dial>(alloc: Global, name: &Name, dial: &mut N) -> Result<(), DoorRefusal>
    requires { name.now ≡ probe }
    ensures { Checks N.Link.faults N.Link.marks N.Link.traffic N.faults N.dials N.given_back result dial.old dial.new }
{
    let question = match Question::of(alloc, name.as_slice(), name.as_slice(), name.as_slice()) {
        Ok(question) => question,
        Err(error) => return Err(DoorRefusal::Memory(error)),
    };
    let answer = ask_once(alloc, name, &question, true, dial);
    unless_answered(answer)
}

// What the service refuses is an answer too.
fn unless_answered(answer: Result<Checked, ClientRefusal>) -> Result<(), DoorRefusal>
    ensures { result ≡ as_result (fault_of answer) }
{
    let refusal = match answer {
        Ok(_) => return Ok(()),
        Err(refusal) => refusal,
    };
    match refusal {
        ClientRefusal::Unavailable => Err(DoorRefusal::Unavailable),
        ClientRefusal::BadReply(fault) => Err(DoorRefusal::BadReply(fault)),
        ClientRefusal::Older { .. } => Err(DoorRefusal::NoState),
        ClientRefusal::Memory(error) => Err(DoorRefusal::Memory(error)),
        ClientRefusal::NotResolved { .. }
        | ClientRefusal::NoAgent { .. }
        | ClientRefusal::AgentGone { .. }
        | ClientRefusal::AgentFull { .. } => Ok(()),
    }
}

fn answers_listing<N: Dial>(alloc: Global, name: Name, dial: &mut N) -> Result<(), DoorRefusal>
    requires { name ≡ probe }
    ensures { Asks N.Link.faults N.Link.marks N.Link.traffic N.faults N.dials N.given_back
        probe_listing (λ heard. result ≡ listing_by heard) dial.old dial.new }
{
    let message = Message::Listing {
        bucket: BucketName::root(alloc),
        filter: Filter {
            client: FilterField::Exact(name),
            user: FilterField::Every,
            privilege: FilterField::Every,
        },
    };
    let replies = replies_to(alloc, &message, dial);
    drop(message);
    match replies {
        Ok(replies) => listed(replies),
        Err(refusal) => Err(refusal),
    }
}

fn listed(replies: Vec<Message>) -> Result<(), DoorRefusal>
    ensures { result ≡ (if is_list replies.items then Ok tt else Err IsRefused) }
{
    let is_list = is_list(&replies);
    drop(replies);
    if is_list {
        return Ok(());
    }
    Err(DoorRefusal::Refused)
}

// Whether the replies are the rows of a list and its end. A listing that is refused has one reply, which is none of
// them.
fn is_list(replies: &[Message]) -> bool
    ensures { result ≡ is_list replies.now }
{
    match replies.first() {
        Some(Message::ListRow { .. } | Message::ListEnd { .. }) => true,
        _ => false,
    }
}
