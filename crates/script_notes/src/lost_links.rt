// Links of the layout that a command takes away.
ghost use Rattle.std.specs.Prelude.{◌≡◌};

use bucket_store::{Bucket, Change, Changes};
use cynara_keys::{BucketName, Filter, FilterField, Key, Kind, Policy};
use desk_ports::Sink;
use desk_state::{Command, Desk};
use run_endings::note_text;
use std::alloc::Global;

/// A link that `layout` puts: the policy of a bucket by which all questions go on to another one.
#[derive(Clone, Copy)]
struct Link {
    bucket: &'static str,
    target: &'static str,
    /// What follows where it is not there.
    loss: &'static str,
}

const OF_ROOT: Link = Link {
    bucket: ".",
    target: "MAIN",
    loss: "users and installs decide nothing",
};

const NOT_FOR_THEM: &str = "what ADMIN says is not asked for users of this type";

const OF_TYPES: [Link; 4] = [
    Link {
        bucket: "USER_TYPE_SYSTEM",
        target: "ADMIN",
        loss: NOT_FOR_THEM,
    },
    Link {
        bucket: "USER_TYPE_ADMIN",
        target: "ADMIN",
        loss: NOT_FOR_THEM,
    },
    Link {
        bucket: "USER_TYPE_NORMAL",
        target: "ADMIN",
        loss: NOT_FOR_THEM,
    },
    Link {
        bucket: "USER_TYPE_GUEST",
        target: "ADMIN",
        loss: NOT_FOR_THEM,
    },
];

/// Tells that the command, which was accepted, left a bucket of the layout without its link. The policy state is that
/// behind the command.
pub fn note_lost_link<K: Sink>(
    alloc: Global,
    number: u32,
    command: &Command,
    desk: &Desk,
    sink: &mut K,
)
    ensures taken { K.taken sink.new ≡ K.taken sink.old }
    ensures count { K.faults sink.new ≡ K.faults sink.old }
{
    if let Some(link) = lost_link(command, desk) {
        let Link {
            bucket,
            target,
            loss,
        } = link;
        let shown = if bucket == OF_ROOT.bucket {
            "the root bucket"
        } else {
            bucket
        };
        note_text(
            format!(in alloc;
                "privilege: line {number}: {shown} does not lead to {target} now, so {loss}; 'set {bucket} * * * bucket:{target}' links it again"
            ),
            sink,
        );
    }
}

// The first link that the command may have touched and that is not there.
fn lost_link(command: &Command, desk: &Desk) -> Option<Link> {
    match command {
        Command::SetPolicies { changes } => changes
            .as_slice()
            .iter()
            .find_map(|change| lost_by_change(change, desk)),
        Command::Erase { bucket, filter } => {
            if admits_link(filter) {
                lost_in(bucket, desk)
            } else {
                None
            }
        }
        _ => None,
    }
}

fn lost_by_change(change: &Change, desk: &Desk) -> Option<Link> {
    match change {
        Change::Set { bucket, key, .. } | Change::Delete { bucket, key } => {
            if is_of_all(key) {
                lost_in(bucket, desk)
            } else {
                None
            }
        }
    }
}

// The link of the bucket, where it has one that is not there.
fn lost_in(bucket: &BucketName, desk: &Desk) -> Option<Link> {
    let link = link_of(bucket.as_slice())?;
    let buckets = desk.database().buckets();
    let has_target = buckets
        .iter()
        .any(|other| other.name().as_slice() == link.target.as_bytes());
    if !has_target {
        return None;
    }
    let stands = buckets.iter().any(|other| other.name().as_slice() == bucket.as_slice()
        && has_link(other, link));
    if stands { None } else { Some(link) }
}

fn link_of(bucket: &[u8]) -> Option<Link> {
    if bucket.is_empty() {
        return Some(OF_ROOT);
    }
    OF_TYPES
        .iter()
        .copied()
        .find(|link| link.bucket.as_bytes() == bucket)
}

fn has_link(bucket: &Bucket, link: Link) -> bool {
    bucket.policies().iter().any(|policy| is_link(policy, link))
}

fn is_link(policy: &Policy, link: Link) -> bool {
    is_of_all(&policy.key)
        && policy.result.kind() == Kind::BUCKET
        && policy.result.metadata().as_slice() == link.target.as_bytes()
}

// Whether the key speaks of all questions.
fn is_of_all(key: &Key) -> bool {
    key.client() == b"*".as_slice()
        && key.user() == b"*".as_slice()
        && key.privilege() == b"*".as_slice()
}

fn admits_link(filter: &Filter) -> bool {
    admits_any(&filter.client) && admits_any(&filter.user) && admits_any(&filter.privilege)
}

fn admits_any(field: &FilterField) -> bool {
    !matches!(field, FilterField::Exact(_))
}
