use crate::copies::all_changes;
use cynara_keys::{BucketName, Key, PolicyResult};
use std::alloc::AllocError;
use std::marker::Model;

/// A change of one policy.
#[derive(Debug, Drop)]
pub enum Change {
    /// The bucket has a policy with this key and result, instead of any with this key.
    Set {
        bucket: BucketName,
        key: Key,
        result: PolicyResult,
    },
    /// The bucket has no policy with this key.
    Delete {
        bucket: BucketName,
        key: Key,
    },
}

/// A list of changes.
#[derive(Debug, Drop)]
pub struct Changes {
    list: Vec<Change>,
}

impl Model for Changes {
    ghost use Rattle.std.specs.Prelude.{List};
    ghost use Rattle.bucket_store.specs.declared.policy_changes.Change.{Change};

    ghost Value = { List Change };

    ghost view = { λ changes. changes.list.items };
}

ghost use Rattle.std.specs.Prelude.{◌≡◌, IfOk};

impl Changes {
    /// The changes, in their order. Takes no memory.
    pub fn of(list: Vec<Change>) -> Changes
        ensures { result ≡ list.items }
    {
        Changes { list }
    }

    /// The changes, in their order.
    pub fn as_slice(&self) -> &[Change]
        ensures { result.now ≡ self.now }
    {
        &self.list
    }

    /// Equal changes, which share the names' bytes.
    pub fn copy(&self) -> Result<Changes, AllocError>
        ensures { IfOk result (λ copy. copy ≡ self.now) }
    {
        Ok(Changes {
            list: all_changes(*self.list.allocator(), &self.list)?,
        })
    }
}

impl Change {
    /// An equal change, which shares the names' bytes.
    pub fn copy(&self) -> Result<Change, AllocError>
        ensures { IfOk result (λ copy. copy ≡ self.now) }
    {
        match self {
            Change::Set {
                bucket,
                key,
                result: outcome,
            } => Ok(Change::Set {
                bucket: bucket.copy()?,
                key: key.copy()?,
                result: outcome.copy()?,
            }),
            Change::Delete { bucket, key } => Ok(Change::Delete {
                bucket: bucket.copy()?,
                key: key.copy()?,
            }),
        }
    }
}
