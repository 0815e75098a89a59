ghost use Rattle.std.specs.Prelude.{◌≡◌, IfOk, IsTrue, IsFalse};
ghost use Rattle.std.specs.List.Sorted.{IsStrictlySortedBy};
ghost use Rattle.bucket_store.specs.Order.{policy_cmp};
ghost use Rattle.bucket_store.specs.parts.OneBucket.{edited_by};

use crate::Change;
use crate::in_place::edit_all;
use cynara_keys::{BucketName, Policy, PolicyResult};
use std::alloc::{AllocError, Global};
use std::marker::Model;
use std::sync::Arc;

/// A bucket: its name, the result of a question that no policy of it decides, and its policies. Its owners share one
/// copy.
#[derive(Drop)]
pub struct Bucket {
    body: Arc<Body>,
}

#[derive(Drop)]
struct Body {
    name: BucketName,
    fallback: PolicyResult,
    policies: Vec<Policy>,
}

impl Model for Bucket {
    ghost use Rattle.bucket_store.specs.Bucket.{Bucket as Content};
    ghost use Rattle.std.specs.Arc.{arc_value};

    ghost Value = { Content };

    ghost view = { λ bucket. record {
      name = (arc_value bucket.body).name;
      fallback = (arc_value bucket.body).fallback;
      policies = (arc_value bucket.body).policies.items;
    } };
}

impl Bucket {
    /// A bucket of these parts.
    pub fn new(
        alloc: Global,
        name: BucketName,
        fallback: PolicyResult,
        policies: Vec<Policy>,
    ) -> Result<Bucket, AllocError>
        ensures { IfOk result
            (λ bucket. bucket ≡ record { name = name; fallback = fallback; policies = policies.items }) }
    {
        let body = Arc::new(
            alloc,
            Body {
                name,
                fallback,
                policies,
            },
        )?;
        Ok(Bucket { body })
    }

    /// The bucket's name.
    pub fn name(&self) -> &BucketName
        ensures { result.now ≡ self.now.name }
    {
        &self.body.name
    }

    /// The result of a question that no policy of the bucket decides: Cynara's default.
    pub fn fallback(&self) -> &PolicyResult
        ensures { result.now ≡ self.now.fallback }
    {
        &self.body.fallback
    }

    /// The bucket's policies.
    pub fn policies(&self) -> &[Policy]
        ensures { result.now ≡ self.now.policies }
    {
        &self.body.policies
    }

    /// The same bucket for one more owner.
    pub fn share(&self) -> Result<Bucket, AllocError>
        ensures { IfOk result (λ bucket. bucket ≡ self.now) }
    {
        let body = Arc::try_clone(&self.body)?;
        Ok(Bucket { body })
    }

    // Makes these changes of its policies, where nothing else shares the bucket and there is memory. Says whether it
    // did.
    pub(crate) fn edit(&mut self, changes: &[Change]) -> bool
        requires { IsStrictlySortedBy policy_cmp self.old.policies }
        ensures done { IsTrue result → self.new ≡ edited_by changes.now self.old }
        ensures kept { IsFalse result → self.new ≡ self.old }
    {
        let Some(body) = Arc::get_mut(&mut self.body) else {
            return false;
        };
        match edit_all(&mut body.policies, changes) {
            Ok(()) => true,
            Err(_) => false,
        }
    }
}
