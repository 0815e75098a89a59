ghost use Rattle.std.specs.Prelude.{◌≡◌, [], ◌↔◌, IfOk, IfErr, IsOk, IsTrue};
ghost use Rattle.cynara_keys.specs.PolicyResult as spec;
ghost use Rattle.cynara_keys.specs.PolicyResult.{may_carry};
ghost use Rattle.cynara_keys.specs.PolicyResult.{result_cmp, same_result};
ghost use Rattle.std.proofs.Common.{rules};
ghost use Rattle.std.specs.Ordering.{as_partial_cmp};
ghost use Rattle.std.specs.Cmp.{partial_order_from_own_ties};
ghost use Rattle.std.specs.Cmp.Rules.{comparing};

use crate::Metadata;
use crate::bucket_names::is_bucket_name;
use std::alloc::{AllocError, Global};
use std::cmp::Ordering;
use std::marker::Model;

/// What a result says: DENY, NONE, BUCKET, ALLOW, or a number from 2 to 65533, which is an agent's.
#[derive(Clone, Copy, Debug, PartialEq, Eq, PartialOrd, Ord)]
pub struct Kind(pub u16);

impl Kind {
    /// The use of the privilege is refused.
    pub const DENY: Kind = Kind(0);

    /// Nothing is decided: such a result is left out where results are weighed.
    pub const NONE: Kind = Kind(1);

    /// The bucket that the metadata names decides.
    pub const BUCKET: Kind = Kind(65534);

    /// The use of the privilege is granted.
    pub const ALLOW: Kind = Kind(65535);

    /// The least number of an agent.
    pub const FIRST_AGENT: Kind = Kind(2);

    /// The greatest number of an agent.
    pub const LAST_AGENT: Kind = Kind(65533);

    /// Whether an agent decides.
    pub fn is_agent(self) -> bool
        ensures { result ≡ spec.is_agent self.0 }
    {
        Kind::FIRST_AGENT <= self && self <= Kind::LAST_AGENT
    }

    /// Whether a result of this kind may have this metadata: none at DENY, NONE and ALLOW, at BUCKET a bucket's name,
    /// and any at an agent's number.
    pub fn may_carry(self, metadata: &[u8]) -> bool
        ensures { result ≡ may_carry self.0 metadata.now }
    {
        match self {
            Kind::DENY | Kind::NONE | Kind::ALLOW => metadata.is_empty(),
            Kind::BUCKET => is_bucket_name(metadata),
            _ => true,
        }
    }
}

/// What a policy decides: a kind, and metadata where the kind may have some. Results are ordered by kind, and then by
/// the bytes of the metadata.
#[derive(Debug, Drop)]
pub struct PolicyResult {
    kind: Kind,
    metadata: Metadata,
}

impl Model for PolicyResult {
    ghost use Rattle.std.specs.Prelude.{◌≡◌, true};
    ghost use Rattle.cynara_keys.specs.PolicyResult.{Ruling, may_carry};

    ghost Value = { Ruling };

    ghost view = { λ result. record { kind = result.kind.0; metadata = result.metadata } };

    ghost invariant = { λ result. may_carry result.kind.0 result.metadata ≡ true };
}

impl PolicyResult {
    /// A result of this kind with this metadata. Hands the metadata back exactly where the kind is DENY, NONE or ALLOW
    /// and the metadata is not empty, or where the kind is BUCKET and the metadata is no bucket's name. Takes no
    /// memory.
    pub fn of(kind: Kind, metadata: Metadata) -> Result<PolicyResult, Metadata>
        ensures result { IfOk result (λ made. made ≡ record { kind = kind.0; metadata = metadata }) }
        ensures accepted { IsOk result ↔ IsTrue (may_carry kind.0 metadata) }
        ensures handed_back { IfErr result (λ back. back ≡ metadata) }
    {
        if kind.may_carry(metadata.as_slice()) {
            Ok(PolicyResult { kind, metadata })
        } else {
            Err(metadata)
        }
    }

    /// A result of this kind without metadata. At BUCKET it points to the root bucket. Takes no memory.
    pub fn without_metadata(alloc: Global, kind: Kind) -> PolicyResult
        ensures { result ≡ record { kind = kind.0; metadata = [] } }
    {
        PolicyResult {
            kind,
            metadata: Metadata::empty(alloc),
        }
    }

    /// The kind of the result.
    pub fn kind(&self) -> Kind
        ensures { result.0 ≡ self.now.kind }
    {
        self.kind
    }

    /// The metadata of the result, empty where the kind has none.
    pub fn metadata(&self) -> &Metadata
        ensures metadata { result.now ≡ self.now.metadata }
        ensures carried { IsTrue (may_carry self.now.kind self.now.metadata) }
    {
        &self.metadata
    }

    /// An equal result, which shares the metadata's bytes. Refused only as `Metadata::copy` is.
    pub fn copy(&self) -> Result<PolicyResult, AllocError>
        ensures { IfOk result (λ copy. copy ≡ self.now) }
    {
        Ok(PolicyResult {
            kind: self.kind,
            metadata: self.metadata.copy()?,
        })
    }
}

impl PartialEq for PolicyResult {
    ghost eq = { same_result };

    ghost laws = { Prim.search (comparing, rules) };

    fn eq(&self, other: &PolicyResult) -> bool {
        self.kind == other.kind && self.metadata == other.metadata
    }
}

impl Eq for PolicyResult {
    ghost laws = { Prim.search (comparing, rules) };
}

impl PartialOrd for PolicyResult {
    ghost partial_cmp = { as_partial_cmp result_cmp };

    ghost laws = { partial_order_from_own_ties (Prim.search (comparing, rules)) (Prim.search (comparing, rules)) };

    fn partial_cmp(&self, other: &PolicyResult) -> Option<Ordering> {
        Some(self.cmp(other))
    }
}

impl Ord for PolicyResult {
    ghost cmp = { result_cmp };

    ghost total = { Prim.search (comparing, rules) };

    ghost matches_partial_cmp = { Prim.search (comparing, rules) };

    ghost matches_eq = { Prim.search (comparing, rules) };

    fn cmp(&self, other: &PolicyResult) -> Ordering {
        let by_kind = self.kind.cmp(&other.kind);
        by_kind.then_with(|| self.metadata.as_slice().cmp(other.metadata.as_slice()))
    }
}
