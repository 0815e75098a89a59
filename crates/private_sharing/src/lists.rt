//! Lists of shares: how they are searched, copied and changed.

ghost use Rattle.std.specs.Prelude.{◌≡◌, IfOk, MatchResult, length, find, insert, slice_set};
ghost use Rattle.std.specs.Option.{option_copied};
ghost use Rattle.std.specs.List.Sorted.{IsStrictlySortedBy, IsSearchInRange};
ghost use Rattle.app_registry.specs.Rising.{placed};
ghost use Rattle.private_sharing.specs.Shares as shared;
ghost use Rattle.private_sharing.specs.Shares.{share_cmp};

use crate::shares::Share;
use app_registry::{Ident, Registry};
use std::alloc::{AllocError, Global};
use std::cmp::Ordering;

impl Share {
    /// An equal share, which shares the names' bytes.
    pub(crate) fn copy(&self) -> Result<Share, AllocError>
        ensures { IfOk result (λ copy. copy ≡ self.now) }
    {
        Ok(Share {
            owner: self.owner.copy()?,
            target: self.target.copy()?,
            name: self.name.copy()?,
            count: self.count,
        })
    }

    fn compare_place(&self, other: &Share) -> Ordering
        ensures { result ≡ share_cmp self.now other.now }
    {
        self.owner
            .cmp(&other.owner)
            .then_with(|| self.target.cmp(&other.target))
            .then_with(|| self.name.cmp(&other.name))
    }

    fn is(&self, owner: &Ident, target: &Ident, name: &Ident) -> bool
        ensures { result ≡ shared.is_share owner.now target.now name.now self.now }
    {
        self.owner == *owner && self.target == *target && self.name == *name
    }
}

/// How often the share is open, 0 where there is none.
pub(crate) fn count_of(shares: &[Share], owner: &Ident, target: &Ident, name: &Ident) -> u32
    ensures { result ≡ shared.count_of owner.now target.now name.now shares.now }
{
    match share_of(shares, owner, target, name) {
        Some(share) => share.count,
        None => 0,
    }
}

fn share_of<'a>(
    shares: &'a [Share],
    owner: &Ident,
    target: &Ident,
    name: &Ident,
) -> Option<&'a Share>
    ensures { option_copied result ≡ find (shared.is_share owner.now target.now name.now) shares.now }
{
    shares.iter().find(|share| share.is(owner, target, name))
}

/// The shares with this one at its place.
pub(crate) fn with_share(
    alloc: Global,
    shares: &[Share],
    share: Share,
) -> Result<Vec<Share>, AllocError>
    requires { IsStrictlySortedBy share_cmp shares.now }
    ensures { IfOk result (λ list. list.items ≡ placed share_cmp share shares.now) }
{
    let place = place_of(shares, &share);
    let mut list = copies(alloc, shares)?;
    match place {
        Ok(at) => list[at] = share,
        Err(at) => list.insert(at, share)?,
    }
    Ok(list)
}

fn place_of(shares: &[Share], share: &Share) -> Result<usize, usize>
    requires { IsStrictlySortedBy share_cmp shares.now }
    ensures in_range { IsSearchInRange result (length shares.now) }
    ensures placed { MatchResult result
        (λ at. slice_set shares.now at share.now ≡ placed share_cmp share.now shares.now)
        (λ at. insert shares.now at share.now ≡ placed share_cmp share.now shares.now) }
{
    shares.binary_search_by(|other| other.compare_place(share))
}

fn copies(alloc: Global, shares: &[Share]) -> Result<Vec<Share>, AllocError>
    ensures { IfOk result (λ copies. copies.items ≡ shares.now) }
{
    let mut copies = Vec::with_capacity(alloc, shares.len() + 1)?;
    for share in shares {
        copies.push(share.copy()?)?;
    }
    Ok(copies)
}

/// The shares with this one open once less, without it where it is open no more.
pub(crate) fn closed(
    alloc: Global,
    shares: &[Share],
    owner: &Ident,
    target: &Ident,
    name: &Ident,
) -> Result<Vec<Share>, AllocError>
    ensures { IfOk result (λ list. list.items ≡ shared.closed owner.now target.now name.now shares.now) }
{
    let mut list = Vec::with_capacity(alloc, shares.len())?;
    for share in shares {
        let left = lessened(share.copy()?, owner, target, name);
        if left.count >= 1 {
            list.push(left)?;
        }
    }
    Ok(list)
}

fn lessened(share: Share, owner: &Ident, target: &Ident, name: &Ident) -> Share
    ensures { result ≡ shared.lessened owner.now target.now name.now share }
{
    if share.is(owner, target, name) {
        let count = share.count.saturating_sub(1);
        Share { count, ..share }
    } else {
        share
    }
}

/// The shares of which both applications are installed.
pub(crate) fn settled(
    alloc: Global,
    shares: &[Share],
    registry: &Registry,
) -> Result<Vec<Share>, AllocError>
    ensures { IfOk result (λ list. list.items ≡ shared.settled registry.now shares.now) }
{
    let mut list = Vec::with_capacity(alloc, shares.len())?;
    for share in shares {
        if has_both(registry, share) {
            list.push(share.copy()?)?;
        }
    }
    Ok(list)
}

fn has_both(registry: &Registry, share: &Share) -> bool
    ensures { result ≡ shared.has_both registry.now share.now }
{
    is_installed(registry, &share.owner) && is_installed(registry, &share.target)
}

fn is_installed(registry: &Registry, app: &Ident) -> bool
    ensures { result ≡ shared.is_installed registry.now app.now }
{
    registry.package_of(app).is_some()
}
