ghost use Rattle.std.specs.Prelude.{◌≡◌, ◌+◌, [], Option, Some, None, IfOk, IfErr, OnOk};
ghost use Rattle.app_registry.specs.Label.{label_of};
ghost use Rattle.private_sharing.specs.Shares.{IsShares, count_of, opened, closed, settled};
ghost use Rattle.private_sharing.specs.Refusal.{open_fault, close_fault, labels_fault, Refuses, RefusesLast};
ghost use Rattle.private_sharing.specs.declared.refusals.ShareRefusal.{ShareRefusal};
ghost use Rattle.private_sharing.specs.declared.refusals.ShareRefusal.TheVariants.{UnknownApp};
ghost use Rattle.private_sharing.specs.Rules.{rules};

use crate::lists::{closed, count_of, settled, with_share};
use crate::refusals::ShareRefusal;
use crate::rules::rules;
use app_registry::{Ident, Registry};
use smack_rules::Rule;
use std::alloc::{AllocError, Global};
use std::marker::Model;

/// The most shares that are open at once.
pub const MOST_SHARES: usize = 4_096;

/// The most times that one share is open.
pub const MOST_OPENS: u32 = 4_294_967_295;

/// That an application shares the place of this name with another one, and how often it does, at least once.
#[derive(Debug, Drop)]
pub struct Share {
    pub owner: Ident,
    pub target: Ident,
    pub name: Ident,
    pub count: u32,
}

/// The shares that are open, in the order of owner, target and name. A call that changes them gives the changed shares
/// and leaves these as they are; so does a refusal.
#[derive(Debug, Drop)]
pub struct Shares {
    items: Vec<Share>,
}

impl Model for Shares {
    ghost use Rattle.std.specs.Prelude.{List};
    ghost use Rattle.private_sharing.specs.declared.shares.Share.{Share};
    ghost use Rattle.private_sharing.specs.Shares.{IsShares};

    ghost Value = { List Share };

    ghost view = { λ shares. shares.items.items };

    ghost invariant = { λ shares. IsShares shares.items.items };
}

impl Shares {
    /// No share. Takes no memory.
    pub fn new(alloc: Global) -> Shares
        ensures { result ≡ [] }
    {
        Shares {
            items: Vec::new(alloc),
        }
    }

    /// The open shares.
    pub fn as_slice(&self) -> &[Share]
        ensures shares { result.now ≡ self.now }
        ensures sound { IsShares self.now }
    {
        &self.items
    }

    /// The shares with this one open once more. Refuses, in this order, `UnknownApp` of the owner and then of the
    /// target where it is not installed, `SameLabel` where both have one label, and `Most` where the share would be
    /// open more than `MOST_OPENS` times, or where there would be more than `MOST_SHARES`.
    pub fn open(
        &self,
        registry: &Registry,
        owner: &Ident,
        target: &Ident,
        name: &Ident,
    ) -> Result<Shares, ShareRefusal>
        ensures shares { IfOk result (λ shares. shares ≡ opened owner.now target.now name.now self.now) }
        ensures accepted { OnOk result (open_fault registry.now owner.now target.now name.now self.now ≡ None) }
        ensures refused { IfErr result
            (λ refusal. Refuses refusal (open_fault registry.now owner.now target.now name.now self.now)) }
    {
        test_labels(registry, owner, target)?;
        let shares = self.as_slice();
        let count = count_of(shares, owner, target, name);
        if count == MOST_OPENS {
            return Err(ShareRefusal::Most(u64::from(MOST_OPENS)));
        }
        let items = match self.opened(owner, target, name, count + 1) {
            Ok(items) => items,
            Err(error) => return Err(ShareRefusal::Memory(error)),
        };
        if items.len() > MOST_SHARES {
            return Err(ShareRefusal::Most(MOST_SHARES as u64));
        }
        Ok(Shares { items })
    }

    /// The shares with this one open once less; it goes where it is open no more. Refuses `NotShared` where there is no
    /// such share.
    pub fn close(&self, owner: &Ident, target: &Ident, name: &Ident) -> Result<Shares, ShareRefusal>
        ensures shares { IfOk result (λ shares. shares ≡ closed owner.now target.now name.now self.now) }
        ensures accepted { OnOk result (close_fault owner.now target.now name.now self.now ≡ None) }
        ensures refused { IfErr result
            (λ refusal. RefusesLast refusal (close_fault owner.now target.now name.now self.now)) }
    {
        if self.count(owner, target, name) == 0 {
            return Err(ShareRefusal::NotShared);
        }
        match closed(self.alloc(), &self.items, owner, target, name) {
            Ok(items) => Ok(Shares { items }),
            Err(error) => Err(ShareRefusal::Memory(error)),
        }
    }

    /// The shares of which both applications are installed.
    pub fn settle(&self, registry: &Registry) -> Result<Shares, AllocError>
        ensures { IfOk result (λ shares. shares ≡ settled registry.now self.now) }
    {
        let items = settled(self.alloc(), &self.items, registry)?;
        Ok(Shares { items })
    }

    /// How often the share is open, 0 where there is none. Takes no memory.
    pub fn count(&self, owner: &Ident, target: &Ident, name: &Ident) -> u32
        ensures { result ≡ count_of owner.now target.now name.now self.now }
    {
        count_of(&self.items, owner, target, name)
    }

    /// The Smack rules that the shares give, in their order: for each share of which both applications are installed,
    /// the owner's label gets `rwxatl` on the label of what is shared, and the target's label `rxl`. No rule takes
    /// anything away.
    pub fn rules(&self, registry: &Registry) -> Result<Vec<Rule>, AllocError>
        ensures { IfOk result (λ given. given.items ≡ rules registry.now self.now) }
    {
        rules(self.alloc(), &self.items, registry)
    }

    fn alloc(&self) -> Global {
        *self.items.allocator()
    }

    fn opened(
        &self,
        owner: &Ident,
        target: &Ident,
        name: &Ident,
        count: u32,
    ) -> Result<Vec<Share>, AllocError>
        requires { count ≡ count_of owner.now target.now name.now self.now + 1 }
        ensures { IfOk result (λ items. items.items ≡ opened owner.now target.now name.now self.now) }
    {
        let share = Share {
            owner: owner.copy()?,
            target: target.copy()?,
            name: name.copy()?,
            count,
        };
        with_share(self.alloc(), &self.items, share)
    }
}

/// Tests that both applications are installed, under two labels.
fn test_labels(registry: &Registry, owner: &Ident, target: &Ident) -> Result<(), ShareRefusal>
    ensures accepted { OnOk result (labels_fault owner.now target.now
        (label_of registry.now owner.now) (label_of registry.now target.now) None ≡ None) }
    ensures refused { IfErr result
        (λ refusal. (limit : Option ShareRefusal) → Refuses refusal (labels_fault owner.now target.now
        (label_of registry.now owner.now) (label_of registry.now target.now) limit)) }
{
    let Some(own) = registry.label_of(owner).map_err(ShareRefusal::Memory)? else {
        return Err(unknown_app(owner));
    };
    let Some(other) = registry.label_of(target).map_err(ShareRefusal::Memory)? else {
        return Err(unknown_app(target));
    };
    if own.as_slice() == other.as_slice() {
        return Err(ShareRefusal::SameLabel(own));
    }
    Ok(())
}

/// That the application is not installed, or the want of memory for saying so.
fn unknown_app(app: &Ident) -> ShareRefusal
    ensures { Refuses result (Some (UnknownApp app.now)) }
{
    match app.copy() {
        Ok(app) => ShareRefusal::UnknownApp(app),
        Err(error) => ShareRefusal::Memory(error),
    }
}
