//! What rules change in the modes of pairs.

ghost use Rattle.std.specs.Prelude.{◌≡◌, [], ◌∷◌, ◌++◌, map, IfOk, OnOk};
ghost use Rattle.std.specs.List.Sorted.{IsStrictlySortedBy};
ghost use Rattle.smack_rules.specs.Modes.{all_modes, without};
ghost use Rattle.smack_rules.specs.parts.Order.{pair_cmp};
ghost use Rattle.smack_rules.specs.parts.Changes.{followed_by, change_of, joined, ChangeAlike};

use crate::modes::Modes;
use crate::pair_key::PairKey;
use crate::rule::Rule;
use std::alloc::{AllocError, Global};

/// With fewer changes than this, those of a pair are not joined yet.
const LEAST_TO_JOIN: usize = 4_096;

/// What is taken out of the modes of a pair, and then what is added to them.
#[derive(Clone, Copy, Debug)]
pub struct Change {
    pub removed: Modes,
    pub added: Modes,
}

impl Change {
    /// Allows modes, and then denies modes.
    pub fn adjusting(allow: Modes, deny: Modes) -> Change
        ensures removed { result.removed ≡ deny }
        ensures added { result.added ≡ without allow deny }
    {
        Change {
            removed: deny,
            added: allow.without(deny),
        }
    }

    /// Sets modes, whatever there was before.
    pub fn setting(modes: Modes) -> Change
        ensures removed { result.removed ≡ all_modes }
        ensures added { result.added ≡ modes }
    {
        Change {
            removed: Modes::ALL,
            added: modes,
        }
    }

    /// The change that both make, this one first.
    fn then(self, later: Change) -> Change
        ensures { result ≡ followed_by self later }
    {
        Change {
            removed: self.removed.union(later.removed),
            added: self.added.without(later.removed).union(later.added),
        }
    }
}

/// A change of the modes of a pair.
#[derive(Debug, Drop)]
pub struct PairChange<'a> {
    pub key: PairKey<'a>,
    pub change: Change,
}

impl<'a> PairChange<'a> {
    /// The change that a rule makes.
    pub fn of(rule: &'a Rule) -> PairChange<'a>
        ensures { result ≡ change_of rule.now }
    {
        let (subject, object, change) = match rule {
            Rule::Set {
                subject,
                object,
                modes,
            } => (subject, object, Change::setting(*modes)),
            Rule::Adjust {
                subject,
                object,
                allow,
                deny,
            } => (subject, object, Change::adjusting(*allow, *deny)),
        };
        let key = PairKey::of(subject.as_slice(), object.as_slice());
        PairChange { key, change }
    }

    /// The same change.
    fn copy(&self) -> PairChange<'a>
        ensures { result ≡ self.now }
    {
        PairChange {
            key: self.key.copy(),
            change: self.change,
        }
    }
}

/// Changes of pairs, the oldest of each pair first. Whenever they have doubled in number, those of the same pair are
/// joined to one. So they take no more room than twice that of the pairs, and all joining costs as much as two sorts.
#[derive(Debug, Drop)]
pub struct Changes<'a> {
    alloc: Global,
    changes: Vec<PairChange<'a>>,
    most: usize,
}

impl<'a> Changes<'a> {
    /// No change.
    pub fn new(alloc: Global) -> Changes<'a>
        ensures { result.changes.items ≡ [] }
    {
        Changes {
            alloc,
            changes: Vec::new(alloc),
            most: LEAST_TO_JOIN,
        }
    }

    /// One more change, behind the others.
    pub fn follow(&mut self, change: PairChange<'a>) -> Result<(), AllocError>
        ensures { OnOk result (ChangeAlike self.new.changes.items (self.old.changes.items ++ change.entry ∷ [])) }
    {
        if self.changes.len() >= self.most {
            join(self.alloc, &mut self.changes)?;
            self.most = self.changes.len().saturating_mul(2).max(LEAST_TO_JOIN);
        }
        self.changes.push(change)?;
        Ok(())
    }

    /// One change a pair, in the order of the pairs.
    pub fn into_joined(self) -> Result<Vec<PairChange<'a>>, AllocError>
        ensures same { IfOk result (λ joined. ChangeAlike joined.items self.entry.changes.items) }
        ensures sorted { IfOk result (λ joined. IsStrictlySortedBy pair_cmp (map (λ change. change.key) joined.items)) }
    {
        let Changes {
            alloc,
            mut changes,
            most: _,
        } = self;
        join(alloc, &mut changes)?;
        Ok(changes)
    }
}

/// Joins the changes of each pair to one, and puts the pairs in order.
fn join<'a>(alloc: Global, changes: &mut Vec<PairChange<'a>>) -> Result<(), AllocError>
    ensures same { OnOk result (ChangeAlike changes.new.items changes.old.items) }
    ensures sorted { OnOk result (IsStrictlySortedBy pair_cmp (map (λ change. change.key) changes.new.items)) }
{
    changes.sort_by(|one, other| one.key.compare(&other.key))?;
    *changes = joined(alloc, changes.as_slice())?;
    Ok(())
}

/// Joins neighbours that change the same pair.
fn joined<'a>(alloc: Global, sorted: &[PairChange<'a>]) -> Result<Vec<PairChange<'a>>, AllocError>
    ensures { IfOk result (λ changes. changes.items ≡ joined sorted.now) }
{
    let mut changes = Vec::new(alloc);
    let Some((first, later)) = sorted.split_first() else {
        return Ok(changes);
    };
    let mut last = first.copy();
    for next in later {
        if next.key.is_same(&last.key) {
            last.change = last.change.then(next.change);
        } else {
            changes.push(last)?;
            last = next.copy();
        }
    }
    changes.push(last)?;
    Ok(changes)
}
