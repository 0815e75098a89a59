//! Sets of names.

ghost use Rattle.std.specs.Prelude.{◌≡◌, IfOk};
ghost use Rattle.std.specs.List.Sorted.{IsStrictlySortedBy};
ghost use Rattle.std.specs.Cmp.{partial_equiv_from_equiv};
ghost use Rattle.std.specs.Cmp.Lexicographic.{pointwise};
ghost use Rattle.std.proofs.lemmas.Cmp.{lists_equiv, nat_list_eq_equiv};
ghost use Rattle.cynara_keys.specs.Text.{same_text, text_cmp};
ghost use Rattle.app_registry.specs.Rising.{rising};

use cynara_keys::Name;
use std::alloc::AllocError;
use std::marker::Model;
use std::sync::ArcSlice;

/// A set of names, as the list of them in the order of their bytes, each once. Copies share the names.
#[derive(Debug, Drop)]
pub struct NameSet {
    names: ArcSlice<Name>,
}

impl Model for NameSet {
    ghost use Rattle.std.specs.Prelude.{List, ℕ};
    ghost use Rattle.std.specs.Arc.{arc_slice_items};
    ghost use Rattle.std.specs.List.Sorted.{IsStrictlySortedBy};
    ghost use Rattle.cynara_keys.specs.Text.{text_cmp};

    ghost Value = { List (List ℕ) };

    ghost view = { λ set. arc_slice_items set.names };

    ghost invariant = { λ set. IsStrictlySortedBy text_cmp (arc_slice_items set.names) };
}

impl NameSet {
    /// The set of these names, each once however often it is given.
    pub fn of(names: Vec<Name>) -> Result<NameSet, AllocError>
        ensures { IfOk result (λ set. set ≡ rising text_cmp names.items) }
    {
        Ok(NameSet {
            names: ArcSlice::from_vec(in_order(names))?,
        })
    }

    /// The names of the set, each before those of greater bytes.
    pub fn as_slice(&self) -> &[Name]
        ensures names { result.now ≡ self.now }
        ensures rising { IsStrictlySortedBy text_cmp self.now }
    {
        self.names.as_slice()
    }

    /// An equal set, which shares the names.
    pub fn copy(&self) -> Result<NameSet, AllocError>
        ensures { IfOk result (λ copy. copy ≡ self.now) }
    {
        Ok(NameSet {
            names: self.names.clone()?,
        })
    }
}

// The names in the order of their bytes, each once.
fn in_order(mut names: Vec<Name>) -> Vec<Name>
    ensures names { result.items ≡ rising text_cmp names.items }
    ensures rising { IsStrictlySortedBy text_cmp result.items }
{
    names.sort_unstable();
    names.dedup();
    names
}

impl PartialEq for NameSet {
    ghost eq = { pointwise same_text };

    ghost laws = { partial_equiv_from_equiv (lists_equiv nat_list_eq_equiv) };

    fn eq(&self, other: &NameSet) -> bool {
        self.as_slice() == other.as_slice()
    }
}

impl Eq for NameSet {
    ghost laws = { lists_equiv nat_list_eq_equiv };
}
