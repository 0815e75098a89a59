// Names brought into order.
ghost use Rattle.std.specs.Prelude.{◌≡◌, ◌↔◌, ℕ, List, IfOk};
ghost use Rattle.std.specs.List.{Contains, list_any};
ghost use Rattle.std.specs.Ordering.{nat_cmp, eq_by_cmp};
ghost use Rattle.std.specs.Cmp.Lexicographic.{slice_cmp};
ghost use Rattle.desk_ports.specs.FileMap.{NamesRise};

use crate::FileName;
use std::alloc::{AllocError, Global};
use std::collections::BTreeSet;

/// The names, each once, rising strictly.
pub fn names_in_order(alloc: Global, names: Vec<FileName>) -> Result<Vec<FileName>, AllocError>
    ensures rising { IfOk result (λ ordered. NamesRise ordered.items) }
    ensures same { IfOk result (λ ordered. (name : List ℕ) → Contains ordered.items name ↔ Contains names.items name) }
{
    let set = set_of_names(alloc, names)?;
    let ordered = names_of_set(alloc, set)?;
    Ok(ordered)
}

fn set_of_names(alloc: Global, names: Vec<FileName>) -> Result<BTreeSet<FileName>, AllocError>
    ensures same { IfOk result (λ set. (name : List ℕ) → list_any (eq_by_cmp (slice_cmp nat_cmp) name) set.keys
        ≡ list_any (eq_by_cmp (slice_cmp nat_cmp) name) names.items) }
{
    names.into_iter().collect(alloc)
}

/// The names of the set, rising strictly.
pub(crate) fn names_of_set(
    alloc: Global,
    set: BTreeSet<FileName>,
) -> Result<Vec<FileName>, AllocError>
    ensures keys { IfOk result (λ names. names.items ≡ set.keys) }
    ensures rising { IfOk result (λ names. NamesRise names.items) }
{
    set.into_iter().collect(alloc)
}
