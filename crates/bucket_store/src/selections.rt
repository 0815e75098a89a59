// The policies that a filter admits, and the others: in a small bucket by asking for each, in a large one by columns of
// numbers.
ghost use Rattle.std.specs.Prelude.{◌≡◌, not, IfOk};
ghost use Rattle.std.specs.List as list;
ghost use Rattle.cynara_keys.specs.Key.{filter_admits};

use crate::copies;
use crate::key_rows::admitted_rows;
use crate::limits::MOST_POLICIES;
use crate::row_copies::{policies_at, policies_besides};
use cynara_keys::{Filter, Policy};
use std::alloc::{AllocError, Global};

/// A bucket of fewer policies goes without columns: to number its names takes longer than to ask for each policy.
const LEAST_FOR_COLUMNS: usize = 65_536;

/// The policies whose keys the filter admits.
pub fn admitted(
    alloc: Global,
    policies: &[Policy],
    filter: &Filter,
) -> Result<Vec<Policy>, AllocError>
    ensures { IfOk result
        (λ copy. copy.items ≡ list.filter (λ policy. filter_admits filter.now policy.key) policies.now) }
{
    if policies.len() < LEAST_FOR_COLUMNS || policies.len() > MOST_POLICIES {
        return copies::admitted(alloc, policies, filter);
    }
    let places = admitted_rows(alloc, policies, filter)?;
    let copy = policies_at(alloc, policies, &places)?;
    Ok(copy)
}

/// The policies whose keys the filter does not admit.
pub fn not_admitted(
    alloc: Global,
    policies: &[Policy],
    filter: &Filter,
) -> Result<Vec<Policy>, AllocError>
    ensures { IfOk result
        (λ copy. copy.items ≡ list.filter (λ policy. not (filter_admits filter.now policy.key)) policies.now) }
{
    if policies.len() < LEAST_FOR_COLUMNS || policies.len() > MOST_POLICIES {
        return copies::not_admitted(alloc, policies, filter);
    }
    let places = admitted_rows(alloc, policies, filter)?;
    let copy = policies_besides(alloc, policies, &places)?;
    Ok(copy)
}
