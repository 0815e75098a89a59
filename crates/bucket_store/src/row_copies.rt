// Policies copied by their places.
ghost use Rattle.std.specs.Prelude.{◌≡◌, ◌==◌, ◌++◌, ◌∷◌, [], drop, slice_get, IfOk, OnOk};
ghost use Rattle.std.specs.Option.{option_to_list};
ghost use Rattle.bucket_store.specs.parts.Rows.{at_places, besides, starts_with};

use cynara_keys::Policy;
use std::alloc::{AllocError, Global};

/// The policies at these places.
pub fn policies_at(
    alloc: Global,
    policies: &[Policy],
    places: &[u32],
) -> Result<Vec<Policy>, AllocError>
    ensures { IfOk result (λ copy. copy.items ≡ at_places policies.now places.now) }
{
    let mut copy = Vec::with_capacity(alloc, places.len())?;
    for place in places {
        push_at(&mut copy, policies, *place as usize)?;
    }
    Ok(copy)
}

/// The policies at all other places, where these rise.
pub fn policies_besides(
    alloc: Global,
    policies: &[Policy],
    places: &[u32],
) -> Result<Vec<Policy>, AllocError>
    ensures { IfOk result (λ copy. copy.items ≡ besides 0 places.now policies.now) }
{
    let mut copy = Vec::new(alloc);
    let mut next = 0;
    for (at, policy) in policies.iter().enumerate() {
        if is_next(places, next, at) {
            next += 1;
        } else {
            push_copy(&mut copy, policy)?;
        }
    }
    Ok(copy)
}

// Appends the policy at the place, where there is one.
#[tactic(auto, using(std::proofs::lemmas::Option::slice_get_past, std::proofs::lemmas::Option::slice_get_read))]
fn push_at(copy: &mut Vec<Policy>, policies: &[Policy], at: usize) -> Result<(), AllocError>
    ensures { OnOk result
        (copy.new.items ≡ copy.old.items ++ option_to_list (slice_get policies.now at)) }
{
    if at >= policies.len() {
        return Ok(());
    }
    push_copy(copy, &policies[at])?;
    Ok(())
}

// Appends a copy of the policy.
fn push_copy(copy: &mut Vec<Policy>, policy: &Policy) -> Result<(), AllocError>
    ensures { OnOk result (copy.new.items ≡ copy.old.items ++ policy.now ∷ []) }
{
    copy.push(policy.copy()?)?;
    Ok(())
}

// Whether the place is the next of these.
fn is_next(places: &[u32], next: usize, at: usize) -> bool
    ensures { result ≡ starts_with at (drop next places.now) }
{
    match places.get(next) {
        Some(place) => *place as usize == at,
        None => false,
    }
}
