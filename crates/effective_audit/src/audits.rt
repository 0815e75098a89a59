ghost use Rattle.std.specs.Prelude.{◌≡◌, ◌*◌, ◌≤◌, ◌++◌, ◌∷◌, [], true, length, map, None, IfOk, IfErr, OnOk};
ghost use Rattle.std.specs.List.{list_any};
ghost use Rattle.cynara_keys.specs.Text.{same_text};
ghost use Rattle.bucket_store.specs.Database.{database_of};
ghost use Rattle.bucket_store.specs.WellFormed.{IsKept};
ghost use Rattle.effective_audit.specs.Audit.{allowed_to, audited, fault, told, pair_of, Refuses};
ghost use Rattle.effective_audit.specs.parts.Narrowing.{narrow_of};

use crate::choosing::is_allowed;
use crate::narrowing::{Narrow, narrowed};
use bucket_store::{Bucket, Database};
use cynara_keys::{Name, Short};
use std::alloc::{AllocError, Global};
use thiserror::Error;

/// The most pairs that one audit asks about.
pub const MOST_PAIRS: u64 = 65_536;

/// An application, by its label, and a privilege.
#[derive(Clone, Copy, Debug, PartialEq, Eq)]
pub struct Pair {
    pub client: Short,
    pub privilege: Short,
}

/// Why there is no audit.
#[derive(Clone, Copy, Debug, PartialEq, Eq, Error)]
pub enum AuditRefusal {
    /// There are so many pairs to ask about, or 18,446,744,073,709,551,615 where there are more than that.
    #[error("{0} pairs of an application and a privilege are more than can be asked about")]
    TooMany(u64),
    #[error("out of memory")]
    Memory(AllocError),
}

/// The pairs of these applications and these privileges that the policies allow to the user, in the order of the
/// applications and then of the privileges: those for which the root bucket answers ALLOW, with the buckets that
/// policies point to. Refuses, in this order, `TooMany` exactly where there are more than `MOST_PAIRS` pairs to ask
/// about, and `Memory`.
pub fn audit(
    alloc: Global,
    database: &Database,
    user: &Name,
    clients: &[Name],
    privileges: &[Name],
) -> Result<Vec<Pair>, AuditRefusal>
    ensures pairs { IfOk result (λ pairs. pairs.items ≡ audited database.now user.now clients.now privileges.now) }
    ensures accepted { OnOk result (fault clients.now privileges.now ≡ None) }
    ensures refused { IfErr result (λ refusal. Refuses refusal (fault clients.now privileges.now)) }
{
    let product = product(clients.len(), privileges.len());
    if product > MOST_PAIRS {
        return Err(AuditRefusal::TooMany(product));
    }
    if clients.is_empty() {
        return Ok(Vec::new(alloc));
    }
    match allowed_pairs(alloc, database.buckets(), user, clients, privileges) {
        Ok(pairs) => Ok(pairs),
        Err(error) => Err(AuditRefusal::Memory(error)),
    }
}

/// The product, or the greatest number where it is greater.
fn product(one: usize, other: usize) -> u64
    ensures { result ≡ told (one * other) }
{
    (one as u64).saturating_mul(other as u64)
}

fn allowed_pairs(
    alloc: Global,
    buckets: &[Bucket],
    user: &Name,
    clients: &[Name],
    privileges: &[Name],
) -> Result<Vec<Pair>, AllocError>
    requires few { length privileges.now ≤ 65536 }
    requires kept { IsKept buckets.now }
    ensures { IfOk result
        (λ pairs. pairs.items ≡ audited (database_of buckets.now) user.now clients.now privileges.now) }
{
    let mut pairs = Vec::new(alloc);
    for client in clients {
        let narrow = narrowed(alloc, buckets, client, user, privileges)?;
        append_allowed(
            alloc, &mut pairs, buckets, &narrow, client, user, privileges,
        )?;
    }
    Ok(pairs)
}

/// Appends the pairs of the application.
fn append_allowed(
    alloc: Global,
    pairs: &mut Vec<Pair>,
    buckets: &[Bucket],
    narrow: &[Narrow<'_>],
    client: &Name,
    user: &Name,
    privileges: &[Name],
) -> Result<(), AllocError>
    requires few { length privileges.now ≤ 65536 }
    requires kept { IsKept buckets.now }
    requires narrow { narrow.now ≡ map (narrow_of privileges.now client.now user.now) buckets.now }
    ensures { OnOk result (pairs.new.items ≡
        pairs.old.items ++ allowed_to (database_of buckets.now) user.now privileges.now client.now) }
{
    for privilege in privileges {
        if is_allowed(alloc, buckets, narrow, client, user, privileges, privilege)? {
            pairs.push(pair_of(client, privilege))?;
        }
    }
    Ok(())
}

fn pair_of(client: &Name, privilege: &Name) -> Pair
    ensures { result ≡ pair_of client.now privilege.now }
{
    Pair {
        client: Short::of(client.as_slice()),
        privilege: Short::of(privilege.as_slice()),
    }
}
