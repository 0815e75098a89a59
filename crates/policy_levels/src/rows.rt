//! The levels that are set.

ghost use Rattle.std.specs.Prelude.{◌≡◌, ◌++◌, None, IfOk, OnOk};
ghost use Rattle.std.specs.Option.{option_to_list};
ghost use Rattle.cynara_keys.specs.Field.{field_of, field_fault};
ghost use Rattle.cynara_keys.specs.PolicyResult.{same_result};
ghost use Rattle.desk_state.specs.DeskState.{DeskState};
ghost use Rattle.policy_levels.specs.parts.Listing.{WantsMemory};
ghost use Rattle.policy_levels.specs.Levels.{root_rows, exact_name, level_of, row_in, levels_among, levels_in};

use app_registry::user_name;
use bucket_store::{Database, StoreRefusal};
use cynara_keys::{BucketName, Filter, FilterField, Kind, Name, NameRefusal, Policy, PolicyResult};
use desk_state::Desk;
use level_requests::Level;
use std::alloc::{AllocError, Global};

/// A level that is set for an application, by its label, and a privilege.
#[derive(Debug, Drop)]
pub struct LevelRow {
    pub client: Name,
    pub privilege: Name,
    pub level: Level,
}

/// The levels that the user of this number has set, in the order of their keys: the root bucket's policies for one
/// application, this one user and one privilege, whose result a level sets. Those of a removed user stay until they are
/// erased. They follow from the root bucket's policies for the user alone.
pub fn levels_of(alloc: Global, desk: &Desk, user: u32) -> Result<Vec<LevelRow>, AllocError>
    ensures levels { IfOk result (λ rows. rows.items ≡ levels_in desk.now.database user) }
    ensures alone { (other : DeskState) → root_rows other.database user ≡ root_rows desk.now.database user
        → levels_in other.database user ≡ levels_in desk.now.database user }
{
    let policies = root_rows(alloc, desk.database(), user)?;
    levels_among(alloc, &policies)
}

fn root_rows(alloc: Global, database: &Database, uid: u32) -> Result<Vec<Policy>, AllocError>
    ensures { IfOk result (λ policies. policies.items ≡ root_rows database.now uid) }
{
    let name = BucketName::root(alloc);
    let filter = Filter {
        client: FilterField::Every,
        user: FilterField::Exact(user_name(alloc, uid)?),
        privilege: FilterField::Every,
    };
    let _buckets = database.buckets();
    match database.list(&name, &filter) {
        Ok(policies) => Ok(policies),
        Err(refusal) => Err(want_of_memory(refusal)),
    }
}

/// The want of memory that a refusal is.
fn want_of_memory(refusal: StoreRefusal) -> AllocError
    requires { WantsMemory refusal }
{
    match refusal {
        StoreRefusal::Memory(error) => error,
        _ => unreachable!(),
    }
}

fn levels_among(alloc: Global, policies: &[Policy]) -> Result<Vec<LevelRow>, AllocError>
    ensures { IfOk result (λ rows. rows.items ≡ levels_among policies.now) }
{
    let mut rows = Vec::new(alloc);
    for policy in policies {
        let row = row_in(alloc, policy)?;
        push_row(&mut rows, row)?;
    }
    Ok(rows)
}

/// Appends the row, if it is one.
fn push_row(rows: &mut Vec<LevelRow>, row: Option<LevelRow>) -> Result<(), AllocError>
    ensures { OnOk result (rows.new.items ≡ rows.old.items ++ option_to_list row) }
{
    let Some(row) = row else {
        return Ok(());
    };
    rows.push(row)?;
    Ok(())
}

fn row_in(alloc: Global, policy: &Policy) -> Result<Option<LevelRow>, AllocError>
    ensures { IfOk result (λ row. row ≡ row_in policy.now) }
{
    let Some(client) = exact_name(alloc, policy.key.client())? else {
        return Ok(None);
    };
    let Some(privilege) = exact_name(alloc, policy.key.privilege())? else {
        return Ok(None);
    };
    match level_of(&policy.result) {
        Some(level) => Ok(Some(LevelRow {
            client,
            privilege,
            level,
        })),
        None => Ok(None),
    }
}

/// The name that the text of a key's field is. `None` for the wildcard.
fn exact_name(alloc: Global, text: &[u8]) -> Result<Option<Name>, AllocError>
    requires { field_fault text.now ≡ None }
    ensures { IfOk result (λ name. name ≡ exact_name (field_of text.now)) }
{
    if text == b"*".as_slice() {
        return Ok(None);
    }
    match Name::read(alloc, text) {
        Ok(name) => Ok(Some(name)),
        Err(NameRefusal::Memory(error)) => Err(error),
        Err(_) => unreachable!(),
    }
}

/// The level that sets the result.
fn level_of(ruling: &PolicyResult) -> Option<Level>
    ensures { result ≡ level_of ruling.now }
{
    if is_result(ruling, Kind::ALLOW, b"") {
        Some(Level::Allow)
    } else if is_result(ruling, Kind(10), b"ask") {
        Some(Level::Ask)
    } else if is_result(ruling, Kind::DENY, b"") {
        Some(Level::Deny)
    } else {
        None
    }
}

fn is_result(ruling: &PolicyResult, kind: Kind, metadata: &[u8]) -> bool
    ensures { result ≡ same_result (record { kind = kind.0; metadata = metadata.now }) ruling.now }
{
    kind == ruling.kind() && metadata == ruling.metadata().as_slice()
}
