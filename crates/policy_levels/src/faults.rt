//! What stands against a request for a level.

ghost use Rattle.std.specs.Prelude.{◌≡◌};
ghost use Rattle.std.specs.List.{list_any};
ghost use Rattle.cynara_keys.specs.Text.{same_text};
ghost use Rattle.bucket_store.specs.Database.{has_bucket};
ghost use Rattle.app_registry.specs.Registry.{kind_of};
ghost use Rattle.desk_state.specs.Layout.{has_layout};
ghost use Rattle.policy_levels.specs.Refusal as rule;

use crate::refusals::LevelRefusal;
use app_registry::{Registry, UserType};
use bucket_store::{Bucket, Database};
use desk_state::Desk;
use level_requests::{LevelRequest, Setter};

/// The first rule that the request breaks. Takes no memory.
pub(crate) fn fault(desk: &Desk, request: &LevelRequest) -> Option<LevelRefusal>
    ensures { result ≡ rule.fault desk.now request.now }
{
    if !has_layout(desk.database()) {
        return Some(LevelRefusal::NoLayout);
    }
    caller_fault(desk.registry(), request)
}

fn caller_fault(registry: &Registry, request: &LevelRequest) -> Option<LevelRefusal>
    ensures { result ≡ rule.caller_fault registry.now request.now (kind_of registry.now request.now.caller) }
{
    match registry.kind_of(request.caller) {
        Some(kind) => setter_fault(registry, kind, request.by),
        None => Some(LevelRefusal::UnknownUser(request.caller)),
    }
}

fn setter_fault(registry: &Registry, kind: UserType, by: Setter) -> Option<LevelRefusal>
    ensures { result ≡ rule.setter_fault registry.now kind by }
{
    match by {
        Setter::Own => None,
        Setter::Administrator { target } => {
            if administers(kind) {
                target_fault(registry, target)
            } else {
                Some(LevelRefusal::NotAdministrator(kind))
            }
        }
    }
}

fn target_fault(registry: &Registry, uid: u32) -> Option<LevelRefusal>
    ensures { result ≡ rule.target_fault registry.now uid }
{
    if registry.kind_of(uid).is_some() {
        None
    } else {
        Some(LevelRefusal::UnknownUser(uid))
    }
}

fn administers(kind: UserType) -> bool
    ensures { result ≡ rule.administers kind }
{
    match kind {
        UserType::System | UserType::Admin => true,
        UserType::Normal | UserType::Guest => false,
    }
}

/// Whether the buckets for users and packages are there: one of them is `MAIN`.
fn has_layout(database: &Database) -> bool
    ensures { result ≡ has_layout database.now }
{
    has_bucket(database, b"MAIN")
}

fn has_bucket(database: &Database, name: &[u8]) -> bool
    ensures { result ≡ has_bucket name.now database.now }
{
    any_bucket(database.buckets(), name)
}

fn any_bucket(buckets: &[Bucket], name: &[u8]) -> bool
    ensures { result ≡ list_any (λ bucket. same_text bucket.name name.now) buckets.now }
{
    buckets
        .iter()
        .any(|bucket| bucket.name().as_slice() == name)
}
