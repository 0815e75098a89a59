ghost use Rattle.std.specs.Prelude.{◌≡◌, ◌∷◌, [], Some, None, IfOk, IfErr, OnOk, codes};
ghost use Rattle.cynara_keys.specs.PolicyResult.{Ruling};
ghost use Rattle.desk_state.specs.Next.{next};
ghost use Rattle.policy_levels.specs.Command.{result_of, user_of, bucket_of, uid_of};
ghost use Rattle.policy_levels.specs.Command.{key_of, change_to, change_of, command_of};
ghost use Rattle.policy_levels.specs.Isolation.{ConcernsAlone};
ghost use Rattle.policy_levels.specs.Refusal as rule;

use crate::faults::fault;
use crate::refusals::LevelRefusal;
use app_registry::user_name;
use bucket_store::{Change, Changes};
use cynara_keys::{
    BucketName, BucketNameRefusal, Field, Key, Kind, Metadata, MetadataRefusal, PolicyResult,
};
use desk_state::{Command, Desk};
use level_requests::{Level, LevelRequest, Setter};
use std::alloc::{AllocError, Global};

/// The kind of the agent that asks a person.
const ASKS: u16 = 10;

/// The command that sets the level: one policy for the application, the one user and the privilege, in the root bucket
/// for a user's own level and in `ADMIN` for an administrator's. Refuses, in this order, `NoLayout`, `UnknownUser` of
/// the caller, `NotAdministrator` where an administrator's request comes from a user who is neither system nor admin,
/// and `UnknownUser` of the target. The command concerns its user alone: no other user's policies change, and no answer
/// to one.
pub fn level_command(
    alloc: Global,
    desk: &Desk,
    request: &LevelRequest,
) -> Result<Command, LevelRefusal>
    ensures command { IfOk result (λ command. command ≡ command_of request.now) }
    ensures accepted { OnOk result (rule.fault desk.now request.now ≡ None) }
    ensures refused { IfErr result (λ refusal. rule.Refuses refusal (rule.fault desk.now request.now)) }
    ensures alone { IfOk result (λ command.
        ConcernsAlone (uid_of request.now) desk.now.database (next desk.now command).database) }
{
    if let Some(refusal) = fault(desk, request) {
        return Err(refusal);
    }
    let uid = uid_of(request);
    let _database = desk.database().buckets();
    match command_of(alloc, request, uid) {
        Ok(command) => Ok(command),
        Err(error) => Err(LevelRefusal::Memory(error)),
    }
}

/// The user whom the request is about.
fn uid_of(request: &LevelRequest) -> u32
    ensures { result ≡ uid_of request.now }
{
    match request.by {
        Setter::Own => request.caller,
        Setter::Administrator { target } => target,
    }
}

fn command_of(alloc: Global, request: &LevelRequest, uid: u32) -> Result<Command, AllocError>
    requires { uid ≡ uid_of request.now }
    ensures { IfOk result (λ command. command ≡ command_of request.now) }
{
    let change = change_of(alloc, request, uid)?;
    let mut changes = Vec::with_capacity(alloc, 1)?;
    changes.push(change)?;
    let changes = Changes::of(changes);
    Ok(Command::SetPolicies { changes })
}

fn change_of(alloc: Global, request: &LevelRequest, uid: u32) -> Result<Change, AllocError>
    requires { uid ≡ uid_of request.now }
    ensures { IfOk result (λ change. change ≡ change_of request.now) }
{
    let bucket = bucket_of(alloc, request.by)?;
    let key = key_of(alloc, request, uid)?;
    match result_of(alloc, request.level)? {
        Some(ruling) => Ok(Change::Set {
            bucket,
            key,
            result: ruling,
        }),
        None => Ok(Change::Delete { bucket, key }),
    }
}

fn bucket_of(alloc: Global, by: Setter) -> Result<BucketName, AllocError>
    ensures { IfOk result (λ name. name ≡ bucket_of by) }
{
    match by {
        Setter::Own => Ok(BucketName::root(alloc)),
        Setter::Administrator { target: _ } => admin_bucket(alloc),
    }
}

/// The bucket of what administrators decide.
fn admin_bucket(alloc: Global) -> Result<BucketName, AllocError>
    ensures { IfOk result (λ name. name ≡ codes "ADMIN") }
{
    match BucketName::read(alloc, b"ADMIN") {
        Ok(name) => Ok(name),
        Err(BucketNameRefusal::Memory(error)) => Err(error),
        Err(_) => unreachable!(),
    }
}

fn key_of(alloc: Global, request: &LevelRequest, uid: u32) -> Result<Key, AllocError>
    requires { uid ≡ uid_of request.now }
    ensures { IfOk result (λ key. key ≡ key_of request.now) }
{
    let client = Field::Exact(request.client.copy()?);
    let user = Field::Exact(user_name(alloc, uid)?);
    let privilege = Field::Exact(request.privilege.copy()?);
    Key::of_fields(alloc, &client, &user, &privilege)
}

/// The result that the level sets. `None` for `Unset`.
fn result_of(alloc: Global, level: Level) -> Result<Option<PolicyResult>, AllocError>
    ensures { IfOk result (λ ruling. ruling ≡ result_of level) }
{
    match level {
        Level::Allow => Ok(Some(PolicyResult::without_metadata(alloc, Kind::ALLOW))),
        Level::Deny => Ok(Some(PolicyResult::without_metadata(alloc, Kind::DENY))),
        Level::Ask => Ok(Some(asking(alloc)?)),
        Level::Unset => Ok(None),
    }
}

fn asking(alloc: Global) -> Result<PolicyResult, AllocError>
    ensures { IfOk result (λ ruling. Some ruling ≡ result_of Level.Ask) }
{
    let metadata = asking_text(alloc)?;
    match PolicyResult::of(Kind(ASKS), metadata) {
        Ok(ruling) => Ok(ruling),
        Err(_) => unreachable!(),
    }
}

fn asking_text(alloc: Global) -> Result<Metadata, AllocError>
    ensures { IfOk result (λ metadata. metadata ≡ codes "ask") }
{
    match Metadata::read(alloc, b"ask") {
        Ok(metadata) => Ok(metadata),
        Err(MetadataRefusal::Memory(error)) => Err(error),
        Err(_) => unreachable!(),
    }
}
