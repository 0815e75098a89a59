// The fields of each operation, read as its message.
ghost use Rattle.wire_fields.specs.Left.{Gives};
ghost use Rattle.wire_fields.specs.Message as message;

use crate::list_readers::{changes, install, verdict};
use crate::refusal_readers::refusal;
use std::alloc::Global;
use wire_fields::readers::{
    agent_kind, bucket, file_name, file_part, filter, flag, ident, kind, most, policy, question,
    ruling, scope, template, user_type,
};
use wire_fields::{Fields, Message, Operation, WireRefusal};

/// The message of an operation, from all that is left of the frame.
pub fn message(
    alloc: Global,
    operation: Operation,
    fields: &mut Fields,
) -> Result<Message, WireRefusal>
    ensures { Gives result fields.new (message.read operation fields.old) }
{
    match operation {
        Operation::Check => check(alloc, fields),
        Operation::SimpleCheck => simple_check(alloc, fields),
        Operation::SetBucket => set_bucket(alloc, fields),
        Operation::RemoveBucket => remove_bucket(alloc, fields),
        Operation::SetPolicies => set_policies(alloc, fields),
        Operation::Erase => erase(alloc, fields),
        Operation::Layout => Ok(Message::Layout),
        Operation::SetTemplate => set_template(alloc, fields),
        Operation::UserSet => user_set(fields),
        Operation::UserRemove => user_remove(fields),
        Operation::Install => install_message(alloc, fields),
        Operation::Uninstall => uninstall(alloc, fields),
        Operation::Listing => listing(alloc, fields),
        Operation::AdminCheck => admin_check(alloc, fields),
        Operation::Stop => Ok(Message::Stop),
        Operation::InstallHybrid => install_hybrid(alloc, fields),
        Operation::Convert => convert(alloc, fields),
        Operation::ReadState => Ok(Message::ReadState),
        Operation::ReadService => Ok(Message::ReadService),
        Operation::Register => register(fields),
        Operation::AgentAnswer => agent_answer(fields),
        Operation::Judged => judged(alloc, fields),
        Operation::FromAgent => from_agent(fields),
        Operation::NotResolved => not_resolved(fields),
        Operation::NoAgent => no_agent(fields),
        Operation::AgentGone => agent_gone(fields),
        Operation::AgentFull => agent_full(fields),
        Operation::Done => done(fields),
        Operation::Refused => refused(alloc, fields),
        Operation::ListRow => list_row(alloc, fields),
        Operation::ListEnd => list_end(fields),
        Operation::StoreFault => Ok(Message::StoreFault),
        Operation::StoreDamaged => store_damaged(alloc, fields),
        Operation::StateFile => state_file(alloc, fields),
        Operation::StateEnd => state_end(fields),
        Operation::AgentHere => agent_here(fields),
        Operation::ServiceEnd => service_end(fields),
        Operation::Registered => registered(fields),
        Operation::KindTaken => kind_taken(fields),
        Operation::AgentQuestion => agent_question(alloc, fields),
        Operation::UnknownNumber => unknown_number(fields),
        Operation::AgentWithdrawn => agent_withdrawn(fields),
    }
}

fn check(alloc: Global, fields: &mut Fields) -> Result<Message, WireRefusal>
    ensures { Gives result fields.new (message.read Operation.Check fields.old) }
{
    let question = question(alloc, fields)?;
    Ok(Message::Check { question })
}

fn simple_check(alloc: Global, fields: &mut Fields) -> Result<Message, WireRefusal>
    ensures { Gives result fields.new (message.read Operation.SimpleCheck fields.old) }
{
    let question = question(alloc, fields)?;
    Ok(Message::SimpleCheck { question })
}

fn set_bucket(alloc: Global, fields: &mut Fields) -> Result<Message, WireRefusal>
    ensures { Gives result fields.new (message.read Operation.SetBucket fields.old) }
{
    let bucket = bucket(alloc, fields)?;
    let fallback = ruling(alloc, fields)?;
    Ok(Message::SetBucket { bucket, fallback })
}

fn remove_bucket(alloc: Global, fields: &mut Fields) -> Result<Message, WireRefusal>
    ensures { Gives result fields.new (message.read Operation.RemoveBucket fields.old) }
{
    let bucket = bucket(alloc, fields)?;
    Ok(Message::RemoveBucket { bucket })
}

fn set_policies(alloc: Global, fields: &mut Fields) -> Result<Message, WireRefusal>
    ensures { Gives result fields.new (message.read Operation.SetPolicies fields.old) }
{
    let count = fields.number4()?;
    let changes = changes(alloc, count, fields)?;
    Ok(Message::SetPolicies { changes })
}

fn erase(alloc: Global, fields: &mut Fields) -> Result<Message, WireRefusal>
    ensures { Gives result fields.new (message.read Operation.Erase fields.old) }
{
    let bucket = bucket(alloc, fields)?;
    let filter = filter(alloc, fields)?;
    Ok(Message::Erase { bucket, filter })
}

fn set_template(alloc: Global, fields: &mut Fields) -> Result<Message, WireRefusal>
    ensures { Gives result fields.new (message.read Operation.SetTemplate fields.old) }
{
    let template = template(alloc, fields)?;
    Ok(Message::SetTemplate { template })
}

fn user_set(fields: &mut Fields) -> Result<Message, WireRefusal>
    ensures { Gives result fields.new (message.read Operation.UserSet fields.old) }
{
    let uid = fields.number4()?;
    let kind = user_type(fields)?;
    Ok(Message::UserSet { uid, kind })
}

fn user_remove(fields: &mut Fields) -> Result<Message, WireRefusal>
    ensures { Gives result fields.new (message.read Operation.UserRemove fields.old) }
{
    let uid = fields.number4()?;
    Ok(Message::UserRemove { uid })
}

fn install_message(alloc: Global, fields: &mut Fields) -> Result<Message, WireRefusal>
    ensures { Gives result fields.new (message.read Operation.Install fields.old) }
{
    let install = install(alloc, false, fields)?;
    Ok(Message::Install { install })
}

fn install_hybrid(alloc: Global, fields: &mut Fields) -> Result<Message, WireRefusal>
    ensures { Gives result fields.new (message.read Operation.InstallHybrid fields.old) }
{
    let install = install(alloc, true, fields)?;
    Ok(Message::InstallHybrid { install })
}

fn convert(alloc: Global, fields: &mut Fields) -> Result<Message, WireRefusal>
    ensures { Gives result fields.new (message.read Operation.Convert fields.old) }
{
    let package = ident(alloc, fields)?;
    let hybrid = flag(fields)?;
    Ok(Message::Convert { package, hybrid })
}

fn uninstall(alloc: Global, fields: &mut Fields) -> Result<Message, WireRefusal>
    ensures { Gives result fields.new (message.read Operation.Uninstall fields.old) }
{
    let app = ident(alloc, fields)?;
    let scope = scope(fields)?;
    Ok(Message::Uninstall { app, scope })
}

fn listing(alloc: Global, fields: &mut Fields) -> Result<Message, WireRefusal>
    ensures { Gives result fields.new (message.read Operation.Listing fields.old) }
{
    let bucket = bucket(alloc, fields)?;
    let filter = filter(alloc, fields)?;
    Ok(Message::Listing { bucket, filter })
}

fn admin_check(alloc: Global, fields: &mut Fields) -> Result<Message, WireRefusal>
    ensures { Gives result fields.new (message.read Operation.AdminCheck fields.old) }
{
    let bucket = bucket(alloc, fields)?;
    let recursive = flag(fields)?;
    let question = question(alloc, fields)?;
    Ok(Message::AdminCheck {
        bucket,
        recursive,
        question,
    })
}

fn register(fields: &mut Fields) -> Result<Message, WireRefusal>
    ensures { Gives result fields.new (message.read Operation.Register fields.old) }
{
    let kind = agent_kind(fields)?;
    Ok(Message::Register { kind })
}

fn agent_answer(fields: &mut Fields) -> Result<Message, WireRefusal>
    ensures { Gives result fields.new (message.read Operation.AgentAnswer fields.old) }
{
    let number = fields.number4()?;
    let allowed = flag(fields)?;
    Ok(Message::AgentAnswer { number, allowed })
}

fn judged(alloc: Global, fields: &mut Fields) -> Result<Message, WireRefusal>
    ensures { Gives result fields.new (message.read Operation.Judged fields.old) }
{
    let verdict = verdict(alloc, fields)?;
    Ok(Message::Judged { verdict })
}

fn from_agent(fields: &mut Fields) -> Result<Message, WireRefusal>
    ensures { Gives result fields.new (message.read Operation.FromAgent fields.old) }
{
    let commit = fields.number8()?;
    let kind = kind(fields)?;
    let number = fields.number4()?;
    let allowed = flag(fields)?;
    Ok(Message::FromAgent {
        commit,
        kind,
        number,
        allowed,
    })
}

fn not_resolved(fields: &mut Fields) -> Result<Message, WireRefusal>
    ensures { Gives result fields.new (message.read Operation.NotResolved fields.old) }
{
    let commit = fields.number8()?;
    let kind = kind(fields)?;
    Ok(Message::NotResolved { commit, kind })
}

fn no_agent(fields: &mut Fields) -> Result<Message, WireRefusal>
    ensures { Gives result fields.new (message.read Operation.NoAgent fields.old) }
{
    let commit = fields.number8()?;
    let kind = kind(fields)?;
    Ok(Message::NoAgent { commit, kind })
}

fn agent_gone(fields: &mut Fields) -> Result<Message, WireRefusal>
    ensures { Gives result fields.new (message.read Operation.AgentGone fields.old) }
{
    let commit = fields.number8()?;
    let number = fields.number4()?;
    Ok(Message::AgentGone { commit, number })
}

fn agent_full(fields: &mut Fields) -> Result<Message, WireRefusal>
    ensures { Gives result fields.new (message.read Operation.AgentFull fields.old) }
{
    let commit = fields.number8()?;
    let kind = kind(fields)?;
    let most = most(fields)?;
    Ok(Message::AgentFull { commit, kind, most })
}

fn done(fields: &mut Fields) -> Result<Message, WireRefusal>
    ensures { Gives result fields.new (message.read Operation.Done fields.old) }
{
    let commit = fields.number8()?;
    let erased = fields.number4()?;
    Ok(Message::Done { commit, erased })
}

fn refused(alloc: Global, fields: &mut Fields) -> Result<Message, WireRefusal>
    ensures { Gives result fields.new (message.read Operation.Refused fields.old) }
{
    let refusal = refusal(alloc, fields)?;
    Ok(Message::Refused { refusal })
}

fn list_row(alloc: Global, fields: &mut Fields) -> Result<Message, WireRefusal>
    ensures { Gives result fields.new (message.read Operation.ListRow fields.old) }
{
    let policy = policy(alloc, fields)?;
    Ok(Message::ListRow { policy })
}

fn list_end(fields: &mut Fields) -> Result<Message, WireRefusal>
    ensures { Gives result fields.new (message.read Operation.ListEnd fields.old) }
{
    let count = fields.number4()?;
    Ok(Message::ListEnd { count })
}

fn store_damaged(alloc: Global, fields: &mut Fields) -> Result<Message, WireRefusal>
    ensures { Gives result fields.new (message.read Operation.StoreDamaged fields.old) }
{
    let file = file_name(alloc, fields)?;
    let line = fields.number4()?;
    Ok(Message::StoreDamaged { file, line })
}

fn state_file(alloc: Global, fields: &mut Fields) -> Result<Message, WireRefusal>
    ensures { Gives result fields.new (message.read Operation.StateFile fields.old) }
{
    let name = file_name(alloc, fields)?;
    let bytes = file_part(alloc, fields)?;
    Ok(Message::StateFile { name, bytes })
}

fn state_end(fields: &mut Fields) -> Result<Message, WireRefusal>
    ensures { Gives result fields.new (message.read Operation.StateEnd fields.old) }
{
    let commit = fields.number8()?;
    Ok(Message::StateEnd { commit })
}

fn agent_here(fields: &mut Fields) -> Result<Message, WireRefusal>
    ensures { Gives result fields.new (message.read Operation.AgentHere fields.old) }
{
    let kind = kind(fields)?;
    Ok(Message::AgentHere { kind })
}

fn service_end(fields: &mut Fields) -> Result<Message, WireRefusal>
    ensures { Gives result fields.new (message.read Operation.ServiceEnd fields.old) }
{
    let workers = fields.number4()?;
    let served = fields.number4()?;
    Ok(Message::ServiceEnd { workers, served })
}

fn registered(fields: &mut Fields) -> Result<Message, WireRefusal>
    ensures { Gives result fields.new (message.read Operation.Registered fields.old) }
{
    let kind = kind(fields)?;
    Ok(Message::Registered { kind })
}

fn kind_taken(fields: &mut Fields) -> Result<Message, WireRefusal>
    ensures { Gives result fields.new (message.read Operation.KindTaken fields.old) }
{
    let kind = kind(fields)?;
    Ok(Message::KindTaken { kind })
}

fn agent_question(alloc: Global, fields: &mut Fields) -> Result<Message, WireRefusal>
    ensures { Gives result fields.new (message.read Operation.AgentQuestion fields.old) }
{
    let number = fields.number4()?;
    let question = question(alloc, fields)?;
    let result = ruling(alloc, fields)?;
    Ok(Message::AgentQuestion {
        number,
        question,
        result,
    })
}

fn unknown_number(fields: &mut Fields) -> Result<Message, WireRefusal>
    ensures { Gives result fields.new (message.read Operation.UnknownNumber fields.old) }
{
    let number = fields.number4()?;
    Ok(Message::UnknownNumber { number })
}

fn agent_withdrawn(fields: &mut Fields) -> Result<Message, WireRefusal>
    ensures { Gives result fields.new (message.read Operation.AgentWithdrawn fields.old) }
{
    let number = fields.number4()?;
    Ok(Message::AgentWithdrawn { number })
}
