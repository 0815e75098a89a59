// The fields of each message, appended to a frame.
ghost use Rattle.wire_fields.specs.Appended.{Appended};
ghost use Rattle.wire_fields.specs.Message as words;

use crate::list_writers::{put_changes, put_install, put_refusal, put_verdict};
use crate::writers::{
    put_bucket, put_file_name, put_filter, put_ident, put_policy, put_question, put_ruling,
    put_scope, put_template, put_user_type,
};
use cynara_keys::Kind;
use desk_ports::Bytes;
use std::alloc::AllocError;
use wire_fields::Message;
use wire_fields::plain_writers::{put_flag, put_kind, put_part, put4, put8};

/// Appends the fields of a message.
pub fn put_fields(out: &mut Bytes, message: &Message) -> Result<(), AllocError>
    ensures { Appended result out.old out.new (words.fields message.now) }
{
    match message {
        Message::Check { question } => put_question(out, question),
        Message::SimpleCheck { question } => put_question(out, question),
        Message::SetBucket { bucket, fallback } => {
            put_bucket(out, bucket)?;
            put_ruling(out, fallback)
        }
        Message::RemoveBucket { bucket } => put_bucket(out, bucket),
        Message::SetPolicies { changes } => put_changes(out, changes.as_slice()),
        Message::Erase { bucket, filter } => {
            put_bucket(out, bucket)?;
            put_filter(out, filter)
        }
        Message::Layout => Ok(()),
        Message::SetTemplate { template } => put_template(out, template),
        Message::UserSet { uid, kind } => {
            put4(out, *uid)?;
            put_user_type(out, *kind)
        }
        Message::UserRemove { uid } => put4(out, *uid),
        Message::Install { install } => put_install(out, install),
        Message::Uninstall { app, scope } => {
            put_ident(out, app)?;
            put_scope(out, *scope)
        }
        Message::Listing { bucket, filter } => {
            put_bucket(out, bucket)?;
            put_filter(out, filter)
        }
        Message::AdminCheck {
            bucket,
            recursive,
            question,
        } => {
            put_bucket(out, bucket)?;
            put_flag(out, *recursive)?;
            put_question(out, question)
        }
        Message::Stop => Ok(()),
        Message::InstallHybrid { install } => put_install(out, install),
        Message::Convert { package, hybrid } => {
            put_ident(out, package)?;
            put_flag(out, *hybrid)
        }
        Message::ReadState => Ok(()),
        Message::ReadService => Ok(()),
        Message::Register { kind } => put_kind(out, *kind),
        Message::AgentAnswer { number, allowed } => {
            put4(out, *number)?;
            put_flag(out, *allowed)
        }
        Message::Judged { verdict } => put_verdict(out, verdict),
        Message::FromAgent {
            commit,
            kind,
            number,
            allowed,
        } => put_from_agent(out, *commit, *kind, *number, *allowed),
        Message::NotResolved { commit, kind } => {
            put8(out, *commit)?;
            put_kind(out, *kind)
        }
        Message::NoAgent { commit, kind } => {
            put8(out, *commit)?;
            put_kind(out, *kind)
        }
        Message::AgentGone { commit, number } => { put_commit_and_count(out, *commit, *number) }
        Message::AgentFull { commit, kind, most } => { put_agent_full(out, *commit, *kind, *most) }
        Message::Done { commit, erased } => { put_commit_and_count(out, *commit, *erased) }
        Message::Refused { refusal } => put_refusal(out, refusal),
        Message::ListRow { policy } => put_policy(out, policy),
        Message::ListEnd { count } => put4(out, *count),
        Message::StoreFault => Ok(()),
        Message::StoreDamaged { file, line } => {
            put_file_name(out, file)?;
            put4(out, *line)
        }
        Message::StateFile { name, bytes } => {
            put_file_name(out, name)?;
            put_part(out, bytes.as_slice())
        }
        Message::StateEnd { commit } => put8(out, *commit),
        Message::AgentHere { kind } => put_kind(out, *kind),
        Message::ServiceEnd { workers, served } => {
            put4(out, *workers)?;
            put4(out, *served)
        }
        Message::Registered { kind } => put_kind(out, *kind),
        Message::KindTaken { kind } => put_kind(out, *kind),
        Message::AgentQuestion {
            number,
            question,
            result,
        } => {
            put4(out, *number)?;
            put_question(out, question)?;
            put_ruling(out, result)
        }
        Message::UnknownNumber { number } => put4(out, *number),
        Message::AgentWithdrawn { number } => put4(out, *number),
    }
}

fn put_from_agent(
    out: &mut Bytes,
    commit: u64,
    kind: Kind,
    number: u32,
    allowed: bool,
) -> Result<(), AllocError>
    ensures { Appended result out.old out.new (words.fields (Message.FromAgent commit kind number allowed)) }
{
    put8(out, commit)?;
    put_kind(out, kind)?;
    put4(out, number)?;
    put_flag(out, allowed)
}

fn put_agent_full(out: &mut Bytes, commit: u64, kind: Kind, most: u32) -> Result<(), AllocError>
    ensures { Appended result out.old out.new (words.fields (Message.AgentFull commit kind most)) }
{
    put8(out, commit)?;
    put_kind(out, kind)?;
    put4(out, most)
}

fn put_commit_and_count(out: &mut Bytes, commit: u64, count: u32) -> Result<(), AllocError>
    ensures { Appended result out.old out.new (words.fields (Message.Done commit count)) }
{
    put8(out, commit)?;
    put4(out, count)
}
