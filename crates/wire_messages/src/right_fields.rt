// What the types of fields keep, told to the contracts of messages that are made of values. These functions change
// nothing: that a name is a name is what its type knows.
ghost use Rattle.std.specs.Prelude.{◌<◌, ◌≤◌, ◌^◌, length, OnOk};
ghost use Rattle.std.specs.List.{AllByRecursion};
ghost use Rattle.wire_messages.specs.Commands.{IsByRule, HasRightText, install_message, message_of};
ghost use Rattle.wire_fields.specs.Right.{IsName, IsBucket, IsIdent, IsAuthor, IsFilterField, IsKey, IsFilter, IsKind};
ghost use Rattle.wire_fields.specs.Right.{IsRuling, IsChange, IsScope, ArePrivileges, IsInstall, IsTemplate, IsTold};
ghost use Rattle.wire_fields.specs.Right.{IsRight, HasRoom, IsQuestion, IsRow, IsOptionalRow};
ghost use Rattle.wire_reading.specs.Lent.{judged};
ghost use Rattle.std.specs.Option.{option_map};
ghost use Rattle.bucket_eval.specs.Found.{row_of};

use app_registry::{Ident, Install, NameSet, Scope};
use bucket_eval::BorrowedAnswer;
use bucket_store::Change;
use cynara_keys::{
    BucketName, Filter, FilterField, Key, Kind, Name, Policy, PolicyResult, Question,
};
use desk_ports::{Bytes, FileName};
use desk_state::{Command, Refusal};
use rule_templates::Template;
use std::alloc::AllocError;
use wire_fields::Message;

fn name_is_right(name: &Name)
    ensures { IsName name.now }
{
    let _bytes = name.as_slice();
}

fn bucket_is_right(name: &BucketName)
    ensures { IsBucket name.now }
{
    let _bytes = name.as_slice();
}

fn ident_is_right(name: &Ident)
    ensures { IsIdent name.now }
{
    let _bytes = name.as_slice();
}

fn author_is_right(author: &Option<Ident>)
    ensures { IsAuthor author.now }
{
    match author {
        Some(author) => ident_is_right(author),
        None => {}
    }
}

fn filter_field_is_right(part: &FilterField)
    ensures { IsFilterField part.now }
{
    match part {
        FilterField::Every => {}
        FilterField::Any => {}
        FilterField::Exact(name) => name_is_right(name),
    }
}

fn key_is_right(key: &Key)
    ensures { IsKey key.now }
{
    let _client = key.client();
    let _user = key.user();
    let _privilege = key.privilege();
}

fn filter_is_right(filter: &Filter)
    ensures { IsFilter filter.now }
{
    filter_field_is_right(&filter.client);
    filter_field_is_right(&filter.user);
    filter_field_is_right(&filter.privilege);
}

fn ruling_is_right(ruling: &PolicyResult)
    ensures { IsRuling ruling.now }
{
    let _kind = ruling.kind().0;
    let _bytes = ruling.metadata().as_slice();
}

fn change_is_right(change: &Change)
    ensures { IsChange change.now }
{
    match change {
        Change::Set {
            bucket,
            key,
            result: ruling,
        } => {
            bucket_is_right(bucket);
            key_is_right(key);
            ruling_is_right(ruling);
        }
        Change::Delete { bucket, key } => {
            bucket_is_right(bucket);
            key_is_right(key);
        }
    }
}

fn changes_are_right(changes: &[Change])
    ensures { AllByRecursion IsChange changes.now }
{
    for change in changes {
        change_is_right(change);
    }
}

fn names_are_right(names: &[Name])
    ensures { AllByRecursion IsName names.now }
{
    for name in names {
        name_is_right(name);
    }
}

fn kind_is_right(kind: Kind)
    ensures { IsKind kind }
{
    let _number = kind.0;
}

fn scope_is_right(scope: Scope)
    ensures { IsScope scope }
{
    match scope {
        Scope::Everyone => {}
        Scope::One(_uid) => {}
    }
}

fn privileges_are_right(names: &NameSet)
    ensures { length names.now < 2 ^ 32 → ArePrivileges names.now }
{
    names_are_right(names.as_slice());
}

fn install_is_right(install: &Install)
    ensures { length install.now.privileges < 2 ^ 32 → IsInstall install.now.hybrid install.now }
{
    ident_is_right(&install.package);
    author_is_right(&install.author);
    ident_is_right(&install.app);
    scope_is_right(install.scope);
    privileges_are_right(&install.privileges);
}

fn install_message_is_right(install: &Install)
    ensures { HasRoom (install_message install.now) → IsRight (install_message install.now) }
{
    install_is_right(install);
}

/// The message of a command has no field that is wrong, where there is room for its list.
pub fn command_is_right(command: &Command)
    requires { HasRightText command.now }
    ensures { HasRoom (message_of command.now) → IsRight (message_of command.now) }
{
    match command {
        Command::SetBucket { bucket, fallback } => {
            bucket_is_right(bucket);
            ruling_is_right(fallback);
        }
        Command::RemoveBucket { bucket } => bucket_is_right(bucket),
        Command::SetPolicies { changes } => changes_are_right(changes.as_slice()),
        Command::Erase { bucket, filter } => {
            bucket_is_right(bucket);
            filter_is_right(filter);
        }
        Command::Layout => {}
        Command::SetTemplate { .. } => {}
        Command::UserSet { uid, .. } => {
            let _uid = *uid;
        }
        Command::UserRemove { uid } => {
            let _uid = *uid;
        }
        Command::Install { install } => install_message_is_right(install),
        Command::Uninstall { app, scope } => {
            ident_is_right(app);
            scope_is_right(*scope);
        }
        Command::Convert { package, .. } => ident_is_right(package),
    }
}

/// A template that the command sets is one that its text is read as, and the text has room in a frame. Makes this text,
/// where there is one, and drops it.
pub fn text_is_right(command: &Command) -> Result<(), AllocError>
    ensures { OnOk result (HasRightText command.now) }
{
    match command {
        Command::SetTemplate { template } => template_is_right(template),
        Command::SetBucket { .. } => Ok(()),
        Command::RemoveBucket { .. } => Ok(()),
        Command::SetPolicies { .. } => Ok(()),
        Command::Erase { .. } => Ok(()),
        Command::Layout => Ok(()),
        Command::UserSet { .. } => Ok(()),
        Command::UserRemove { .. } => Ok(()),
        Command::Install { .. } => Ok(()),
        Command::Uninstall { .. } => Ok(()),
        Command::Convert { .. } => Ok(()),
    }
}

fn template_is_right(template: &Template) -> Result<(), AllocError>
    ensures { OnOk result (IsTemplate template.now) }
{
    let _text = template.text()?;
    Ok(())
}

/// A law, which does nothing when it is called: no field of a client's question is wrong.
pub fn question_is_right(question: &Question)
    ensures { IsQuestion question.now }
{
    let _client = question.client();
    let _user = question.user();
    let _privilege = question.privilege();
}

/// A law, which does nothing when it is called: no field of a row that lists a policy is wrong.
pub fn policy_is_right(policy: &Policy)
    ensures { IsRight (Message.ListRow policy.now) }
{
    key_is_right(&policy.key);
    ruling_is_right(&policy.result);
}

/// A law, which does nothing when it is called: no field of the reply is wrong that has so few bytes of a file.
pub fn state_file_is_right(name: &FileName, bytes: &Bytes)
    requires { length bytes.now ≤ 65536 }
    ensures { IsRight (Message.StateFile name.now bytes.now) }
{
    let _name = name.as_slice();
    let _bytes = bytes.as_slice();
}

/// A law, which does nothing when it is called: no field of what an agent is asked is wrong.
pub fn agent_question_is_right(number: u32, question: &Question, ruling: &PolicyResult)
    ensures { IsRight (Message.AgentQuestion number question.now ruling.now) }
{
    question_is_right(question);
    ruling_is_right(ruling);
    let _number = number;
}

/// A law, which does nothing when it is called: no field of the reply is wrong that an answer of a database decides.
pub fn answer_is_right(commit: u64, answer: &BorrowedAnswer<'_>)
    ensures { IsRight (judged commit answer.now) }
{
    let _commit = commit;
    ruling_is_right(answer.result);
    bucket_is_right(answer.bucket);
    optional_key_is_right(answer.key);
}

fn optional_key_is_right(key: Option<&Key>)
    ensures { IsOptionalRow (option_map (λ key. row_of key.now) key.entry) }
{
    match key {
        Some(key) => row_is_right(key),
        None => {}
    }
}

fn row_is_right(key: &Key)
    ensures { IsRow (row_of key.now) }
{
    let _client = key.client();
    let _user = key.user();
    let _privilege = key.privilege();
}

/// A refusal by a rule has no field that is wrong.
pub fn refusal_is_right(refusal: &Refusal)
    requires { IsByRule refusal.now }
    ensures { IsTold refusal.now }
{
    match refusal {
        Refusal::Reserved(name) => bucket_is_right(name),
        Refusal::LayoutThere => {}
        Refusal::NoLayout => {}
        Refusal::NoBucket(name) => bucket_is_right(name),
        Refusal::RootBucket => {}
        Refusal::BadKind(kind) => kind_is_right(*kind),
        Refusal::UnknownUser(uid) => {
            let _uid = *uid;
        }
        Refusal::OtherPackage(name) => ident_is_right(name),
        Refusal::OtherAuthor(author) => author_is_right(author),
        Refusal::OtherHybrid(_) => {}
        Refusal::NotInstalled => {}
        Refusal::Limit(_, limit) => {
            let _limit = *limit;
        }
        Refusal::Cycle(name) => bucket_is_right(name),
        Refusal::Memory(_) => {}
    }
}
