ghost use Rattle.std.specs.Prelude.{◌≡◌, Some, IfOk};
ghost use Rattle.desk_state.specs.declared.commands.Command.TheVariants.{Install as InstallCommand};
ghost use Rattle.wire_messages.specs.Commands as words;
ghost use Rattle.wire_messages.specs.Commands.{IsByRule};
ghost use Rattle.wire_fields.specs.Right.{IsRight, HasRoom};

use crate::right_fields::{command_is_right, refusal_is_right, text_is_right};
use app_registry::Install;
use desk_state::{Command, Refusal};
use std::alloc::AllocError;
use wire_fields::Message;

/// The command of an administrator's message; `None` exactly for a message that is no command.
pub fn command_of(message: &Message) -> Result<Option<Command>, AllocError>
    ensures { IfOk result (λ command. command ≡ words.command_of message.now) }
{
    match message {
        Message::SetBucket { bucket, fallback } => Ok(Some(Command::SetBucket {
            bucket: bucket.copy()?,
            fallback: fallback.copy()?,
        })),
        Message::RemoveBucket { bucket } => Ok(Some(Command::RemoveBucket {
            bucket: bucket.copy()?,
        })),
        Message::SetPolicies { changes } => Ok(Some(Command::SetPolicies {
            changes: changes.copy()?,
        })),
        Message::Erase { bucket, filter } => Ok(Some(Command::Erase {
            bucket: bucket.copy()?,
            filter: filter.copy()?,
        })),
        Message::Layout => Ok(Some(Command::Layout)),
        Message::SetTemplate { template } => Ok(Some(Command::SetTemplate {
            template: template.copy()?,
        })),
        Message::UserSet { uid, kind } => Ok(Some(Command::UserSet {
            uid: *uid,
            kind: *kind,
        })),
        Message::UserRemove { uid } => Ok(Some(Command::UserRemove { uid: *uid })),
        Message::Install { install } | Message::InstallHybrid { install } => {
            Ok(Some(Command::Install {
                install: install.copy()?,
            }))
        }
        Message::Uninstall { app, scope } => Ok(Some(Command::Uninstall {
            app: app.copy()?,
            scope: *scope,
        })),
        Message::Convert { package, hybrid } => Ok(Some(Command::Convert {
            package: package.copy()?,
            hybrid: *hybrid,
        })),
        _ => Ok(None),
    }
}

/// The message that carries a command, from which `command_of` gives the command back. No field of it is wrong, where
/// its lists have fewer than 2^32 elements.
pub fn message_of(command: &Command) -> Result<Message, AllocError>
    ensures message { IfOk result (λ message. message ≡ words.message_of command.now) }
    ensures back { IfOk result (λ message. words.command_of message ≡ Some command.now) }
    ensures right { IfOk result (λ message. HasRoom message → IsRight message) }
{
    text_is_right(command)?;
    command_is_right(command);
    match message_for(command) {
        Ok(message) => Ok(message),
        Err(error) => Err(error),
    }
}

fn message_for(command: &Command) -> Result<Message, AllocError>
    ensures message { IfOk result (λ message. message ≡ words.message_of command.now) }
    ensures back { IfOk result (λ message. words.command_of message ≡ Some command.now) }
{
    match command {
        Command::SetBucket { bucket, fallback } => Ok(Message::SetBucket {
            bucket: bucket.copy()?,
            fallback: fallback.copy()?,
        }),
        Command::RemoveBucket { bucket } => Ok(Message::RemoveBucket {
            bucket: bucket.copy()?,
        }),
        Command::SetPolicies { changes } => Ok(Message::SetPolicies {
            changes: changes.copy()?,
        }),
        Command::Erase { bucket, filter } => Ok(Message::Erase {
            bucket: bucket.copy()?,
            filter: filter.copy()?,
        }),
        Command::Layout => Ok(Message::Layout),
        Command::SetTemplate { template } => Ok(Message::SetTemplate {
            template: template.copy()?,
        }),
        Command::UserSet { uid, kind } => Ok(Message::UserSet {
            uid: *uid,
            kind: *kind,
        }),
        Command::UserRemove { uid } => Ok(Message::UserRemove { uid: *uid }),
        Command::Install { install } => install_message(install),
        Command::Uninstall { app, scope } => Ok(Message::Uninstall {
            app: app.copy()?,
            scope: *scope,
        }),
        Command::Convert { package, hybrid } => Ok(Message::Convert {
            package: package.copy()?,
            hybrid: *hybrid,
        }),
    }
}

/// The message that installs, by the kind of the package.
fn install_message(install: &Install) -> Result<Message, AllocError>
    ensures message { IfOk result (λ message. message ≡ words.install_message install.now) }
    ensures back { IfOk result (λ message. words.command_of message ≡ Some (InstallCommand install.now)) }
{
    let install = install.copy()?;
    if install.hybrid {
        Ok(Message::InstallHybrid { install })
    } else {
        Ok(Message::Install { install })
    }
}

/// The message that tells a refusal by a rule.
pub fn refused_of(refusal: &Refusal) -> Result<Message, AllocError>
    requires { IsByRule refusal.now }
    ensures message { IfOk result (λ message. message ≡ Message.Refused refusal.now) }
    ensures right { IfOk result (λ message. IsRight message) }
{
    refusal_is_right(refusal);
    Ok(Message::Refused {
        refusal: refusal_copy(refusal)?,
    })
}

fn refusal_copy(refusal: &Refusal) -> Result<Refusal, AllocError>
    ensures { IfOk result (λ copy. copy ≡ refusal.now) }
{
    match refusal {
        Refusal::Reserved(name) => Ok(Refusal::Reserved(name.copy()?)),
        Refusal::LayoutThere => Ok(Refusal::LayoutThere),
        Refusal::NoLayout => Ok(Refusal::NoLayout),
        Refusal::NoBucket(name) => Ok(Refusal::NoBucket(name.copy()?)),
        Refusal::RootBucket => Ok(Refusal::RootBucket),
        Refusal::BadKind(kind) => Ok(Refusal::BadKind(*kind)),
        Refusal::UnknownUser(uid) => Ok(Refusal::UnknownUser(*uid)),
        Refusal::OtherPackage(name) => Ok(Refusal::OtherPackage(name.copy()?)),
        Refusal::OtherAuthor(Some(author)) => Ok(Refusal::OtherAuthor(Some(author.copy()?))),
        Refusal::OtherAuthor(None) => Ok(Refusal::OtherAuthor(None)),
        Refusal::OtherHybrid(hybrid) => Ok(Refusal::OtherHybrid(*hybrid)),
        Refusal::NotInstalled => Ok(Refusal::NotInstalled),
        Refusal::Limit(counted, limit) => Ok(Refusal::Limit(*counted, *limit)),
        Refusal::Cycle(name) => Ok(Refusal::Cycle(name.copy()?)),
        Refusal::Memory(error) => Err(*error),
    }
}
