// A question of four texts.
ghost use Rattle.std.specs.Prelude.{◌≡◌};
ghost use Rattle.client_c.specs.Asked.{Reads};

use crate::codes::{BAD_CLIENT, BAD_PRIVILEGE, BAD_SESSION, BAD_USER};
use cynara_keys::{Name, NameRefusal, Question, name_fault};
use std::alloc::Global;

/// A question, and the session that it is asked in.
#[derive(Drop)]
pub(crate) struct Asking {
    pub session: Name,
    pub question: Question,
}

/// Why no question is read.
#[derive(Clone, Copy)]
pub(crate) enum Unread {
    /// The code of the first text that is no name.
    Wrong(u8),
    /// All are names, and no memory was found for them.
    Memory,
}

/// Reads the four names.
pub(crate) fn asking_of(
    alloc: Global,
    session: &[u8],
    client: &[u8],
    user: &[u8],
    privilege: &[u8],
) -> Result<Asking, Unread>
    ensures { Reads result session.now client.now user.now privilege.now }
{
    if name_fault(session).is_some() {
        return Err(Unread::Wrong(BAD_SESSION));
    }
    if name_fault(client).is_some() {
        return Err(Unread::Wrong(BAD_CLIENT));
    }
    if name_fault(user).is_some() {
        return Err(Unread::Wrong(BAD_USER));
    }
    if name_fault(privilege).is_some() {
        return Err(Unread::Wrong(BAD_PRIVILEGE));
    }
    let Ok(session) = Name::read(alloc, session) else {
        return Err(Unread::Memory);
    };
    let Ok(question) = Question::of(alloc, client, user, privilege) else {
        return Err(Unread::Memory);
    };
    Ok(Asking { session, question })
}
