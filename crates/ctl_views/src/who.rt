// What each application of each user is answered.
use crate::clients::{client_names, named_clients};
use app_registry::user_name;
use bucket_eval::{Index, Scratch};
use ctl_text::{put, put_result};
use cynara_keys::{BorrowedQuestion, Kind, Name};
use desk_ports::Bytes;
use desk_state::Desk;
use std::alloc::{AllocError, Global};

/// A line `USER CLIENT RESULT` for each user and each application, or client that a policy names, that is allowed the
/// privilege or for which an agent is asked; of one user where one is named. Who is denied has no line.
pub fn list_who(
    alloc: Global,
    desk: &Desk,
    privilege: &Name,
    only: Option<&Name>,
) -> Result<Bytes, AllocError> {
    let mut out = Bytes::new(alloc);
    let mut labels = client_names(alloc, desk.registry())?;
    let mut others = named_clients(alloc, desk.database(), &labels)?;
    labels.append(&mut others)?;
    let index = Index::build(alloc, desk.database())?;
    let mut scratch = Scratch::new(alloc)?;
    match only {
        Some(user) => put_user(&mut out, &index, &mut scratch, user, &labels, privilege)?,
        None => {
            for user in desk.registry().users() {
                let name = user_name(alloc, user.uid)?;
                put_user(&mut out, &index, &mut scratch, &name, &labels, privilege)?;
            }
        }
    }
    Ok(out)
}

fn put_user(
    out: &mut Bytes,
    index: &Index,
    scratch: &mut Scratch,
    user: &Name,
    clients: &[Name],
    privilege: &Name,
) -> Result<(), AllocError> {
    for client in clients {
        put_client(out, index, scratch, user, client, privilege)?;
    }
    Ok(())
}

fn put_client(
    out: &mut Bytes,
    index: &Index,
    scratch: &mut Scratch,
    user: &Name,
    client: &Name,
    privilege: &Name,
) -> Result<(), AllocError> {
    let question = BorrowedQuestion::of(client.as_slice(), user.as_slice(), privilege.as_slice());
    let answer = index.decide(scratch, &question);
    if answer.result.kind() == Kind::DENY {
        return Ok(());
    }
    out.append(user.as_slice())?;
    put(out, " ")?;
    out.append(client.as_slice())?;
    put(out, " ")?;
    put_result(out, answer.result)?;
    put(out, "\n")
}
