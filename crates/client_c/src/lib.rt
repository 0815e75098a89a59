//! The machines of `client_core` for C: a client, an administrator or an agent behind a handle, in memory of the C
//! library.
//!
//! A handle of all zeros holds none. No call has a precondition but those of its types: what is used wrongly is
//! answered by a code, and changes nothing. There is no state but what the handles hold.
#![tactic(auto)]

mod calls;
mod codes;
mod handles;
mod held;
mod questions;
mod said;
mod telling;

ghost use Rattle.std.specs.Prelude.{◌≡◌, None, Some};
ghost use Rattle.client_core.specs.Machine as machine;
ghost use Rattle.client_core.specs.Admin.{fresh};
ghost use Rattle.client_core.specs.declared.machines.Machine.TheVariants.{Admin};
ghost use Rattle.client_c.specs.Exports as exports;
ghost use Rattle.client_c.specs.Exports.{Drives, Opens, OpensClient, OpensAgent, Copies};

use calls::{answer, ask, copy_from, look, open, recall, send, tell, told_by};
use client_core::{AdminMachine, AgentMachine, ClientMachine, Machine};
use codes::*;
use cynara_keys::Kind;
pub use handles::Handle;
use handles::{put, taken};
pub use held::Held;
pub use said::{Said, Text};
use std::alloc::Global;
use telling::told;

/// Opens a client that keeps at most so many answers, 1 to 4,096.
#[unsafe(no_mangle)]
pub extern "C" fn privilege_core_open_client(alloc: Global, handle: &mut Handle, entries: u32) -> u8
    ensures { OpensClient entries result handle.new.held.value }
{
    let _ = taken(alloc, handle);
    if entries == 0 || entries > 4096 {
        return BAD_COUNT;
    }
    match ClientMachine::new(alloc, entries) {
        Ok(client) => open(alloc, handle, Machine::Client(client)),
        Err(_) => NO_MEMORY,
    }
}

/// Opens an administrator.
#[unsafe(no_mangle)]
pub extern "C" fn privilege_core_open_admin(alloc: Global, handle: &mut Handle) -> u8
    ensures { Opens (Admin fresh) result handle.new.held.value }
{
    let _ = taken(alloc, handle);
    open(alloc, handle, Machine::Admin(AdminMachine::new(alloc)))
}

/// Opens an agent of a kind, 2 to 65533.
#[unsafe(no_mangle)]
pub extern "C" fn privilege_core_open_agent(alloc: Global, handle: &mut Handle, kind: u16) -> u8
    ensures { OpensAgent kind result handle.new.held.value }
{
    let _ = taken(alloc, handle);
    if !Kind(kind).is_agent() {
        return BAD_KIND;
    }
    open(
        alloc,
        handle,
        Machine::Agent(AgentMachine::new(alloc, Kind(kind))),
    )
}

/// Lets the handle's machine go. The handle holds none then.
#[unsafe(no_mangle)]
pub extern "C" fn privilege_core_close(alloc: Global, handle: &mut Handle)
    ensures { handle.new.held.value ≡ None }
{
    let _ = taken(alloc, handle);
}

/// The service was dialled.
#[unsafe(no_mangle)]
pub extern "C" fn privilege_core_dialled(alloc: Global, handle: &mut Handle, said: &mut Said) -> u8
    ensures { Drives machine.Dialled handle.old.held.value handle.new.held.value result said.old said.new }
{
    let Some(mut boxed) = taken(alloc, handle) else {
        return NO_CORE;
    };
    let step = boxed.dialled();
    let code = told(&boxed, step, said);
    put(handle, boxed);
    code
}

/// The connection ended, or could not be made.
#[unsafe(no_mangle)]
pub extern "C" fn privilege_core_down(alloc: Global, handle: &mut Handle, said: &mut Said) -> u8
    ensures { Drives machine.Falls handle.old.held.value handle.new.held.value result said.old said.new }
{
    let Some(mut boxed) = taken(alloc, handle) else {
        return NO_CORE;
    };
    let step = boxed.down();
    let code = told(&boxed, step, said);
    put(handle, boxed);
    code
}

/// These bytes came.
#[unsafe(no_mangle)]
pub extern "C" fn privilege_core_came(
    alloc: Global,
    handle: &mut Handle,
    piece: &[u8],
    said: &mut Said,
) -> u8
    ensures { Drives (machine.Comes piece.now) handle.old.held.value handle.new.held.value result said.old said.new }
{
    let Some(mut boxed) = taken(alloc, handle) else {
        return NO_CORE;
    };
    let step = boxed.came(piece);
    let code = told(&boxed, step, said);
    put(handle, boxed);
    code
}

/// The caller gave the connection up: what was under way is over.
#[unsafe(no_mangle)]
pub extern "C" fn privilege_core_leave(alloc: Global, handle: &mut Handle) -> u8
    ensures { exports.Leaves handle.old.held.value result handle.new.held.value }
{
    let Some(mut boxed) = taken(alloc, handle) else {
        return NO_CORE;
    };
    boxed.leave();
    put(handle, boxed);
    IDLE
}

/// Copies bytes of the frame from this place on, as many as there are and the room has, and returns how many. 0 where
/// none is there, or the handle holds none.
#[unsafe(no_mangle)]
pub extern "C" fn privilege_core_frame(
    alloc: Global,
    handle: &mut Handle,
    from: usize,
    out: &mut [u8],
) -> usize
    ensures copied { Copies (exports.frame_of handle.old.held.value) from result out.old out.new }
    ensures same { handle.new.held.value ≡ handle.old.held.value }
{
    let Some(boxed) = taken(alloc, handle) else {
        return 0;
    };
    let count = copy_from(boxed.frame(), from, out);
    put(handle, boxed);
    count
}

/// How many bytes may come next, at most. 0 where none is waited for, or the handle holds none.
#[unsafe(no_mangle)]
pub extern "C" fn privilege_core_wanted(alloc: Global, handle: &mut Handle) -> usize
    ensures count { result ≡ exports.wanted_of handle.old.held.value }
    ensures same { handle.new.held.value ≡ handle.old.held.value }
{
    let Some(boxed) = taken(alloc, handle) else {
        return 0;
    };
    let wanted = boxed.wanted();
    put(handle, boxed);
    wanted
}

/// A client asks whether the use of a privilege is granted.
#[unsafe(no_mangle)]
pub extern "C" fn privilege_core_client_ask(
    alloc: Global,
    handle: &mut Handle,
    session: &[u8],
    client: &[u8],
    user: &[u8],
    privilege: &[u8],
    simple: bool,
    said: &mut Said,
) -> u8
    ensures { exports.Asks session.now (record { client = client.now; user = user.now; privilege = privilege.now })
        simple
        handle.old.held.value handle.new.held.value result said.old said.new }
{
    let Some(mut boxed) = taken(alloc, handle) else {
        return NO_CORE;
    };
    let code = ask(
        alloc, &mut boxed, session, client, user, privilege, simple, said,
    );
    put(handle, boxed);
    code
}

/// A client's caller looked, and the connection stands: is what is kept under this text the answer, a session, a
/// client, a user and a privilege with a space between each two? 5 with what it says; 0 where nothing is kept: then the
/// client is to be asked.
#[unsafe(no_mangle)]
pub extern "C" fn privilege_core_client_recall(
    alloc: Global,
    handle: &mut Handle,
    text: &[u8],
    said: &mut Said,
) -> u8
    ensures { exports.Recalls text.now handle.old.held.value handle.new.held.value result said.old said.new }
{
    let Some(mut boxed) = taken(alloc, handle) else {
        return NO_CORE;
    };
    let code = recall(&mut boxed, text, said);
    put(handle, boxed);
    code
}

/// A client's caller looked whether the connection stands.
#[unsafe(no_mangle)]
pub extern "C" fn privilege_core_client_looked(
    alloc: Global,
    handle: &mut Handle,
    is_up: bool,
    said: &mut Said,
) -> u8
    ensures { exports.Looks is_up handle.old.held.value handle.new.held.value result said.old said.new }
{
    let Some(mut boxed) = taken(alloc, handle) else {
        return NO_CORE;
    };
    let code = look(&mut boxed, is_up, said);
    put(handle, boxed);
    code
}

/// A client is told of a commit that was acknowledged.
#[unsafe(no_mangle)]
pub extern "C" fn privilege_core_client_tell(alloc: Global, handle: &mut Handle, commit: u64) -> u8
    ensures { exports.Hears commit handle.old.held.value result handle.new.held.value }
{
    let Some(mut boxed) = taken(alloc, handle) else {
        return NO_CORE;
    };
    let code = tell(&mut boxed, commit);
    put(handle, boxed);
    code
}

/// The greatest commit that a client was told of. 0 before any, and where the handle holds no client.
#[unsafe(no_mangle)]
pub extern "C" fn privilege_core_client_told(alloc: Global, handle: &mut Handle) -> u64
    ensures commit { result ≡ exports.told_of handle.old.held.value }
    ensures same { handle.new.held.value ≡ handle.old.held.value }
{
    let Some(boxed) = taken(alloc, handle) else {
        return 0;
    };
    let commit = told_by(&boxed);
    put(handle, boxed);
    commit
}

/// An administrator sends a message: the number of its operation, and its fields as they stand in a frame.
#[unsafe(no_mangle)]
pub extern "C" fn privilege_core_admin_send(
    alloc: Global,
    handle: &mut Handle,
    operation: u8,
    fields: &[u8],
    said: &mut Said,
) -> u8
    ensures { exports.Sends operation fields.now handle.old.held.value handle.new.held.value result said.old said.new }
{
    let Some(mut boxed) = taken(alloc, handle) else {
        return NO_CORE;
    };
    let code = send(&mut boxed, operation, fields, said);
    put(handle, boxed);
    code
}

/// An agent answers the question of this number.
#[unsafe(no_mangle)]
pub extern "C" fn privilege_core_agent_answer(
    alloc: Global,
    handle: &mut Handle,
    number: u32,
    allowed: bool,
) -> u8
    ensures { exports.Answers number allowed handle.old.held.value result handle.new.held.value }
{
    let Some(mut boxed) = taken(alloc, handle) else {
        return NO_CORE;
    };
    let code = answer(&mut boxed, number, allowed);
    put(handle, boxed);
    code
}
