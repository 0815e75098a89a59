// What the exports do with the machine that a handle holds.
ghost use Rattle.std.specs.Prelude.{◌≡◌, None};
ghost use Rattle.client_c.specs.Exports as exports;
ghost use Rattle.client_c.specs.Exports.{Opens, Copies};

use crate::codes::{ANSWER, IDLE, NO_MEMORY, WRONG_ROLE};
use crate::handles::put;
use crate::questions::{Unread, asking_of};
use crate::telling::{code_of_step, say_kept, told};
use crate::{Handle, Said};
use client_core::Machine;
use std::alloc::Global;

/// Puts a machine into a handle that holds none.
pub(crate) fn open(alloc: Global, handle: &mut Handle, machine: Machine) -> u8
    requires { handle.old.held.value ≡ None }
    ensures { Opens machine result handle.new.held.value }
{
    match Box::new(alloc, machine) {
        Ok(boxed) => {
            put(handle, boxed);
            IDLE
        }
        Err(_) => NO_MEMORY,
    }
}

/// A client is asked.
pub(crate) fn ask(
    alloc: Global,
    machine: &mut Machine,
    session: &[u8],
    client: &[u8],
    user: &[u8],
    privilege: &[u8],
    simple: bool,
    said: &mut Said,
) -> u8
    ensures { exports.AsksOne session.now (record { client = client.now; user = user.now; privilege = privilege.now })
        simple
        result said.old said.new machine.old machine.new }
{
    let Machine::Client(asker) = machine else {
        return WRONG_ROLE;
    };
    match asking_of(alloc, session, client, user, privilege) {
        Ok(asking) => {
            let step = asker.ask(asking.session, asking.question, simple);
            told(machine, step, said)
        }
        Err(Unread::Memory) => {
            asker.leave();
            NO_MEMORY
        }
        Err(Unread::Wrong(code)) => code,
    }
}

/// A client's caller looked.
pub(crate) fn look(machine: &mut Machine, is_up: bool, said: &mut Said) -> u8
    ensures { exports.LooksOne is_up result said.old said.new machine.old machine.new }
{
    let Machine::Client(client) = machine else {
        return WRONG_ROLE;
    };
    let step = client.looked(is_up);
    told(machine, step, said)
}

/// A client's caller looked, and the connection is up.
pub(crate) fn recall(machine: &mut Machine, text: &[u8], said: &mut Said) -> u8
    ensures { exports.RecallsOne text.now result said.old said.new machine.old machine.new }
{
    let Machine::Client(client) = machine else {
        return WRONG_ROLE;
    };
    if !client.recall(text) {
        return IDLE;
    }
    say_kept(machine, said);
    ANSWER
}

/// A client is told of a commit.
pub(crate) fn tell(machine: &mut Machine, commit: u64) -> u8
    ensures { exports.HearsOne commit result machine.old machine.new }
{
    match machine {
        Machine::Client(client) => {
            client.tell(commit);
            IDLE
        }
        _ => WRONG_ROLE,
    }
}

/// The greatest commit that a client was told of.
pub(crate) fn told_by(machine: &Machine) -> u64
    ensures { result ≡ exports.told_by machine.now }
{
    match machine {
        Machine::Client(client) => client.told(),
        _ => 0,
    }
}

/// An administrator sends a message.
pub(crate) fn send(machine: &mut Machine, operation: u8, fields: &[u8], said: &mut Said) -> u8
    ensures { exports.SendsOne operation fields.now result said.old said.new machine.old machine.new }
{
    let Machine::Admin(admin) = machine else {
        return WRONG_ROLE;
    };
    let step = admin.send(operation, fields);
    told(machine, step, said)
}

/// An agent answers.
pub(crate) fn answer(machine: &mut Machine, number: u32, allowed: bool) -> u8
    ensures { exports.AnswersOne number allowed result machine.old machine.new }
{
    match machine {
        Machine::Agent(agent) => {
            let step = agent.answer(number, allowed);
            let code = code_of_step(&step);
            drop(step);
            code
        }
        _ => WRONG_ROLE,
    }
}

/// Copies bytes from this place on, as many as there are and the room has.
pub(crate) fn copy_from(bytes: &[u8], from: usize, out: &mut [u8]) -> usize
    ensures { Copies bytes.now from result out.old out.new }
{
    if from >= bytes.len() {
        return 0;
    }
    let count = (bytes.len() - from).min(out.len());
    out[..count].copy_from_slice(&bytes[from..from + count]);
    count
}
