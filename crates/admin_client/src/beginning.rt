// The machine is given a message.
ghost use Rattle.std.specs.Prelude.{◌≡◌, Ok};
ghost use Rattle.std.specs.declared.alloc.AllocError.{AllocError};
ghost use Rattle.client_core.specs.Admin as does;
ghost use Rattle.client_core.specs.declared.stages.AdminStage.TheVariants as stage_is;
ghost use Rattle.client_core.specs.declared.steps.Step.TheVariants as step;
ghost use Rattle.client_core.specs.declared.steps.Fault.TheVariants as of_core;
ghost use Rattle.admin_client.specs.declared.beginning.Begun as begun_type;
ghost use Rattle.admin_client.specs.parts.Beginning.{answer_of};

use client_core::{AdminMachine, Fault, Step};
use std::alloc::AllocError;
use wire_messages::Message;

/// What is to be done with a message.
#[derive(Clone, Copy)]
pub(crate) enum Begun {
    /// Its frame is to be sent.
    Send,
    /// The service is to be dialled first.
    Dial,
    /// No memory was found for its frame.
    NoRoom(AllocError),
    /// Its frame would have this length.
    TooLong(u64),
}

/// Gives the machine a message.
pub(crate) fn begin(machine: &mut AdminMachine, message: &Message) -> Begun
    requires { machine.old.stage ≡ stage_is.Idle }
    ensures { does.Says message.now (answer_of result) machine.old machine.new }
{
    match machine.say(message) {
        Ok(step) => begun_by(step),
        Err(length) => Begun::TooLong(length),
    }
}

fn begun_by(step: Step) -> Begun
    requires { (begun : begun_type.Begun) × (answer_of begun ≡ Ok step) }
    ensures { answer_of result ≡ Ok step }
{
    match step {
        Step::Send => Begun::Send,
        Step::Dial => Begun::Dial,
        Step::Over(fault) => no_room(fault),
        _ => unreachable!(),
    }
}

fn no_room(fault: Fault) -> Begun
    requires { (error : AllocError) × (fault ≡ of_core.Memory error) }
    ensures { answer_of result ≡ Ok (step.Over fault) }
{
    match fault {
        Fault::Memory(error) => Begun::NoRoom(error),
        _ => unreachable!(),
    }
}
