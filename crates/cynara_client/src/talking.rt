// One frame of a question goes out on a link, and the machine hears what comes back.
ghost use Rattle.std.specs.Prelude.{◌≡◌, ◌<◌, ◌≤◌, length};
ghost use Rattle.wire_reading.specs.Stream.{IsOpen};
ghost use Rattle.client_connection.specs.Reading.{Receives, IsTrouble};
ghost use Rattle.client_connection.specs.Exchange.{Exchanges};
ghost use Rattle.wire_fields.specs.declared.operations.Heard.TheVariants.{Replies};
ghost use Rattle.client_core.specs.Asking.{wanted_at};
ghost use Rattle.client_core.specs.Client.{waiting};
ghost use Rattle.client_core.specs.Listening.{Listening};
ghost use Rattle.client_core.specs.declared.stages.Asking.{Asking};
ghost use Rattle.client_core.specs.declared.stages.Stage.TheVariants as stage_is;
ghost use Rattle.cynara_client.specs.parts.Talking.{Takes, Hears, tried};

use client_connection::{receive_some, send_frame};
use client_core::{ClientMachine, Step};
use link_ports::Link;

// How many bytes are received at once, at most.
const MOST_PIECE: usize = 4096;

/// Sends the frame of the question, and has the machine hear the reply, of which no byte past it is taken. It may wait.
pub(crate) fn talk<L: Link>(machine: &mut ClientMachine, link: &mut L) -> Step
    requires { (asking : Asking) × (machine.old.stage ≡ waiting asking) }
    ensures came { (asking : Asking) → machine.old.stage ≡ waiting asking
        → Hears (λ result. Exchanges machine.old.frame result (L.traffic link.old) (L.traffic link.new))
        (IsTrouble (L.marks link.new) (L.faults link.new)) (tried asking) result machine.old machine.new }
    ensures ends { (L.marks link.new).ends ≡ (L.marks link.old).ends }
{
    if send_frame(link, machine.frame()) {
        return hear(machine, link);
    }
    machine.down()
}

// Has the machine hear the reply.
fn hear<L: Link>(machine: &mut ClientMachine, link: &mut L) -> Step
    requires { (asking : Asking) × (machine.old.stage ≡ waiting asking) }
    ensures came { (asking : Asking) → machine.old.stage ≡ waiting asking
        → Hears (λ result. Receives Replies result (L.traffic link.old) (L.traffic link.new))
        (IsTrouble (L.marks link.new) (L.faults link.new)) (tried asking) result machine.old machine.new }
    ensures ends { (L.marks link.new).ends ≡ (L.marks link.old).ends }
{
    let mut room = [0u8; MOST_PIECE];
    loop {
        let want = machine.wanted().min(MOST_PIECE);
        match take_piece(machine, link, &mut room[..want]) {
            Step::Wait => {}
            Step::Reply(message) => return Step::Reply(message),
            Step::Dial => return Step::Dial,
            Step::Over(fault) => return Step::Over(fault),
            _ => unreachable!(),
        }
    }
}

// Takes the next bytes of the reply, as many as there are and no more than the room.
fn take_piece<L: Link>(machine: &mut ClientMachine, link: &mut L, room: &mut [u8]) -> Step
    requires some { 0 < length room.old }
    requires wanted { length room.old ≤ wanted_at machine.old.stage }
    ensures taken { (asking : Asking) (ear : Listening) → machine.old.stage ≡ stage_is.Waiting asking ear
        → IsOpen ear.side ear.bytes
        → Takes (L.traffic link.old) (L.traffic link.new) (IsTrouble (L.marks link.new) (L.faults link.new))
        asking ear result machine.old machine.new }
    ensures ends { (L.marks link.new).ends ≡ (L.marks link.old).ends }
{
    let count = receive_some(link, room);
    if count == 0 {
        return machine.down();
    }
    machine.came(&room[..count])
}
