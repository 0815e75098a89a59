// How a run ends where no further message is heard. A person is told what is wrong with what the service sent.
ghost use Rattle.std.specs.Prelude.{◌≡◌};
ghost use Rattle.run_endings.specs.Outside.{sink_seen};
ghost use Rattle.agent_runs.specs.parts.Ends.{ending_of, ending_behind};
ghost use Rattle.agent_runs.specs.parts.Turns.{IsUnwritten};

use client_core::Fault;
use desk_ports::Sink;
use run_endings::{Ending, note_text};
use std::alloc::Global;
use wire_messages::WireRefusal;

/// Where the machine has no message for the bytes that came: they are no frame, or the message has no place there, or
/// no memory was found. Of bytes that came to an agent it tells no other fault.
pub(crate) fn end_of<K: Sink>(alloc: Global, fault: Fault, sink: &mut K) -> Ending
    ensures ending { result ≡ ending_of fault }
    ensures unwritten { IsUnwritten (sink_seen K.taken K.faults sink.old) (sink_seen K.taken K.faults sink.new) }
{
    match fault {
        Fault::Memory(_) => Ending::Memory,
        Fault::Frame(refusal) => {
            note_wrong(alloc, refusal, sink);
            Ending::Reply
        }
        _ => {
            sink.note("privilege: the service sent a message out of its place");
            Ending::Reply
        }
    }
}

/// Where the input ended, with a part of a message there or between two.
pub(crate) fn end_behind<K: Sink>(begun: bool, sink: &mut K) -> Ending
    ensures ending { result ≡ ending_behind begun }
    ensures unwritten { IsUnwritten (sink_seen K.taken K.faults sink.old) (sink_seen K.taken K.faults sink.new) }
{
    if begun {
        sink.note("privilege: the service ended the connection within a frame");
        return Ending::Reply;
    }
    Ending::Done
}

// Tells why bytes of the service are no frame.
fn note_wrong<K: Sink>(alloc: Global, refusal: WireRefusal, sink: &mut K)
    ensures taken { K.taken sink.new ≡ K.taken sink.old }
    ensures count { K.faults sink.new ≡ K.faults sink.old }
{
    let text = format!(in alloc; "privilege: the service sent a wrong frame: {refusal}");
    note_text(text, sink);
}
