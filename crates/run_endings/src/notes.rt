// What a person is told beside the answers. A note may be lost, and no answer and no status follows from one.
ghost use Rattle.std.specs.Prelude.{◌≡◌};

use desk_ports::Sink;
use std::alloc::AllocError;

/// The most bytes of the input that a note repeats.
pub const MOST_SHOWN_BYTES: usize = 40;

/// Tells what there was memory for.
pub fn note_text<K: Sink>(text: Result<String, AllocError>, sink: &mut K)
    ensures taken { K.taken sink.new ≡ K.taken sink.old }
    ensures count { K.faults sink.new ≡ K.faults sink.old }
{
    if let Ok(text) = text {
        sink.note(text.as_str());
    }
}
