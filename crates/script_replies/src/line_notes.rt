// What a person is told of a line at which a run ends: why it is none.
ghost use Rattle.std.specs.Prelude.{◌≡◌};

use desk_ports::Sink;
use line_reasons::{Reason, script_fault};
use line_script::Spot;
use run_endings::note_text;
use std::alloc::{AllocError, Global};
use text_lines::{LineReader, ReadRefusal};

/// Tells why the line of a script with this number, which stood at this spot, is outside the grammar.
pub fn note_script_line<K: Sink>(
    alloc: Global,
    number: u32,
    spot: Option<Spot>,
    line: &[u8],
    sink: &mut K,
)
    ensures taken { K.taken sink.new ≡ K.taken sink.old }
    ensures count { K.faults sink.new ≡ K.faults sink.old }
{
    let Some(spot) = spot else {
        return;
    };
    if let Ok(Some(fault)) = script_fault(alloc, spot, line) {
        note_text(format!(in alloc; "privilege: line {number}, {fault}"), sink);
    }
}

/// Tells that the line with this number had to end a block.
pub fn note_open_block<K: Sink>(alloc: Global, number: u32, sink: &mut K)
    ensures taken { K.taken sink.new ≡ K.taken sink.old }
    ensures count { K.faults sink.new ≡ K.faults sink.old }
{
    note_text(line_text(alloc, number, Reason::OpenBlock), sink);
}

/// Tells which limit the next line of a script goes past, where that is why it was not handed out.
pub fn note_past_limit<K: Sink>(
    alloc: Global,
    refusal: ReadRefusal,
    lines: &LineReader,
    sink: &mut K,
)
    ensures taken { K.taken sink.new ≡ K.taken sink.old }
    ensures count { K.faults sink.new ≡ K.faults sink.old }
{
    if let ReadRefusal::PastLimit(number) = refusal {
        let reason = if lines.is_line_too_long() {
            Reason::LinePastLimit
        } else {
            Reason::ScriptPastLimit
        };
        note_text(line_text(alloc, number, reason), sink);
    }
}

fn line_text(alloc: Global, number: u32, reason: Reason) -> Result<String, AllocError> {
    format!(in alloc; "privilege: line {number}: {reason}")
}
