// A script is read from a source line by line. What is done with its steps is for each command to say.
ghost use Rattle.std.specs.Prelude.{◌≡◌};
ghost use Rattle.text_lines.specs.LineReader.{EndsReading};
ghost use Rattle.script_replies.specs.NextLine.{ReadsNext, counts_source};

use crate::line_notes::note_past_limit;
use desk_ports::{Sink, Source};
use run_endings::Ending;
use std::alloc::Global;
use text_lines::LineReader;

/// Reads the next line of a script, if one is left. Where it goes past a limit, a person is told which.
pub fn read_next_line<S: Source, K: Sink>(
    alloc: Global,
    lines: &mut LineReader,
    source: &mut S,
    sink: &mut K,
) -> Result<bool, Ending>
    ensures next { ReadsNext (S.left source.old) (S.left source.new) lines.old lines.new result }
    ensures ended { EndsReading (S.left source.old) (S.left source.new) lines.old lines.new }
    ensures source { S.faults source.new ≡ counts_source result (S.faults source.old) }
    ensures taken { K.taken sink.new ≡ K.taken sink.old }
    ensures sink { K.faults sink.new ≡ K.faults sink.old }
{
    match lines.next(source) {
        Ok(has_line) => Ok(has_line),
        Err(refusal) => {
            note_past_limit(alloc, refusal, lines, sink);
            Err(Ending::from(refusal))
        }
    }
}
