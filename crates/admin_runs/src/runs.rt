// `admin`.
ghost use Rattle.std.specs.Prelude.{◌≡◌, ◌≤◌};
ghost use Rattle.run_endings.specs.Ending.{source_faults_after, Unraised};
ghost use Rattle.run_endings.specs.Outside.{source_seen, sink_seen};
ghost use Rattle.run_endings.specs.Saying.{Said, WritesAnswers};
ghost use Rattle.admin_client.specs.Sending.{with_dial};
ghost use Rattle.script_replies.specs.Limits.{most_script_bytes};
ghost use Rattle.script_replies.specs.NextLine.{counts_source};
ghost use Rattle.admin_runs.specs.AdminRun.{RunsAdmin, CompletesAdmin, IsCounted};
ghost use Rattle.admin_runs.specs.parts.Talk as words;
ghost use Rattle.admin_runs.specs.parts.Talk.{Talks};
ghost use Rattle.admin_runs.specs.parts.Script.{SendsAll, EndsScript};

use crate::admin_scripts::AdminScript;
use admin_client::AdminLink;
use desk_ports::{Sink, Source};
use line_script::{MOST_LINE_BYTES, Reader};
use link_ports::Dial;
use run_endings::Ending;
use script_replies::{MOST_SCRIPT_BYTES, note_open_block};
use std::alloc::Global;
use text_lines::LineReader;

/// Sends the script of the source to the service, each step as one message, and writes what comes back. A block is one
/// message, which its last line sends. Nothing is sent behind a line outside the grammar, nor behind a message without
/// an answer. The answer to each step is written before the next line is read. The link is given back at the end. It
/// may wait.
pub fn run_admin<S: Source, K: Sink, N: Dial>(
    alloc: Global,
    source: &mut S,
    sink: &mut K,
    dial: &mut N,
) -> Ending
    ensures run { (said : Said)
        × RunsAdmin N.Link.faults N.Link.marks N.Link.traffic N.faults N.dials N.given_back
        said result (source_seen S.left S.faults source.old) (source_seen S.left S.faults source.new) dial.old dial.new
        × WritesAnswers result said (sink_seen K.taken K.faults sink.old) (sink_seen K.taken K.faults sink.new) }
    ensures source { S.faults source.new ≡ source_faults_after result (S.faults source.old) }
    ensures count { IsCounted result (N.faults dial.old) (N.faults dial.new) }
    ensures completes { Unraised (S.faults source.old) (S.faults source.new)
        → Unraised (K.faults sink.old) (K.faults sink.new)
        → Unraised (N.faults dial.old) (N.faults dial.new)
        → (said : Said) × CompletesAdmin N.Link.faults N.Link.marks N.Link.traffic N.faults N.dials N.given_back
        said result (source_seen S.left S.faults source.old) (source_seen S.left S.faults source.new) dial.old dial.new
        × WritesAnswers result said (sink_seen K.taken K.faults sink.old) (sink_seen K.taken K.faults sink.new) }
{
    let mut link = AdminLink::new(alloc);
    let ending = ending_by(send_script(alloc, &mut link, source, sink, dial));
    link.leave(dial);
    ending
}

// How a run ends whose script was sent so far.
fn ending_by(sent: Result<(), Ending>) -> Ending
    ensures { result ≡ words.ending_by sent }
{
    match sent {
        Ok(()) => Ending::Done,
        Err(ending) => ending,
    }
}

// Sends the whole script of the source.
fn send_script<S: Source, K: Sink, N: Dial>(
    alloc: Global,
    link: &mut AdminLink<N>,
    source: &mut S,
    sink: &mut K,
    dial: &mut N,
) -> Result<(), Ending>
    ensures sent { SendsAll (Talks N.Link.faults N.Link.marks N.Link.traffic N.faults N.dials N.given_back
        (with_dial dial.old link.old) (with_dial dial.new link.new)
        (sink_seen K.taken K.faults sink.old) (sink_seen K.taken K.faults sink.new))
        (S.left source.old) (S.left source.new) (words.ending_by result) }
    ensures source { S.faults source.new ≡ counts_source result (S.faults source.old) }
{
    let mut script = AdminScript::new(alloc);
    let mut lines = match LineReader::new(alloc, MOST_LINE_BYTES, MOST_SCRIPT_BYTES) {
        Ok(lines) => lines,
        Err(_) => return Err(Ending::Memory),
    };
    loop {
        match script.send_next(&mut lines, link, source, sink, dial) {
            Ok(true) => {}
            Ok(false) => return end_script(alloc, &script.reader, &lines, sink),
            Err(ending) => return Err(ending),
        }
    }
}

// A script must not end within a block: the line behind the last one should have ended it.
fn end_script<K: Sink>(
    alloc: Global,
    reader: &Reader,
    lines: &LineReader,
    sink: &mut K,
) -> Result<(), Ending>
    requires { lines.now.number ≤ most_script_bytes }
    ensures ends { EndsScript reader.now lines.now.number result }
    ensures taken { K.taken sink.new ≡ K.taken sink.old }
    ensures count { K.faults sink.new ≡ K.faults sink.old }
{
    if reader.in_block() {
        let number = lines.number() + 1;
        note_open_block(alloc, number, sink);
        return Err(Ending::Line(number));
    }
    Ok(())
}
