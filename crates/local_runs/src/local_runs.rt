// `local`: mounts the folder, reads a script from the source, and has the sink take its answers.
ghost use Rattle.std.specs.Prelude.{◌≡◌, []};
ghost use Rattle.desk_keeper.specs.Keeper.{disk_of, held_of, IsDecided, IsSameDisk};
ghost use Rattle.line_script.specs.Block.{outside};
ghost use Rattle.script_words.specs.declared.places.Place.TheVariants.{Local};
ghost use Rattle.run_endings.specs.Ending.{source_faults_after, disk_faults_after};
ghost use Rattle.run_endings.specs.Outside.{source_seen, sink_seen, disk_seen};
ghost use Rattle.run_endings.specs.Saying.{Said, WritesAnswers};
ghost use Rattle.folder_runs.specs.Keeping.{counts_disk, KeepsSteps};
ghost use Rattle.script_replies.specs.Folded.{unasked};
ghost use Rattle.local_runs.specs.LocalRun.{AnswersScript, RunsLocal};
ghost use Rattle.local_runs.specs.parts.Local.{counts_sink};
ghost use Rattle.script_replies.specs.NextLine.{counts_source};
ghost use Rattle.local_runs.specs.parts.Progress.{Answers, ending_of};
ghost use Rattle.local_runs.specs.parts.Finish.{Finishes};

use crate::local_script::LocalScript;
use desk_keeper::{Keeper, KeptDesk};
use desk_ports::{Disk, Sink, Source};
use folder_runs::ending_of_mount;
use line_script::MOST_LINE_BYTES;
use run_endings::Ending;
use script_replies::{MOST_SCRIPT_BYTES, note_open_block};
use std::alloc::Global;
use text_lines::LineReader;

/// Mounts the folder, and answers the script of the source over it. What is answered when memory runs out, or at a
/// wrong line, is still written.
pub fn run_local<S: Source, K: Sink, D: Disk>(
    alloc: Global,
    source: &mut S,
    sink: &mut K,
    disk: &mut D,
) -> Ending
    ensures run { (said : Said)
        × RunsLocal said result (source_seen S.left S.faults source.old) (source_seen S.left S.faults source.new)
        (disk_seen D.state D.moment D.left_since D.faults disk.old)
        (disk_seen D.state D.moment D.left_since D.faults disk.new)
        × WritesAnswers result said (sink_seen K.taken K.faults sink.old) (sink_seen K.taken K.faults sink.new) }
    ensures source { S.faults source.new ≡ source_faults_after result (S.faults source.old) }
    ensures disk { D.faults disk.new ≡ disk_faults_after result (D.faults disk.old) }
{
    let found = match KeptDesk::find(alloc, disk) {
        Ok(found) => found,
        Err(refusal) => return ending_of_mount(refusal),
    };
    let mut keeper = Keeper::of(alloc, disk, found);
    let ending = answer_over(&mut keeper, alloc, source, sink);
    let _ = keeper.into_disk();
    ending
}

// Answers the script of the source over a folder that is mounted.
fn answer_over<S: Source, K: Sink, D: Disk>(
    keeper: &mut Keeper<'_, D>,
    alloc: Global,
    source: &mut S,
    sink: &mut K,
) -> Ending
    requires decided { IsDecided keeper.old }
    ensures run { (said : Said)
        × (script : AnswersScript keeper.old.desk said result (source_seen S.left S.faults source.old)
        (source_seen S.left S.faults source.new))
        × KeepsSteps D.state D.moment D.left_since (disk_of keeper.old) (disk_of keeper.new)
        keeper.old.desk (held_of keeper.old) result script.answered script.steps
        × WritesAnswers result said (sink_seen K.taken K.faults sink.old) (sink_seen K.taken K.faults sink.new) }
    ensures source { S.faults source.new ≡ source_faults_after result (S.faults source.old) }
    ensures disk { D.faults (disk_of keeper.new) ≡ disk_faults_after result (D.faults (disk_of keeper.old)) }
    ensures same_disk { IsSameDisk keeper.old keeper.new }
{
    let mut script = LocalScript::new(alloc);
    match answer_script(&mut script, keeper, alloc, source, sink) {
        Ok(()) => Ending::Done,
        Err(ending) => finish(&mut script, ending, sink),
    }
}

// Answers the whole script of the source.
fn answer_script<S: Source, K: Sink, D: Disk>(
    script: &mut LocalScript,
    keeper: &mut Keeper<'_, D>,
    alloc: Global,
    source: &mut S,
    sink: &mut K,
) -> Result<(), Ending>
    requires reader { script.old.reader ≡ outside Local }
    requires rules { script.old.rules ≡ unasked }
    requires shares { script.old.shares ≡ [] }
    requires answers { script.old.answers ≡ [] }
    requires decided { IsDecided keeper.old }
    ensures answered { (answers : Answers keeper.old.desk (ending_of result) script.new.answers
        (S.left source.old) (S.left source.new) (K.taken sink.old) (K.taken sink.new))
        × KeepsSteps D.state D.moment D.left_since (disk_of keeper.old) (disk_of keeper.new)
        keeper.old.desk (held_of keeper.old) (ending_of result) answers.answered answers.steps }
    ensures source { S.faults source.new ≡ counts_source result (S.faults source.old) }
    ensures sink { K.faults sink.new ≡ counts_sink result (K.faults sink.old) }
    ensures disk { D.faults (disk_of keeper.new) ≡ counts_disk result (D.faults (disk_of keeper.old)) }
    ensures same_disk { IsSameDisk keeper.old keeper.new }
{
    let mut lines = LineReader::new(alloc, MOST_LINE_BYTES, MOST_SCRIPT_BYTES)?;
    'lines: while script.answer_next(&mut lines, keeper, source, sink)? {}
    if script.reader.in_block() {
        // The line behind the last one should have ended the block.
        let number = lines.number() + 1;
        note_open_block(alloc, number, sink);
        return Err(Ending::Line(number));
    }
    Ok(())
}

// Has the sink take the answers that wait where memory ran out, or before the number of a wrong line. How the run ends.
fn finish<K: Sink>(script: &mut LocalScript, ending: Ending, sink: &mut K) -> Ending
    ensures { Finishes (K.taken sink.old) (K.taken sink.new) (K.faults sink.old) (K.faults sink.new)
        script.old.answers ending result }
{
    match ending {
        Ending::Memory => {
            let _ = script.flush(sink);
            Ending::Memory
        }
        Ending::Line(number) => match script.flush(sink) {
            Ok(()) => Ending::Line(number),
            Err(failed) => failed,
        },
        ending => ending,
    }
}
