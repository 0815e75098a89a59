// `smack-load`: mounts the folder, and has the sink take the Smack rules of all packages.
ghost use Rattle.std.specs.Prelude.{◌≡◌, ◌++◌, IfOk, OnOk};
ghost use Rattle.std.specs.List.{flat_map};
ghost use Rattle.run_endings.specs.Ending.{disk_faults_after};
ghost use Rattle.run_endings.specs.Outside.{sink_seen, disk_seen};
ghost use Rattle.run_endings.specs.Saying.{Said, WritesAnswers};
ghost use Rattle.folder_runs.specs.LoadRun.{RunsLoad, LoadAnswers, loads_text};

use crate::mounts::ending_of_mount;
use desk_keeper::KeptDesk;
use desk_ports::{Bytes, Disk, SetFile, Sink, write_all};
use desk_state::Desk;
use run_endings::Ending;
use set_text::write_loads;
use std::alloc::{AllocError, Global};

/// Mounts the folder, and writes the Smack rules of all packages, in the order of their names. Nothing is written where
/// memory runs out.
pub fn run_load<K: Sink, D: Disk>(alloc: Global, sink: &mut K, disk: &mut D) -> Ending
    ensures run { (said : Said)
        × RunsLoad said result (disk_seen D.state D.moment D.left_since D.faults disk.old)
        (disk_seen D.state D.moment D.left_since D.faults disk.new)
        × WritesAnswers result said (sink_seen K.taken K.faults sink.old) (sink_seen K.taken K.faults sink.new) }
    ensures disk { D.faults disk.new ≡ disk_faults_after result (D.faults disk.old) }
{
    match KeptDesk::find(alloc, disk) {
        Ok(found) => write_rules(alloc, found.desk(), sink),
        Err(refusal) => ending_of_mount(refusal),
    }
}

// Has the sink take the rules of all packages of this state.
fn write_rules<K: Sink>(alloc: Global, desk: &Desk, sink: &mut K) -> Ending
    ensures { (said : Said) × LoadAnswers desk.now result said.due
        × WritesAnswers result said (sink_seen K.taken K.faults sink.old) (sink_seen K.taken K.faults sink.new) }
{
    let Ok(text) = rules_text(alloc, desk) else {
        return Ending::Memory;
    };
    match write_all(sink, text.as_slice()) {
        Ok(()) => Ending::Done,
        Err(_) => Ending::Sink,
    }
}

// The rules of all packages of this state, a line each.
fn rules_text(alloc: Global, desk: &Desk) -> Result<Bytes, AllocError>
    ensures { IfOk result (λ text. text ≡ loads_text desk.now) }
{
    let files = write_loads(alloc, desk)?;
    let mut text = Bytes::new(alloc);
    append_files(&files, &mut text)?;
    Ok(text)
}

// Appends the bytes of the files, one after another.
fn append_files(files: &[SetFile], text: &mut Bytes) -> Result<(), AllocError>
    ensures { OnOk result (text.new ≡ text.old ++ flat_map (λ file. file.bytes) files.now) }
{
    for file in files {
        text.append(file.bytes.as_slice())?;
    }
    Ok(())
}
