ghost use Rattle.std.specs.Prelude.{◌≡◌, ◌⊎◌, String, List, true, false};
ghost use Rattle.std.specs.List.{list_any};
ghost use Rattle.std.specs.declared.alloc.Global.{Global};
ghost use Rattle.run_endings.specs.Ending.{source_faults_after};
ghost use Rattle.run_endings.specs.Outside.{source_seen, sink_seen, disk_seen};
ghost use Rattle.run_endings.specs.Saying.{Said};
ghost use Rattle.run_endings.specs.declared.endings.Ending.TheVariants.{Words};
ghost use Rattle.command_words.specs.Commands.{command_of, is_option, reads_source, mounts_folder, uses_net};
ghost use Rattle.privilege_cli.specs.Program.{RunsCommand, AnswersBy, CountsDisk, Ends, seen_of};

use access_runs::run_access;
use admin_runs::run_admin;
use agent_runs::run_agent;
use client_runs::{run_check, run_simple};
use command_words::{Command, CommandRefusal, note_words};
use desk_ports::{Disk, Sink, Source};
use desk_server::Notes;
use folder_runs::run_load;
use host_notes::{COMMANDS_ARE_READ, RULES_ARE_READ};
use host_ports::host_words;
use link_ports::{Dial, Door, Gate, Link, Net};
use local_runs::run_local;
use run_endings::Ending;
use sample_runs::run_sample;
use script_notes::note_damage;
use serve_runs::run_serve;
use std::alloc::Global;
use std::env::Env;
use std::sync::Wait;
use std::thread::Threads;
use std::time::Clock;
use watch_runs::run_watch;

/// Runs the command that the words name, writes the last line that belongs to the way in which the run ends, and
/// answers the status.
///
/// Status 0: the command did its work; 1: out of memory; 2: the words are no command; 3: a line is outside its grammar;
/// 4: the source failed; 5: the sink failed; 6: the disk failed; 7: the net failed; 8: the folder stands for no policy
/// state; 9: what a peer replied is no reply; 10: a step of a script wanted a frame past the limit. The first to happen
/// decides, but for a service, which goes on behind a call that failed. Words that are no command leave the source, the
/// disk and the net as they were; memory may run out in reading them, but where one begins with `-`. `is_typed` says
/// whether a person types what the source gives, who is then told what is read. It may wait.
pub fn run<
    R: Threads + Wait + Clock + Sync,
    S: Source,
    K: Sink + Send,
    D: Disk,
    N: Net + Send,
    G: Gate + Sync,
    T: Notes + Sync,
>(
    rt: &R,
    alloc: Global,
    words: &[String],
    is_typed: bool,
    source: &mut S,
    sink: &mut K,
    disk: &mut D,
    net: &mut N,
    gate: &G,
    notes: &T,
) -> u8
where
    N::Door: Send,
    <N::Door as Door>::Link: Send,
    <<N::Door as Door>::Link as Link>::End: Send,
    <N as Dial>::Link: Send,
    <<N as Dial>::Link as Link>::End: Send,
    ensures run { Ends N.Dial N.Link.Link N.closed N.Door.Door N.Door.Link.Link (command_of words.now) result
        (seen_of S.Source K.Sink D.Disk N.Dial source.old sink.old disk.old net.old)
        (seen_of S.Source K.Sink D.Disk N.Dial source.new sink.new disk.new net.new) net.old net.new }
    ensures option { list_any is_option words.now ≡ true → result ≡ 2 }
    ensures source { reads_source (command_of words.now) ≡ false → source.new ≡ source.old }
    ensures disk { mounts_folder (command_of words.now) ≡ false → disk.new ≡ disk.old }
    ensures net { uses_net (command_of words.now) ≡ false → net.new ≡ net.old }
{
    let ending = run_words(
        rt, alloc, words, is_typed, source, sink, disk, net, gate, notes,
    );
    ending.write_last_line(sink);
    note_damage(alloc, &ending, sink);
    ending.status()
}

// Runs the command that the words name, up to its last line.
fn run_words<
    R: Threads + Wait + Clock + Sync,
    S: Source,
    K: Sink + Send,
    D: Disk,
    N: Net + Send,
    G: Gate + Sync,
    T: Notes + Sync,
>(
    rt: &R,
    alloc: Global,
    words: &[String],
    is_typed: bool,
    source: &mut S,
    sink: &mut K,
    disk: &mut D,
    net: &mut N,
    gate: &G,
    notes: &T,
) -> Ending
where
    N::Door: Send,
    <N::Door as Door>::Link: Send,
    <<N::Door as Door>::Link as Link>::End: Send,
    <N as Dial>::Link: Send,
    <<N as Dial>::Link as Link>::End: Send,
    ensures run { (said : Said)
        × RunsCommand N.Dial N.Link.Link N.closed N.Door.Door N.Door.Link.Link said result
        (source_seen S.left S.faults source.old) (source_seen S.left S.faults source.new)
        (disk_seen D.state D.moment D.left_since D.faults disk.old)
        (disk_seen D.state D.moment D.left_since D.faults disk.new)
        net.old net.new (command_of words.now)
        × AnswersBy N.Dial N.Link.Link N.closed N.Door.Door N.Door.Link.Link result
        (disk_seen D.state D.moment D.left_since D.faults disk.old)
        (disk_seen D.state D.moment D.left_since D.faults disk.new)
        net.old net.new said (command_of words.now) (sink_seen K.taken K.faults sink.old)
        (sink_seen K.taken K.faults sink.new) }
    ensures option { list_any is_option words.now ≡ true → result ≡ Words }
    ensures source_count { S.faults source.new ≡ source_faults_after result (S.faults source.old) }
    ensures disk_count { CountsDisk (command_of words.now) result (D.faults disk.old) (D.faults disk.new) }
    ensures source { reads_source (command_of words.now) ≡ false → source.new ≡ source.old }
    ensures disk { mounts_folder (command_of words.now) ≡ false → disk.new ≡ disk.old }
    ensures net { uses_net (command_of words.now) ≡ false → net.new ≡ net.old }
{
    match Command::read(alloc, words) {
        Ok(Command::Local) => {
            greet(is_typed, COMMANDS_ARE_READ, notes);
            run_local(alloc, source, sink, disk)
        }
        Ok(Command::SmackLoad) => run_load(alloc, sink, disk),
        Ok(
            Command::SmackAccess {
                subject,
                object,
                asked,
            },
        ) => {
            greet(is_typed, RULES_ARE_READ, notes);
            run_access(alloc, &subject, &object, asked, source, sink)
        }
        Ok(Command::Sample { count }) => run_sample(alloc, count, sink),
        Ok(Command::Serve { workers }) => run_serve(rt, alloc, workers, disk, net, gate, notes),
        Ok(Command::Watch { workers }) => {
            run_watch(rt, alloc, workers, disk, net, gate, notes, sink)
        }
        Ok(Command::Check(asked)) => run_check(alloc, &asked, net, sink),
        Ok(Command::Simple(asked)) => run_simple(alloc, &asked, net, sink),
        Ok(Command::Admin) => {
            greet(is_typed, COMMANDS_ARE_READ, notes);
            run_admin(alloc, source, sink, net)
        }
        Ok(Command::Agent { kind, allowed }) => run_agent(rt, alloc, kind, allowed, net, sink),
        Err(CommandRefusal::Unknown(fault)) => {
            note_words(alloc, words, fault, sink);
            Ending::Words
        }
        Err(CommandRefusal::Memory(_)) => Ending::Memory,
    }
}

// Tells a person who types what the source is read for.
fn greet<T: Notes>(is_typed: bool, line: &str, notes: &T) {
    if is_typed {
        notes.note(line);
    }
}

/// Runs the program with the words of a host, and answers the status. Where there is no memory for the words it is 1,
/// and nothing is read, written, mounted, dialled or served. It may wait.
pub fn run_on<
    E: Env,
    R: Threads + Wait + Clock + Sync,
    S: Source,
    K: Sink + Send,
    D: Disk,
    N: Net + Send,
    G: Gate + Sync,
    T: Notes + Sync,
>(
    host: &E,
    rt: &R,
    alloc: Global,
    is_typed: bool,
    source: &mut S,
    sink: &mut K,
    disk: &mut D,
    net: &mut N,
    gate: &G,
    notes: &T,
) -> u8
where
    N::Door: Send,
    <N::Door as Door>::Link: Send,
    <<N::Door as Door>::Link as Link>::End: Send,
    <N as Dial>::Link: Send,
    <<N as Dial>::Link as Link>::End: Send,
    ensures { ((words : List (String Global))
        × Ends N.Dial N.Link.Link N.closed N.Door.Door N.Door.Link.Link (command_of words) result
        (seen_of S.Source K.Sink D.Disk N.Dial source.old sink.old disk.old net.old)
        (seen_of S.Source K.Sink D.Disk N.Dial source.new sink.new disk.new net.new) net.old net.new)
        ⊎ ((result ≡ 1) × (source.new ≡ source.old) × (sink.new ≡ sink.old) × (disk.new ≡ disk.old)
        × (net.new ≡ net.old)) }
{
    match host_words(host, alloc) {
        Ok(words) => run(
            rt, alloc, &words, is_typed, source, sink, disk, net, gate, notes,
        ),
        Err(_) => 1,
    }
}
