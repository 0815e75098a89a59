// `sample N`: what the generated script comes to, as five lines.
ghost use Rattle.std.specs.Prelude.{◌≡◌, ◌++◌, ℕ, IfOk, IfErr, OnOk, Some};
ghost use Rattle.run_endings.specs.Outside.{sink_seen};
ghost use Rattle.run_endings.specs.Saying.{Said, WritesAnswers};
ghost use Rattle.sample_runs.specs.Sample.{Outcome, outcome, count_line, sample_text};
ghost use Rattle.sample_runs.specs.SampleRun.{RunsSample};
ghost use Rattle.sample_runs.specs.parts.Following.{StopsAt};
ghost use Rattle.sample_runs.specs.parts.Asking.{Tells};

use crate::samples::Sample;
use crate::tallies::{Tally, ask_all};
use desk_ports::{Bytes, Sink, write_all};
use itoa::Buffer;
use run_endings::Ending;
use std::alloc::{AllocError, Global};

/// Runs the generated script of so many applications on a fresh policy state, and has the sink take what it comes to.
/// No folder is mounted. Nothing is written where memory runs out.
pub fn run_sample<K: Sink>(alloc: Global, count: u32, sink: &mut K) -> Ending
    ensures { (said : Said) × RunsSample count said result
        × WritesAnswers result said (sink_seen K.taken K.faults sink.old) (sink_seen K.taken K.faults sink.new) }
{
    match sample_answer(alloc, count) {
        Ok(text) => match write_all(sink, text.as_slice()) {
            Ok(()) => Ending::Done,
            Err(_) => Ending::Sink,
        },
        Err(ending) => ending,
    }
}

// The answer, or how the run ends without one.
fn sample_answer(alloc: Global, count: u32) -> Result<Bytes, Ending>
    ensures { Tells count result }
{
    let mut sample = match Sample::prepared(alloc, count) {
        Ok(sample) => sample,
        Err(ending) => return Err(ending),
    };
    let commits = sample.desk.commit();
    let tally = match ask_all(alloc, &mut sample, count) {
        Ok(tally) => tally,
        Err(ending) => return Err(ending),
    };
    match print_outcome(alloc, count, commits, tally) {
        Ok(text) => Ok(text),
        Err(_) => Err(Ending::Memory),
    }
}

// The five lines.
fn print_outcome(alloc: Global, count: u32, commits: u64, tally: Tally) -> Result<Bytes, AllocError>
    ensures { IfOk result (λ text. text ≡ sample_text count (record { commits = commits; tally = tally })) }
{
    let mut text = Bytes::new(alloc);
    print_count(b"sample ", u64::from(count), &mut text)?;
    print_count(b"commits ", commits, &mut text)?;
    print_count(b"checks ", 4 * u64::from(count), &mut text)?;
    print_count(b"allow ", tally.allowed, &mut text)?;
    print_count(b"deny ", tally.denied, &mut text)?;
    Ok(text)
}

// Appends a word, a number and a newline.
fn print_count(word: &[u8], number: u64, text: &mut Bytes) -> Result<(), AllocError>
    ensures { OnOk result (text.new ≡ text.old ++ count_line word.now number) }
{
    text.append(word)?;
    text.append(Buffer::new().format(number).as_bytes())?;
    text.append(b"\n")
}
