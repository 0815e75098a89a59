// A service beside those that talk with it.
use crate::agents;
use crate::answers::ending_text;
use crate::gates::HoldingGate;
use crate::people::People;
use cases_words::{Failure, fails, files, first_number, first_word, put_word};
use desk_ports::{Disk, MemDisk};
use desk_server::Unheard;
use joined_net::JoinedNet;
use link_ports::{Dial, Door, Gate, Link, Net};
use run_endings::Ending;
use serve_runs::{MOST_CLIENT_WORKERS, run_serve};
use std::alloc::Global;
use std::sync::Wait;
use std::thread::{Threads, join};
use std::time::Clock;

/// Runs of the service on one folder.
pub fn serve<R: Threads + Wait + Sync + Clock>(
    rt: &R,
    alloc: Global,
    rest: &str,
) -> Result<String, Failure> {
    let (workers, rest) = first_number(rest)?;
    let (gate, rest) = first_word(rest);
    let (listed, rest) = first_word(rest);
    if workers == 0 || workers > MOST_CLIENT_WORKERS {
        return Err(Failure::Words);
    }
    let mut disk = MemDisk::new(alloc, files(alloc, "")?, fails(alloc, listed)?)?;
    let mut told = String::new(alloc);
    for steps in rest.split('/') {
        let text = run(rt, alloc, workers, gate == "held", &mut disk, steps)?;
        put_word(&mut told, text.as_str())?;
    }
    Ok(told)
}

// One run of the service on this thread, beside those who talk with it and an agent, each on a thread of its own.
fn run<R: Threads + Wait + Sync + Clock>(
    rt: &R,
    alloc: Global,
    workers: u32,
    holds: bool,
    disk: &mut MemDisk,
    steps: &str,
) -> Result<String, Failure> {
    let gate = HoldingGate::new(rt, holds);
    let mut net = JoinedNet::new(rt, alloc)?;
    let mut agents_net = net.share()?;
    let mut theirs = net.share()?;
    let (first, words, last) = parts_of(steps);
    let ((ran, talked), ending) = join(
        rt,
        || join(
            rt,
            || agents::run(rt, alloc, &gate, &mut agents_net, words),
            || talk(alloc, &gate, &mut theirs, first, last),
        ),
        || service(rt, alloc, workers, disk, &mut net, &gate),
    );
    let mut told = talked?;
    let ran = ran?;
    if !ran.is_empty() {
        put_word(&mut told, "agent")?;
        put_word(&mut told, ran.as_str())?;
    }
    if gate.given_up.count() > 0 {
        put_word(&mut told, "held to the end")?;
    }
    let end = ending_text(alloc, &ending, gate.answered.count())?;
    put_word(&mut told, end.as_str())?;
    Ok(told)
}

// The steps before an agent runs, its words, and the steps beside it. There are no words where none runs.
fn parts_of(steps: &str) -> (&str, &str, &str) {
    let (first, rest) = steps.split_once("|").unwrap_or((steps, ""));
    let (words, last) = rest.split_once("|").unwrap_or((rest, ""));
    (first, words.trim(), last)
}

// A run of the service, by 1 to 64 workers of clients.
fn service<R: Threads + Wait + Clock + Sync, D: Disk, N: Net + Send, G: Gate + Sync>(
    rt: &R,
    alloc: Global,
    workers: u32,
    disk: &mut D,
    net: &mut N,
    gate: &G,
) -> Ending
where
    N::Door: Send,
    <N::Door as Door>::Link: Send,
    <<N::Door as Door>::Link as Link>::End: Send,
    <N as Dial>::Link: Send,
    <<N as Dial>::Link as Link>::End: Send,
{
    if workers == 0 || workers > MOST_CLIENT_WORKERS {
        return Ending::Words;
    }
    run_serve(rt, alloc, workers, disk, net, gate, &Unheard)
}

// Those who talk with the service. It is they who stop it, and who call the agent.
fn talk<R: Wait + Clock + Copy + Drop, W: Wait + Clock + Copy + Drop>(
    alloc: Global,
    gate: &HoldingGate<W>,
    net: &mut JoinedNet<R>,
    first: &str,
    last: &str,
) -> Result<String, Failure> {
    let theirs = net.share()?;
    let client = net.share()?;
    let mut people = People::new(alloc, theirs, client)?;
    let begun = people.do_steps(gate, first);
    gate.called.raise();
    let done = match begun {
        Ok(()) => people.do_steps(gate, last),
        Err(failure) => Err(failure),
    };
    people.leave();
    match done {
        Ok(()) => Ok(String::from_str(alloc, people.told())?),
        Err(failure) => Err(failure),
    }
}
