//! A service and those that talk with it, on threads of their own, over a net that joins them. Each line of the input
//! is a case, printed with its answer behind ` => `, but for blank lines and those that begin with `#`.
//!
//!     serve W GATE FAILS STEP; STEP; .. | KIND ANSWER | STEP; .. / STEP; ..
//!
//! `W` is how many workers of clients there are. `GATE` is `open`, or `held`: then the first client that has entered is
//! held until another one is answered, for at most ten seconds. `FAILS` are the numbers of the calls of the disk that
//! fail, with commas between them, or `-`. At each `/` a new service runs on the same folder. Where an agent's words
//! stand between two `|`, it begins behind the steps before them, and runs beside the others.
//!
//! Steps: `client X`, `admin X` and `agent X` dial a link of the name X; `X> BYTES` sends a frame on it, in digits and
//! quoted texts; `X<` reads a frame; `X-` lets the link go; `check CUP` and `simple CUP` ask by a client that keeps its
//! answers, and `tell N` tells it of a commit; `do LINE` runs the command `admin` with a script of this line;
//! `answered N` waits until so many replies were sent to clients, and `heard N` until the agent heard so often
//! something, each for at most twenty seconds. The answer has what was read, of each command its status and what it
//! wrote, and of each service its status and how many replies clients were sent. None hangs on which thread is first:
//! the steps wait for what it needs.
#![tactic(auto)]

mod agents;
mod answers;
mod gates;
mod people;
mod runs;

use cases_words::{Failure, first_word};
use std::alloc::{AllocError, Global};
use std::io;
use std::sync::Wait;
use std::thread::Threads;
use std::time::Clock;

fn answered<R: Threads + Wait + Sync + Clock>(
    rt: &R,
    alloc: Global,
    line: &str,
) -> Result<String, AllocError> {
    let (word, rest) = first_word(line);
    if word != "serve" {
        return String::from_str(alloc, "no case");
    }
    match runs::serve(rt, alloc, rest) {
        Ok(text) => Ok(text),
        Err(Failure::Memory(error)) => Err(error),
        Err(_) => String::from_str(alloc, "no case"),
    }
}

fn main(rt: HostRuntime) -> io::Result<()> {
    for line in rt.lines(rt.alloc()) {
        let line = line?;
        if line.is_empty() || line.as_str().starts_with('#') {
            println!(rt; "{line}")?;
            continue;
        }
        let text = answered(&rt, rt.alloc(), line.as_str())?;
        println!(rt; "{line} => {text}")?;
    }
    Ok(())
}
