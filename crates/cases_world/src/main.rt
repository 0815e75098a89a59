//! Cases of the policy service as a machine over events. Each line of standard input is a list of events, in the form
//! of `event_texts`, and each line of the output that list with what it leads to behind ` => `. A line that begins with
//! `#` says what the lines below it are about. What stands behind ` => ` in a line of the input is passed over, so that
//! an output is an input too.
#![tactic(auto)]

mod event_texts;
mod outcomes;

use cases_words::Failure;
use outcomes::line_outcome;
use std::alloc::{AllocError, Global};
use std::io;

fn main(rt: HostRuntime) -> io::Result<()> {
    let text = io::read_to_string(rt.alloc(), rt.stdin())?;
    for line in text.lines() {
        if line.is_empty() || line.starts_with("#") {
            continue;
        }
        let list = list_of(line);
        let outcome = told(rt.alloc(), list)?;
        println!(rt; "{list} => {outcome}")?;
    }
    Ok(())
}

fn list_of(line: &str) -> &str {
    match line.split_once(" => ") {
        Some((list, _)) => list,
        None => line,
    }
}

// What the list leads to, or why it has no outcome.
fn told(alloc: Global, line: &str) -> Result<String, AllocError> {
    match line_outcome(alloc, line) {
        Ok(text) => String::from_str(alloc, text.as_str().trim()),
        Err(Failure::Memory(_)) => String::from_str(alloc, "out of memory"),
        Err(_) => String::from_str(alloc, "no such list"),
    }
}
