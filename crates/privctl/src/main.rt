//! `privctl`: what a person and a shell ask of a device, by its service or by a copy of its store.
#![tactic(auto)]

mod devices;
mod explaining;
mod imports;
mod levels;
mod logs;
mod mays;
mod orders;
mod plans;
mod questions;
mod services;
mod telling;

use ctl_words::{Unread, read_order};
use host_ports::{OutputSink, host_words, take_descriptors};
use orders::run_order;
use std::alloc::AllocError;
use std::process::ExitCode;
use telling::{DONE, NOT_DONE, WRONG_WORDS, tell_lines, write_text};

fn main(rt: HostRuntime) -> ExitCode {
    match run_on_host(&rt) {
        Ok(status) => ExitCode::from(status),
        Err(_) => ExitCode::from(NOT_DONE),
    }
}

// Runs what the words ask for, and answers the status.
fn run_on_host(rt: &HostRuntime) -> Result<u8, AllocError> {
    take_descriptors(rt);
    let words = host_words(rt, rt.alloc())?;
    let mut sink = OutputSink::over(rt.stdout(), rt.stderr());
    match read_order(rt.alloc(), &words) {
        Ok(order) => Ok(run_order(rt, rt.alloc(), order, &mut sink)),
        Err(Unread::Shown(text)) => {
            Ok(write_text(text.as_bytes(), status_of_help(&words), &mut sink))
        }
        Err(Unread::Wrong(text)) => {
            tell_lines(rt.alloc(), text.as_str(), &mut sink);
            Ok(WRONG_WORDS)
        }
        Err(Unread::Memory(error)) => Err(error),
    }
}

// The status of a run that shows the help or the version. Behind `may` the word that asks for it may have been meant as
// a name, and nobody was asked: so it is not 0, which stands for a service that allows.
fn status_of_help(words: &[String]) -> u8 {
    match words.first() {
        Some(word) if word.as_str() == "may" => NOT_DONE,
        _ => DONE,
    }
}
