//! Cases of the store of a set of files, and of the policy state in a folder, over a disk in memory. Each line of input
//! is a case, and is printed with its answer behind ` => `. A line that begins with `#` says what the lines below it
//! are about.
//!
//!     disk FAILS FILE ..                                        the disk that later cases are about
//!     folder, calls                                             what it holds, and which calls were made
//!     mount, replace, failing                                   a store over it, in the forms of `vaults`
//!     found, commit, prepare, commit-failing                    a policy state over it, in the forms of `keepers`
//!     stops, commit-stops                                       what stops leave, of a store and of a policy state
#![tactic(auto)]

mod keepers;
mod stops;
mod vaults;

use cases_words::{
    Failure, Found, calls_text, fails, files, first_number, first_word, folder_text,
};
use desk_ports::{FailList, MemDisk, set_in_order};
use std::alloc::{AllocError, Global};
use std::io;
use stops::{Seen, Stops};

fn answer(alloc: Global, disk: &mut MemDisk, word: &str, rest: &str) -> Result<String, Failure> {
    match word {
        "disk" => new_disk(alloc, disk, rest),
        "folder" => folder_text(alloc, disk),
        "calls" => calls_text(alloc, disk),
        "mount" => vaults::mount(alloc, disk),
        "replace" => vaults::replacement(alloc, disk, rest),
        "stops" => found_later(alloc, disk, Seen::Store, rest),
        "failing" => vaults::failing(alloc, rest),
        "found" => keepers::found(alloc, disk),
        "commit" => keepers::commits(alloc, disk, rest),
        "prepare" => keepers::prepared(alloc, disk, rest),
        "commit-stops" => found_later(alloc, disk, Seen::Keeper, rest),
        "commit-failing" => keepers::failing(alloc, rest),
        _ => Err(Failure::Words),
    }
}

// `stops FROM` and `commit-stops FROM MOST`: what a mount finds after a stop behind each number of calls from this one
// on.
fn found_later(alloc: Global, disk: &MemDisk, seen: Seen, words: &str) -> Result<String, Failure> {
    let (from, words) = first_number(words)?;
    let most = match seen {
        Seen::Store => 256,
        Seen::Keeper => first_number(words)?.0,
    };
    let mut stops = Stops {
        seen,
        alloc,
        disk,
        most,
        found: Found::new(alloc),
    };
    stops.told(from)
}

fn new_disk(alloc: Global, disk: &mut MemDisk, rest: &str) -> Result<String, Failure> {
    let (failing, words) = first_word(rest);
    let fails = fails(alloc, failing)?;
    *disk = MemDisk::new(alloc, files(alloc, words)?, fails)?;
    Ok(String::from_str(alloc, "a new disk")?)
}

// The answer, or why there is none.
fn told(alloc: Global, disk: &mut MemDisk, line: &str) -> Result<String, AllocError> {
    let (word, rest) = first_word(line);
    match answer(alloc, disk, word, rest) {
        Ok(text) => Ok(text),
        Err(Failure::Words) => String::from_str(alloc, "no such case"),
        Err(Failure::Refused) => String::from_str(alloc, "refused"),
        Err(Failure::Memory(_)) => String::from_str(alloc, "out of memory"),
    }
}

fn answer_lines(rt: &HostRuntime, disk: &mut MemDisk) -> io::Result<()> {
    let text = io::read_to_string(rt.alloc(), rt.stdin())?;
    for line in text.lines() {
        if line.is_empty() || line.starts_with("#") {
            continue;
        }
        let answer = told(rt.alloc(), disk, line)?;
        println!(rt; "{line} => {answer}")?;
    }
    Ok(())
}

fn main(rt: HostRuntime) -> io::Result<()> {
    let fails = FailList::of(Vec::new(rt.alloc()));
    let mut disk = MemDisk::new(rt.alloc(), set_in_order(rt.alloc(), &[])?, fails)?;
    answer_lines(&rt, &mut disk)
}
