//! Cases of a client over links in memory. Each line of standard input is a case, and each line of the output that case
//! with its answer behind ` => `. A line that begins with `#` says what the lines below it are about.
//!
//!     client ENTRIES DIAL_FAILS LINKS CALLS
//!     admin DIAL_FAILS LINKS MESSAGES
//!
//! `DIAL_FAILS` are numbers of dials that fail, with commas between them, or `-` for none. `LINKS` are the links that
//! are dialled, with `/` between them or `-` for none, each `TO_COME:CLOSED_AFTER:FAILS`: the bytes to come in
//! hexadecimal, after how many calls the link reads as closed, and the numbers of its calls that fail. Bytes to come
//! may be parts with `+` between them, and a part `N*BYTES` stands for the bytes so many times. `CALLS`, with commas
//! between them, are `cSQ`, a check in session `S` of question `Q`, each a letter; `sSQ`, the same where no agent is
//! asked; and `tN`, which tells the client of commit N. `MESSAGES`, with commas between them, are frames of messages,
//! whose sequence numbers do not matter, or `unset*N`, which is one message of so many changes.
//!
//! The answer has each check's, or how many replies each message had and the last one, and then the dials, the
//! dialler's failures, and for each link that was given back the bytes sent on it and how many bytes were received.
#![tactic(auto)]

mod answers;
mod calls;
mod links;
mod sends;

use cases_words::{Failure, first_number, first_word};
use std::alloc::{AllocError, Global};
use std::io;

fn client(alloc: Global, rest: &str) -> Result<String, Failure> {
    let (entries, rest) = first_number(rest)?;
    let (fails, rest) = first_word(rest);
    let (listed, calls) = first_word(rest);
    let mut dial = links::dial(alloc, listed, fails)?;
    let mut text = calls::answers(alloc, &mut dial, entries, calls)?;
    links::put_dial(alloc, &mut text, &dial)?;
    Ok(text)
}

fn admin(alloc: Global, rest: &str) -> Result<String, Failure> {
    let (fails, rest) = first_word(rest);
    let (listed, messages) = first_word(rest);
    let mut dial = links::dial(alloc, listed, fails)?;
    let mut text = sends::answers(alloc, &mut dial, messages)?;
    links::put_dial(alloc, &mut text, &dial)?;
    Ok(text)
}

fn answer(alloc: Global, line: &str) -> Result<String, Failure> {
    let (word, rest) = first_word(line);
    if word == "client" {
        return client(alloc, rest);
    }
    if word == "admin" {
        return admin(alloc, rest);
    }
    Err(Failure::Words)
}

// What stands in place of an answer where there is none.
fn text_of(alloc: Global, answer: Result<String, Failure>) -> Result<String, AllocError> {
    match answer {
        Ok(text) => Ok(text),
        Err(Failure::Memory(error)) => Err(error),
        Err(_) => String::from_str(alloc, "no case"),
    }
}

fn main(rt: HostRuntime) -> io::Result<()> {
    for line in rt.lines(rt.alloc()) {
        let line = line?;
        if line.is_empty() || line.as_str().starts_with('#') {
            println!(rt; "{line}")?;
            continue;
        }
        let text = text_of(rt.alloc(), answer(rt.alloc(), line.as_str()))?;
        println!(rt; "{line} => {text}")?;
    }
    Ok(())
}
