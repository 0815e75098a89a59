// The names of the words.
ghost use Rattle.std.specs.Prelude.{◌≡◌, IfOk};

use crate::telling::{NOT_DONE, WRONG_WORDS, tell_wrong};
use ctl_words::Asked;
use cynara_keys::{Name, NameRefusal, Question};
use desk_ports::Sink;
use script_words::read_number;
use std::alloc::Global;

/// The question of the names. Else a person is told which word is none, or that memory is wanting, and the status is
/// that of it.
pub(crate) fn question_of<K: Sink>(
    alloc: Global,
    asked: Asked<'_>,
    sink: &mut K,
) -> Result<Question, u8>
    ensures { IfOk result (λ question. question ≡
        record {
          client = asked.entry.client.now;
          user = asked.entry.user.now;
          privilege = asked.entry.privilege.now;
        }) }
{
    let client = name_of(alloc, asked.client, sink)?;
    let user = name_of(alloc, asked.user, sink)?;
    let privilege = name_of(alloc, asked.privilege, sink)?;
    match Question::of(
        alloc,
        client.as_slice(),
        user.as_slice(),
        privilege.as_slice(),
    ) {
        Ok(question) => Ok(question),
        Err(_) => Err(without_memory(sink)),
    }
}

/// The name that the word is. Else a person is told that it is none, or that memory is wanting, and the status is that
/// of it.
pub(crate) fn name_of<K: Sink>(alloc: Global, word: &str, sink: &mut K) -> Result<Name, u8>
    ensures { IfOk result (λ name. name ≡ word.now) }
{
    match Name::read(alloc, word.as_bytes()) {
        Ok(name) => Ok(name),
        Err(NameRefusal::Memory(_)) => Err(without_memory(sink)),
        Err(refusal) => {
            if let Ok(text) = format!(in alloc; "no name, since {refusal}:") {
                tell_wrong(alloc, text.as_str(), word.as_bytes(), sink);
            }
            Err(WRONG_WORDS)
        }
    }
}

fn without_memory<K: Sink>(sink: &mut K) -> u8 {
    sink.note("privctl: out of memory");
    NOT_DONE
}

/// The number of a user that the word is. Else a person is told that it is none, and the status is that of wrong
/// words.
pub(crate) fn uid_of<K: Sink>(alloc: Global, word: &str, sink: &mut K) -> Result<u32, u8> {
    match read_number(word.as_bytes()) {
        Some(uid) => Ok(uid),
        None => {
            tell_wrong(alloc, "no number of a user:", word.as_bytes(), sink);
            Err(WRONG_WORDS)
        }
    }
}
