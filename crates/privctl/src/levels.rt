// `level set` and `level get`.
use crate::devices::{state_at, state_over};
use crate::questions::{name_of, uid_of};
use crate::services::{net_within, tell_refusal};
use crate::telling::{DONE, NOT_DONE, REFUSED, WRONG_WORDS, tell_wrong, write_text, written};
use ctl_door::{Obeyed, obey};
use ctl_text::{put, put_number};
use ctl_words::{At, LevelWords};
use desk_ports::{Bytes, Sink};
use desk_state::{Command, Desk};
use level_requests::{Level, LevelRequest, Setter};
use policy_levels::{LevelRefusal, level_command, levels_of};
use socket_net::SocketNet;
use std::alloc::{AllocError, Global};

/// Lists the levels that the user has set.
pub(crate) fn get_levels<K: Sink>(
    rt: &HostRuntime,
    alloc: Global,
    user: &str,
    at: At<'_>,
    sink: &mut K,
) -> u8 {
    let user = match uid_of(alloc, user, sink) {
        Ok(user) => user,
        Err(status) => return status,
    };
    match state_at(rt, alloc, at, sink) {
        Some(desk) => written(list_levels(alloc, &desk, user), DONE, sink),
        None => NOT_DONE,
    }
}

// The levels that the user of this number has set: a line `CLIENT PRIVILEGE LEVEL` for each, in the order of their
// keys.
fn list_levels(alloc: Global, desk: &Desk, user: u32) -> Result<Bytes, AllocError> {
    let mut out = Bytes::new(alloc);
    for row in levels_of(alloc, desk, user)? {
        out.append(row.client.as_slice())?;
        put(&mut out, " ")?;
        out.append(row.privilege.as_slice())?;
        put(&mut out, " ")?;
        out.append(row.level.text())?;
        put(&mut out, "\n")?;
    }
    Ok(out)
}

/// Sets a level, by the command that the line `level` of a script is.
pub(crate) fn set_level<K: Sink>(
    rt: &HostRuntime,
    alloc: Global,
    words: LevelWords<'_>,
    seconds: u32,
    sink: &mut K,
) -> u8 {
    let request = match request_of(alloc, words, sink) {
        Ok(request) => request,
        Err(status) => return status,
    };
    let Some(mut net) = net_within(rt, seconds) else {
        return NOT_DONE;
    };
    let Some(desk) = state_over(alloc, &mut net, sink) else {
        return NOT_DONE;
    };
    match level_command(alloc, &desk, &request) {
        Ok(command) => send(alloc, &command, &mut net, sink),
        Err(refusal) => tell_level_refusal(alloc, refusal, sink),
    }
}

// What the words ask for. Else a person is told which word is wrong, and the status is that of it.
fn request_of<K: Sink>(
    alloc: Global,
    words: LevelWords<'_>,
    sink: &mut K,
) -> Result<LevelRequest, u8> {
    let user = uid_of(alloc, words.user, sink)?;
    let client = name_of(alloc, words.client, sink)?;
    let privilege = name_of(alloc, words.privilege, sink)?;
    let level = level_of(alloc, words.level, sink)?;
    let (caller, by) = match words.by {
        Some(administrator) => {
            let caller = uid_of(alloc, administrator, sink)?;
            (caller, Setter::Administrator { target: user })
        }
        None => (user, Setter::Own),
    };
    Ok(LevelRequest {
        caller,
        by,
        client,
        privilege,
        level,
    })
}

fn level_of<K: Sink>(alloc: Global, word: &str, sink: &mut K) -> Result<Level, u8> {
    match Level::of_word(word.as_bytes()) {
        Some(level) => Ok(level),
        None => {
            tell_wrong(alloc, "no level:", word.as_bytes(), sink);
            Err(WRONG_WORDS)
        }
    }
}

fn tell_level_refusal<K: Sink>(alloc: Global, refusal: LevelRefusal, sink: &mut K) -> u8 {
    if let Ok(line) = format!(in alloc; "privctl: refused: {refusal}") {
        sink.note(line.as_str());
    }
    match refusal {
        LevelRefusal::Memory(_) => NOT_DONE,
        _ => REFUSED,
    }
}

// Sends the command, and tells what became of it.
fn send<K: Sink>(
    alloc: Global,
    command: &Command,
    net: &mut SocketNet<HostRuntime>,
    sink: &mut K,
) -> u8 {
    match obey(alloc, command, net) {
        Ok(Obeyed::Done { commit }) => written(done_text(alloc, commit), DONE, sink),
        Ok(Obeyed::Refused { answer }) => write_text(answer.as_slice(), REFUSED, sink),
        Err(refusal) => {
            tell_refusal(alloc, &refusal, net, sink);
            NOT_DONE
        }
    }
}

fn done_text(alloc: Global, commit: u64) -> Result<Bytes, AllocError> {
    let mut text = Bytes::new(alloc);
    put(&mut text, "ok ")?;
    put_number(&mut text, commit)?;
    put(&mut text, "\n")?;
    Ok(text)
}
