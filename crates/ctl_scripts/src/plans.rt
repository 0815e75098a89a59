// A plan: which lines are refused, and which checks are answered otherwise.
use crate::comparing::{Comparison, keys_asked, users_asked};
use ctl_run::{Ran, RefusedLine, RunFault, run_script};
use ctl_text::{put, put_number};
use desk_ports::Bytes;
use desk_state::Desk;
use std::alloc::{AllocError, Global};

/// The text of a plan, and how many lines are refused.
#[derive(Drop)]
pub struct Planned {
    pub text: Bytes,
    pub refused: usize,
}

/// Runs the script on a copy of the state, and tells each line that is refused, each check of an install's privilege
/// for a user, before or after, whose result changes, and counts. Nothing else changes.
pub fn plan(alloc: Global, desk: &Desk, script: &[u8]) -> Result<Planned, RunFault> {
    let copy = match desk.copy() {
        Ok(copy) => copy,
        Err(error) => return Err(RunFault::Memory(error)),
    };
    let ran = run_script(alloc, copy, script)?;
    match text_of(alloc, desk, &ran) {
        Ok(text) => Ok(Planned {
            text,
            refused: ran.refused.len(),
        }),
        Err(error) => Err(RunFault::Memory(error)),
    }
}

fn text_of(alloc: Global, desk: &Desk, ran: &Ran) -> Result<Bytes, AllocError> {
    let mut out = Bytes::new(alloc);
    for refused in &ran.refused {
        put_refused(&mut out, refused)?;
    }
    let mut comparison = Comparison::of(alloc, desk.database(), ran.desk.database())?;
    let keys = keys_asked(alloc, desk.registry(), ran.desk.registry())?;
    let mut changed = 0u64;
    for user in users_asked(alloc, desk.registry(), ran.desk.registry())? {
        changed = changed.saturating_add(comparison.put_changes(&mut out, &user, &keys)?);
    }
    put_count(&mut out, u64::from(ran.accepted), " commands accepted, ")?;
    put_count(&mut out, ran.refused.len() as u64, " refused, ")?;
    put_count(&mut out, changed, " checks change\n")?;
    Ok(out)
}

fn put_refused(out: &mut Bytes, refused: &RefusedLine) -> Result<(), AllocError> {
    put(out, "line ")?;
    put_number(out, u64::from(refused.line))?;
    put(out, ": ")?;
    out.append(refused.answer.as_slice())
}

fn put_count(out: &mut Bytes, count: u64, text: &str) -> Result<(), AllocError> {
    put_number(out, count)?;
    put(out, text)
}
