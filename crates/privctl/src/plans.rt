// `export` and `plan`.
use crate::telling::{DONE, NOT_DONE, REFUSED, WRONG_WORDS, tell_unread, write_text};
use ctl_run::RunFault;
use ctl_scripts::{ExportRefusal, checked_script, plan};
use desk_ports::Sink;
use desk_state::Desk;
use std::alloc::Global;
use std::fs;

/// Writes the script that makes the device.
pub(crate) fn export<K: Sink>(alloc: Global, desk: &Desk, sink: &mut K) -> u8 {
    match checked_script(alloc, desk) {
        Ok(script) => write_text(script.as_slice(), DONE, sink),
        Err(refusal) => {
            sink.note(match refusal {
                ExportRefusal::LongLine(_) =>
                    "privctl: a line would be longer than one of a script may be",
                ExportRefusal::LongScript => "privctl: the script would be longer than one may be",
                ExportRefusal::Differs =>
                    "privctl: the script leads to another state, which is a mistake of privctl",
                ExportRefusal::Memory(_) => "privctl: out of memory",
            });
            NOT_DONE
        }
    }
}

/// Tells what the script of the file would change.
pub(crate) fn plan_file<K: Sink>(
    rt: &HostRuntime,
    alloc: Global,
    desk: &Desk,
    path: &str,
    sink: &mut K,
) -> u8 {
    let script = match fs::read(rt, path) {
        Ok(script) => script,
        Err(error) => return tell_unread(alloc, path.as_bytes(), &error, sink),
    };
    match plan(alloc, desk, &script) {
        Ok(plan) => {
            let status = if plan.refused == 0 { DONE } else { REFUSED };
            write_text(plan.text.as_slice(), status, sink)
        }
        Err(RunFault::Syntax(line)) => {
            if let Ok(text) = format!(in alloc;
                "privctl: line {line} is outside the grammar of scripts"
            ) {
                sink.note(text.as_str());
            }
            WRONG_WORDS
        }
        Err(RunFault::TooLong) => {
            sink.note("privctl: a script has at most 16777216 bytes");
            WRONG_WORDS
        }
        Err(RunFault::Memory(_)) => {
            sink.note("privctl: out of memory");
            NOT_DONE
        }
    }
}
