// `import-cynara`.
use crate::telling::{DONE, NOT_DONE, REFUSED, tell_unread, tell_wrong, write_text};
use ctl_import::{Import, ImportFault};
use ctl_run::{RefusedLine, RunFault, run_script};
use desk_ports::Sink;
use desk_state::Desk;
use std::alloc::{AllocError, Global};
use std::fs;

/// Writes the script of the data base in the folder. The status is 1 where a device would refuse a line of it.
pub(crate) fn import_folder<K: Sink>(
    rt: &HostRuntime,
    alloc: Global,
    folder: &str,
    sink: &mut K,
) -> u8 {
    let Some(buckets) = file_in(rt, alloc, folder, b"buckets", sink) else {
        return NOT_DONE;
    };
    match Import::begin(alloc, &buckets) {
        Ok(import) => import_files(rt, alloc, folder, import, sink),
        Err(fault) => tell_fault(alloc, b"buckets", fault, sink),
    }
}

fn import_files<K: Sink>(
    rt: &HostRuntime,
    alloc: Global,
    folder: &str,
    start: Import,
    sink: &mut K,
) -> u8 {
    let mut import = start;
    for place in 0..import.headings().len() {
        let Ok(name) = file_name(alloc, &import, place) else {
            sink.note("privctl: out of memory");
            return NOT_DONE;
        };
        let Some(file) = file_in(rt, alloc, folder, &name, sink) else {
            return NOT_DONE;
        };
        if let Err(fault) = import.add(place, &file) {
            return tell_fault(alloc, &name, fault, sink);
        }
    }
    let status = tried(alloc, import.text(), sink);
    write_text(import.text(), status, sink)
}

// The name of the file of the bucket at this place.
fn file_name(alloc: Global, import: &Import, place: usize) -> Result<Vec<u8>, AllocError> {
    let mut name = Vec::new(alloc);
    name.push(b'_')?;
    if let Some(heading) = import.headings().get(place) {
        name.extend_from_slice(heading.name())?;
    }
    Ok(name)
}

// The bytes of a file in the folder, which a person is told of where there are none.
fn file_in<K: Sink>(
    rt: &HostRuntime,
    alloc: Global,
    folder: &str,
    name: &[u8],
    sink: &mut K,
) -> Option<Vec<u8>> {
    let Ok(path) = path_in(alloc, folder, name) else {
        tell_wrong(alloc, "cannot read", name, sink);
        return None;
    };
    if !is_plain_file(rt, path.as_str()) {
        tell_wrong(alloc, "there is no plain file", path.as_bytes(), sink);
        return None;
    }
    match fs::read(rt, path.as_str()) {
        Ok(bytes) => Some(bytes),
        Err(error) => {
            tell_unread(alloc, path.as_bytes(), &error, sink);
            None
        }
    }
}

// Whether the path leads to a plain file: a pipe would be waited for.
fn is_plain_file(rt: &HostRuntime, path: &str) -> bool {
    match fs::metadata(rt, path) {
        Ok(found) => found.is_file(),
        Err(_) => false,
    }
}

fn path_in(alloc: Global, folder: &str, name: &[u8]) -> Result<String, AllocError> {
    let Ok(name) = str::from_utf8(name) else {
        return Err(AllocError);
    };
    let mut path = String::from_str(alloc, folder)?;
    path.push('/')?;
    path.push_str(name)?;
    Ok(path)
}

fn tell_fault<K: Sink>(alloc: Global, name: &[u8], fault: ImportFault, sink: &mut K) -> u8 {
    match fault {
        ImportFault::Line(line) => {
            if let Ok(text) = format!(in alloc; "not as Cynara writes it: line {line} of") {
                tell_wrong(alloc, text.as_str(), name, sink);
            }
        }
        ImportFault::NoRoot => {
            tell_wrong(
                alloc,
                "not as Cynara writes it: no line of the root in",
                name,
                sink,
            );
        }
        ImportFault::Memory(_) => sink.note("privctl: out of memory"),
    }
    NOT_DONE
}

// Runs the script in memory on a device before its first command, and tells which lines that refuses.
fn tried<K: Sink>(alloc: Global, script: &[u8], sink: &mut K) -> u8 {
    let Ok(fresh) = Desk::fresh(alloc) else {
        sink.note("privctl: out of memory");
        return NOT_DONE;
    };
    match run_script(alloc, fresh, script) {
        Ok(ran) => {
            for refused in &ran.refused {
                tell_refused(alloc, refused, sink);
            }
            if ran.refused.is_empty() {
                DONE
            } else {
                REFUSED
            }
        }
        Err(fault) => tell_fault_of_script(alloc, fault, sink),
    }
}

// Tells what a device would answer to a line.
fn tell_refused<K: Sink>(alloc: Global, refused: &RefusedLine, sink: &mut K) {
    let answer = refused.answer.as_slice();
    let answer = match answer.strip_suffix(b"\n") {
        Some(answer) => answer,
        None => answer,
    };
    if let Ok(text) = format!(in alloc; "to line {} a device would answer:", refused.line) {
        tell_wrong(alloc, text.as_str(), answer, sink);
    }
}

// Tells why the script was not run, and answers the status.
fn tell_fault_of_script<K: Sink>(alloc: Global, fault: RunFault, sink: &mut K) -> u8 {
    match fault {
        RunFault::Syntax(line) => {
            if let Ok(text) = format!(in alloc;
                "privctl: line {line} of the script is outside the grammar"
            ) {
                sink.note(text.as_str());
            }
            REFUSED
        }
        RunFault::TooLong => {
            sink.note("privctl: the script is longer than one may be");
            REFUSED
        }
        RunFault::Memory(_) => {
            sink.note("privctl: out of memory");
            NOT_DONE
        }
    }
}
