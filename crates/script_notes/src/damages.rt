// What a person is told of a folder that stands for no policy state.
ghost use Rattle.std.specs.Prelude.{◌≡◌};

use crate::shown::shown;
use desk_ports::{FileName, Sink};
use run_endings::{Ending, note_text};
use std::alloc::{AllocError, Global};

/// Tells what the file with the first fault has to be, where that is how the run ends, and what is to be done.
pub fn note_damage<K: Sink>(alloc: Global, ending: &Ending, sink: &mut K)
    ensures taken { K.taken sink.new ≡ K.taken sink.old }
    ensures count { K.faults sink.new ≡ K.faults sink.old }
{
    if let Ending::Damaged { file, line } = ending {
        note_text(damage_words(alloc, file, *line), sink);
        sink.note(
            "privilege: copy the folder away; then put that right, or a backup in the folder's place (docs/use/GUIDE.md, \"Status 8\")",
        );
    }
}

fn damage_words(alloc: Global, file: &FileName, line: u32) -> Result<String, AllocError> {
    let name = file.as_slice();
    let shown = shown(alloc, name)?;
    if line == 0 {
        let wrong = whole_file_words(name);
        return format!(in alloc;
            "privilege: the store is damaged: file {shown} as a whole: {wrong}"
        );
    }
    let form = line_words(name);
    format!(in alloc; "privilege: the store is damaged: file {shown}, line {line}: {form}")
}

// What may be wrong with a file as a whole.
fn whole_file_words(name: &[u8]) -> &'static str {
    if name == b"list".as_slice() || name == b"list~".as_slice() {
        return "it is the line `version 2` and then the names of the set's files, a line each, in order, and each is there";
    }
    if name == b"_MAIN".as_slice() {
        return "it is absent, or is not what `users` decides";
    }
    if name == b"_MANIFESTS".as_slice() {
        return "it is absent, or is not what `apps` decides";
    }
    if name == b"buckets".as_slice() {
        return "it is absent, or a bucket leads back to itself, one of the layout is missing, or MAIN or MANIFESTS does not deny";
    }
    if name.starts_with(b"_") {
        return "it is absent, or `buckets` has no such bucket";
    }
    if name.starts_with(b"r.") {
        return "it is absent, `apps` has no such package, or it is not what `template` gives it";
    }
    "it is absent, or is no file of a store"
}

// What a line of the file has to be.
fn line_words(name: &[u8]) -> &'static str {
    if name == b"stamp".as_slice() {
        return "it is one line, the number of the last commit";
    }
    if name == b"buckets".as_slice() {
        return "a line is NAME;KIND;METADATA, the names rise, and the first is empty, for the root";
    }
    if name == b"users".as_slice() {
        return "a line is UID;TYPE, and the numbers rise";
    }
    if name == b"apps".as_slice() {
        return "a line is PACKAGE;AUTHOR;APP;SCOPE and ;PRIVILEGE for each, the lines rise, and users of a scope are there";
    }
    if name == b"template".as_slice() {
        return "a line is SUBJECT OBJECT MODES or SUBJECT OBJECT ALLOW DENY, and there are at most 64";
    }
    "a line is CLIENT;USER;PRIVILEGE;KIND;METADATA, the keys rise, and a bucket that one points to is there"
}
