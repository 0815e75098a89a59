// What a list file says: its version, and its names.
ghost use Rattle.std.specs.Prelude.{◌≡◌, ◌==◌, nat_eq, IfOk};
ghost use Rattle.std.specs.Option.{option_map};
ghost use Rattle.std.specs.List.{position, starts_with};
ghost use Rattle.std.specs.Ordering.{nat_cmp, is_lt};
ghost use Rattle.std.specs.Cmp.Lexicographic.{slice_cmp};
ghost use Rattle.guard_files.specs.ListFile.{version_text, names_in, listed};

use crate::list_files::VERSION_LINE;
use crate::own_names::is_listable;
use crate::store_names::fixed_name;
use desk_ports::FileName;
use std::alloc::{AllocError, Global};

/// Whether a list file is of version 2. Any other is of version 1.
pub fn has_version(bytes: &[u8]) -> bool
    ensures { result ≡ starts_with nat_eq bytes.now version_text }
{
    bytes.starts_with(VERSION_LINE)
}

/// The names in a list file of either version, in their order, or nothing where the bytes are no list of set files.
pub fn read_list(alloc: Global, bytes: &[u8]) -> Result<Option<Vec<FileName>>, AllocError>
    ensures { IfOk result (λ read. option_map (λ names. names.items) read ≡ listed bytes.now) }
{
    match bytes.strip_prefix(VERSION_LINE) {
        Some(lines) => read_names(alloc, lines),
        None => read_names(alloc, bytes),
    }
}

// The names in these lines.
fn read_names(alloc: Global, bytes: &[u8]) -> Result<Option<Vec<FileName>>, AllocError>
    ensures { IfOk result (λ read. option_map (λ names. names.items) read ≡ names_in bytes.now) }
{
    let mut names = Vec::new(alloc);
    let mut last: &[u8] = &[];
    let mut rest = bytes;
    while !rest.is_empty() {
        let Some(end) = newline_in(rest) else {
            return Ok(None);
        };
        let line = &rest[..end];
        if !is_listable(line) {
            return Ok(None);
        }
        if !is_below(last, line) {
            return Ok(None);
        }
        names.push(fixed_name(alloc, line)?)?;
        last = line;
        let (_, after) = rest.split_at(end + 1);
        rest = after;
    }
    Ok(Some(names))
}

// The place of the first newline.
fn newline_in(bytes: &[u8]) -> Option<usize>
    ensures { result ≡ position (λ byte. byte == 10) bytes.now }
{
    bytes.iter().position(|byte| *byte == b'\n')
}

fn is_below(name: &[u8], other: &[u8]) -> bool
    ensures { result ≡ is_lt (slice_cmp nat_cmp name.now other.now) }
{
    name.cmp(other).is_lt()
}
