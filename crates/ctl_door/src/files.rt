// The files that parts make.
ghost use Rattle.std.specs.Prelude.{◌≡◌, ◌++◌, ℕ, List, map, if◌then◌else◌, Some, None, IfOk, OnOk};
ghost use Rattle.std.specs.BTreeMap.{get, keys};
ghost use Rattle.std.specs.Ordering.{nat_cmp};
ghost use Rattle.std.specs.Cmp.Lexicographic.{slice_cmp};
ghost use Rattle.desk_ports.specs.FileMap.{NamesRise};
ghost use Rattle.std.specs.Str.{bytes_eq};
ghost use Rattle.ctl_door.specs.Joining as word;

use crate::frames::Part;
use desk_ports::{Bytes, FileName, FileSet, SetFile};
use std::alloc::{AllocError, Global};
use std::collections::BTreeMap;

/// The files that the parts make: a file of each name that a part has, with the bytes of its parts in their order.
pub(crate) fn set_of(alloc: Global, parts: Vec<Part>) -> Result<FileSet, AllocError>
    ensures { IfOk result (λ set. word.AreJoined parts.items set) }
{
    let held = joined(alloc, parts)?;
    let files = listed(alloc, held)?;
    Ok(FileSet::of(files))
}

fn joined(alloc: Global, parts: Vec<Part>) -> Result<BTreeMap<FileName, Bytes>, AllocError>
    ensures { IfOk result (λ held. (name : List ℕ)
        → get (slice_cmp nat_cmp) held name ≡ word.files_of parts.items name) }
{
    let mut held = BTreeMap::new(alloc);
    for part in parts {
        join(&mut held, part)?;
    }
    Ok(held)
}

// Puts the part behind what its file has.
fn join(held: &mut BTreeMap<FileName, Bytes>, part: Part) -> Result<(), AllocError>
    ensures { OnOk result ((name : List ℕ)
        → get (slice_cmp nat_cmp) held.new name ≡ word.with_part (get (slice_cmp nat_cmp) held.old) part name) }
{
    let Part { name, bytes } = part;
    match take(held, &name) {
        Some(before) => {
            let longer = appended(before, bytes)?;
            put(held, name, longer)
        }
        None => put(held, name, bytes),
    }
}

fn appended(before: Bytes, bytes: Bytes) -> Result<Bytes, AllocError>
    ensures { IfOk result (λ longer. longer ≡ before ++ bytes) }
{
    let mut longer = before;
    longer.append(bytes.as_slice())?;
    Ok(longer)
}

// Takes the bytes of this name out, if there are any.
fn take(held: &mut BTreeMap<FileName, Bytes>, name: &FileName) -> Option<Bytes>
    ensures value { result ≡ get (slice_cmp nat_cmp) held.old name.now }
    ensures gone { (other : List ℕ) → get (slice_cmp nat_cmp) held.new other
        ≡ (if bytes_eq name.now other then None else get (slice_cmp nat_cmp) held.old other) }
{
    held.remove(name)
}

// Gives the name these bytes.
fn put(held: &mut BTreeMap<FileName, Bytes>, name: FileName, bytes: Bytes) -> Result<(), AllocError>
    ensures { OnOk result ((other : List ℕ) → get (slice_cmp nat_cmp) held.new other
        ≡ (if bytes_eq name other then Some bytes else get (slice_cmp nat_cmp) held.old other)) }
{
    held.insert(name, bytes)?;
    Ok(())
}

// The files of a map, in order of name.
fn listed(alloc: Global, held: BTreeMap<FileName, Bytes>) -> Result<Vec<SetFile>, AllocError>
    ensures items { IfOk result (λ files. files.items
        ≡ map (λ entry. record { name = entry.0; bytes = entry.1 }) held.entries) }
    ensures ordered { OnOk result (NamesRise (keys held)) }
{
    held.into_iter()
        .map(|(name, bytes)| SetFile { name, bytes })
        .collect(alloc)
}
