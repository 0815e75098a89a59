// What a stop may leave of a disk in memory.
ghost use Rattle.std.specs.Prelude.{◌≡◌, ◌≤◌, ℕ, List, map, if◌then◌else◌, length, take, Some, None, IfOk, OnOk};
ghost use Rattle.std.specs.Option.{option_copied};
ghost use Rattle.std.specs.Ordering.{nat_cmp};
ghost use Rattle.std.specs.Cmp.Lexicographic.{slice_cmp};
ghost use Rattle.std.specs.BTreeMap.{get, keys};
ghost use Rattle.std.specs.Str.{bytes_eq};
ghost use Rattle.desk_ports.specs.declared.file_sets.SetFile.{SetFile};
ghost use Rattle.desk_ports.specs.DiskCalls.{after_calls};
ghost use Rattle.desk_ports.specs.DiskContent.{content_after};
ghost use Rattle.desk_ports.specs.FileMap.{NamesRise, map_of, with_content};
ghost use Rattle.desk_ports.specs.Stopping as word;
ghost use Rattle.desk_ports.specs.Stopping.{given_after, last_given, meant_bytes, picked_map, AreLeftBy};
ghost use Rattle.desk_ports.specs.Disk.{MayLeave};
ghost use Rattle.desk_ports.specs.parts.NamesHeld.{has_name, is_touched_after};

use crate::disk_replays::{content_of, put_name};
use crate::name_order::names_of_set;
use crate::{Bytes, DiskCall, FileName, FileSet, RecordedCall, SetFile};
use std::alloc::{AllocError, Global};
use std::collections::{BTreeMap, BTreeSet};

fn is_done_sync(made: &RecordedCall) -> bool
    ensures { result ≡ word.is_done_sync made.now }
{
    matches!(made.call, DiskCall::Sync) && made.is_done
}

// How many of the calls stand before the last sync that was done, with that sync: what was read then is durable now.
fn durable_calls(calls: &[RecordedCall]) -> usize
    ensures within { result ≤ length calls.now }
    ensures durable { (files : List SetFile) → (after_calls files calls.now).durable
        ≡ (after_calls files (take result calls.now)).current }
{
    let mut durable = 0;
    for (at, made) in calls.iter().enumerate() {
        if is_done_sync(made) {
            durable = at + 1;
        }
    }
    durable
}

// The names that are touched after the calls.
fn touched_names(alloc: Global, calls: &[RecordedCall]) -> Result<BTreeSet<FileName>, AllocError>
    ensures { IfOk result (λ names. (files : List SetFile) (name : List ℕ)
        → has_name names name ≡ (after_calls files calls.now).touched name) }
{
    let mut names = BTreeSet::new(alloc);
    for made in calls {
        follow_touched(&mut names, made)?;
    }
    Ok(names)
}

// Follows what one call more does to the touched names.
fn follow_touched(names: &mut BTreeSet<FileName>, made: &RecordedCall) -> Result<(), AllocError>
    ensures { OnOk result ((name : List ℕ)
        → has_name names.new name ≡ is_touched_after made.now name (has_name names.old name)) }
{
    match &made.call {
        DiskCall::Write(file) => put_name(names, &file.name),
        DiskCall::Remove(removed) => put_name(names, removed),
        DiskCall::Sync => {
            if made.is_done {
                names.clear();
            }
            Ok(())
        }
        DiskCall::Names | DiskCall::Read(_) => Ok(()),
    }
}

// The bytes that the last write of the name was given, done or failed, since the last sync that was done.
fn bytes_given<'a>(calls: &'a [RecordedCall], name: &FileName) -> Option<&'a Bytes>
    ensures { option_copied result ≡ last_given calls.now name.now }
{
    let mut given = None;
    for made in calls {
        given = next_given(made, name, given);
    }
    given
}

fn next_given<'a>(
    made: &'a RecordedCall,
    name: &FileName,
    given: Option<&'a Bytes>,
) -> Option<&'a Bytes>
    ensures { option_copied result ≡ given_after name.now (option_copied given.entry) made.now }
{
    match &made.call {
        DiskCall::Write(file) if file.name == *name => Some(&file.bytes),
        DiskCall::Sync if made.is_done => None,
        _ => given,
    }
}

// What the digit leaves of the bytes.
fn picked(alloc: Global, digit: u32, bytes: &[u8]) -> Result<Option<Bytes>, AllocError>
    ensures { IfOk result (λ content. content ≡ word.picked digit bytes.now) }
{
    match digit {
        0 => Ok(None),
        1 => Ok(Some(Bytes::new(alloc))),
        2 => Ok(Some(Bytes::of(bytes[..bytes.len() / 2].to_vec(alloc)?))),
        _ => Ok(Some(Bytes::of(bytes.to_vec(alloc)?))),
    }
}

// The files that are read after the calls, from these on.
fn files_after(
    alloc: Global,
    files: &[SetFile],
    calls: &[RecordedCall],
) -> Result<BTreeMap<FileName, Bytes>, AllocError>
    ensures { IfOk result (λ held. (name : List ℕ)
        → get (slice_cmp nat_cmp) held name ≡ (after_calls files.now calls.now).current name) }
{
    let mut held = first_files(alloc, files)?;
    for made in calls {
        follow_file(&mut held, made)?;
    }
    Ok(held)
}

fn first_files(alloc: Global, files: &[SetFile]) -> Result<BTreeMap<FileName, Bytes>, AllocError>
    ensures { IfOk result (λ held. (name : List ℕ) → get (slice_cmp nat_cmp) held name ≡ map_of files.now name) }
{
    let mut held = BTreeMap::new(alloc);
    for file in files.iter().rev() {
        put_file(&mut held, &file.name, file.bytes.copy()?)?;
    }
    Ok(held)
}

// Follows what one call more does to the files that are read.
fn follow_file(held: &mut BTreeMap<FileName, Bytes>, made: &RecordedCall) -> Result<(), AllocError>
    ensures { OnOk result ((name : List ℕ)
        → get (slice_cmp nat_cmp) held.new name ≡ content_after made.now name (get (slice_cmp nat_cmp) held.old name)) }
{
    if !made.is_done {
        return Ok(());
    }
    match &made.call {
        DiskCall::Write(file) => put_file(held, &file.name, file.bytes.copy()?),
        DiskCall::Remove(removed) => {
            drop_file(held, removed);
            Ok(())
        }
        DiskCall::Names | DiskCall::Read(_) | DiskCall::Sync => Ok(()),
    }
}

fn put_file(
    held: &mut BTreeMap<FileName, Bytes>,
    name: &FileName,
    bytes: Bytes,
) -> Result<(), AllocError>
    ensures { OnOk result ((other : List ℕ) → get (slice_cmp nat_cmp) held.new other
        ≡ (if bytes_eq name.now other then Some bytes else get (slice_cmp nat_cmp) held.old other)) }
{
    held.insert(name.copy()?, bytes)?;
    Ok(())
}

fn drop_file(held: &mut BTreeMap<FileName, Bytes>, name: &FileName)
    ensures { (other : List ℕ) → get (slice_cmp nat_cmp) held.new other
        ≡ (if bytes_eq name.now other then None else get (slice_cmp nat_cmp) held.old other) }
{
    held.remove(name);
}

// The files of a map, in order of name.
fn set_of(alloc: Global, held: BTreeMap<FileName, Bytes>) -> Result<FileSet, AllocError>
    ensures { IfOk result (λ set. (name : List ℕ) → map_of set name ≡ get (slice_cmp nat_cmp) held name) }
{
    let files = listed_files(alloc, held)?;
    Ok(FileSet::of(files))
}

fn listed_files(alloc: Global, held: BTreeMap<FileName, Bytes>) -> Result<Vec<SetFile>, AllocError>
    ensures items { IfOk result (λ files. files.items
        ≡ map (λ entry. record { name = entry.0; bytes = entry.1 }) held.entries) }
    ensures ordered { OnOk result (NamesRise (keys held)) }
{
    held.into_iter()
        .map(|(name, bytes)| SetFile { name, bytes })
        .collect(alloc)
}

// The bytes that are meant for the name after the calls.
fn meant<'a>(files: &'a [SetFile], calls: &'a [RecordedCall], name: &FileName) -> &'a [u8]
    ensures { result.now ≡ meant_bytes calls.now (after_calls files.now calls.now).durable name.now }
{
    if let Some(bytes) = bytes_given(calls, name) {
        return bytes.as_slice();
    }
    match content_of(files, &calls[..durable_calls(calls)], name) {
        Some(bytes) => bytes.as_slice(),
        None => &[],
    }
}

// Gives the name this content.
fn set_content(
    held: &mut BTreeMap<FileName, Bytes>,
    name: &FileName,
    content: Option<Bytes>,
) -> Result<(), AllocError>
    ensures { OnOk result ((other : List ℕ) → get (slice_cmp nat_cmp) held.new other
        ≡ with_content (get (slice_cmp nat_cmp) held.old) name.now content other) }
{
    match content {
        Some(bytes) => put_file(held, name, bytes),
        None => {
            drop_file(held, name);
            Ok(())
        }
    }
}

// What a stop after the calls leaves, from these files on: each touched name takes a digit of the number.
fn left_files(
    alloc: Global,
    files: &[SetFile],
    calls: &[RecordedCall],
    touched: &[FileName],
    pick: u32,
) -> Result<BTreeMap<FileName, Bytes>, AllocError>
    ensures { IfOk result (λ left. (name : List ℕ) → get (slice_cmp nat_cmp) left name
        ≡ picked_map pick (meant_bytes calls.now (after_calls files.now calls.now).durable)
        (after_calls files.now calls.now).durable touched.now name) }
{
    let mut left = files_after(alloc, files, &calls[..durable_calls(calls)])?;
    let mut digits = pick;
    for name in touched {
        let content = picked(alloc, digits % 4, meant(files, calls, name))?;
        set_content(&mut left, name, content)?;
        digits /= 4;
    }
    Ok(left)
}

/// The files that a stop after the calls leaves, from these files on.
pub(crate) fn files_left(
    alloc: Global,
    files: &[SetFile],
    calls: &[RecordedCall],
    pick: u32,
) -> Result<FileSet, AllocError>
    ensures left { IfOk result (λ left. AreLeftBy (after_calls files.now calls.now) calls.now pick left) }
    ensures may { IfOk result (λ left. MayLeave (after_calls files.now calls.now) (map_of left)) }
{
    let names = touched_names(alloc, calls)?;
    let touched = names_of_set(alloc, names)?;
    let held = left_files(alloc, files, calls, &touched, pick)?;
    let left = set_of(alloc, held)?;
    Ok(left)
}

/// The files in order of name. Where a name stands twice, its first file counts.
pub fn set_in_order(alloc: Global, files: &[SetFile]) -> Result<FileSet, AllocError>
    ensures { IfOk result (λ set. (name : List ℕ) → map_of set name ≡ map_of files.now name) }
{
    let held = first_files(alloc, files)?;
    let set = set_of(alloc, held)?;
    Ok(set)
}
