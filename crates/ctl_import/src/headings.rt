// The buckets.
ghost use Rattle.std.specs.Prelude.{◌≡◌};
ghost use Rattle.ctl_import.specs.Rows as word;

use crate::faults::ImportFault;
use crate::fields::{field_before, ruling_in};
use crate::names::{is_free, with_name, with_number};
use cynara_keys::{Kind, is_bucket_name};
use desk_ports::Bytes;
use std::alloc::{AllocError, Global};
use text_lines::split_line;

/// A bucket of a data base: its name there, its name in the script, and its fallback.
#[derive(Drop)]
pub struct Heading {
    pub(crate) name: Bytes,
    pub(crate) given: Bytes,
    pub(crate) kind: Kind,
    pub(crate) metadata: Bytes,
}

impl Heading {
    /// The name of the bucket in the data base. Its policies are in the file `_` and this name.
    pub fn name(&self) -> &[u8] {
        self.name.as_slice()
    }
}

/// The buckets of `buckets`, the root among them.
pub(crate) fn headings_in(alloc: Global, text: &[u8]) -> Result<Vec<Heading>, ImportFault> {
    let mut headings = Vec::new(alloc);
    let mut number = 0u32;
    let mut rest = text;
    while let Some((line, behind)) = split_line(rest) {
        number = number.saturating_add(1);
        match heading_in(alloc, line)? {
            Some(heading) => push(&mut headings, heading)?,
            None => return Err(ImportFault::Line(number)),
        }
        rest = behind;
    }
    if !has_bucket(&headings, b"") {
        return Err(ImportFault::NoRoot);
    }
    give_names(alloc, &mut headings)?;
    Ok(headings)
}

fn push(headings: &mut Vec<Heading>, heading: Heading) -> Result<(), AllocError> {
    headings.push(heading)?;
    Ok(())
}

fn heading_in(alloc: Global, line: &[u8]) -> Result<Option<Heading>, AllocError> {
    let Some((name, rest)) = field_before(line) else {
        return Ok(None);
    };
    let Some(ruling) = ruling_in(rest) else {
        return Ok(None);
    };
    Ok(Some(Heading {
        name: bytes_of(alloc, name)?,
        given: bytes_of(alloc, name)?,
        kind: ruling.kind,
        metadata: bytes_of(alloc, ruling.metadata)?,
    }))
}

fn bytes_of(alloc: Global, text: &[u8]) -> Result<Bytes, AllocError> {
    let mut bytes = Bytes::new(alloc);
    bytes.append(text)?;
    Ok(bytes)
}

// Gives each bucket a name of its own whose name a script may not have.
fn give_names(alloc: Global, headings: &mut [Heading]) -> Result<(), AllocError> {
    for place in 0..headings.len() {
        if let Some(given) = other_name(alloc, headings, place)? {
            headings[place].given = given;
        }
    }
    Ok(())
}

// Another name for the bucket at this place, where a script may not have its own.
fn other_name(
    alloc: Global,
    headings: &[Heading],
    place: usize,
) -> Result<Option<Bytes>, AllocError> {
    let Some(heading) = headings.get(place) else {
        return Ok(None);
    };
    if is_free(heading.name.as_slice()) {
        return Ok(None);
    }
    let name = name_to_give(alloc, headings, heading.name.as_slice(), place as u64)?;
    Ok(Some(name))
}

// `cynara_` before this name, where that is a name which no bucket has or was given; and else before the first number,
// from this one on, with which it is.
fn name_to_give(
    alloc: Global,
    headings: &[Heading],
    name: &[u8],
    first: u64,
) -> Result<Bytes, AllocError> {
    let usual = with_name(alloc, name)?;
    if is_bucket_name(usual.as_slice()) && !is_taken(headings, usual.as_slice()) {
        return Ok(usual);
    }
    for number in first..u64::MAX {
        let given = with_number(alloc, number)?;
        if !is_taken(headings, given.as_slice()) {
            return Ok(given);
        }
    }
    // There are fewer buckets than numbers, so nobody comes here.
    Err(AllocError)
}

// Whether a bucket has this name in the data base, or was given it.
fn is_taken(headings: &[Heading], name: &[u8]) -> bool {
    headings.iter().any(|heading| heading.name.as_slice() == name
        || heading.given.as_slice() == name)
}

/// Whether a bucket has this name in the data base.
pub(crate) fn has_bucket(headings: &[Heading], name: &[u8]) -> bool
    ensures { result ≡ word.has_bucket headings.now name.now }
{
    headings
        .iter()
        .any(|heading| heading.name.as_slice() == name)
}

/// The bucket of this name in the data base.
pub(crate) fn heading_of<'a>(headings: &'a [Heading], name: &[u8]) -> Option<&'a Heading> {
    headings
        .iter()
        .find(|heading| heading.name.as_slice() == name)
}
