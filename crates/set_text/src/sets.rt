//! Files of a set by their names, and the faults of whole files.

ghost use Rattle.std.specs.Prelude.{◌≡◌, filter, None, MatchResult};
ghost use Rattle.std.specs.Option.{option_copied};
ghost use Rattle.desk_ports.specs.FileName.{IsFileName};
ghost use Rattle.desk_ports.specs.FileMap.{NamesRise, names_of};
ghost use Rattle.set_text.specs.Fault.{bytes_in, unlike, odd_name};
ghost use Rattle.set_text.specs.Reading.{odd_file};
ghost use Rattle.set_text.specs.parts.Names.{Names, NamesLine, RefusesTest};
ghost use Rattle.set_text.specs.parts.Sorts as sorts;

use crate::file_names::{Sort, is_of, known_name};
use crate::lines::FileFault;
use crate::refusals::TextRefusal;
use desk_ports::{FileName, SetFile};
use std::alloc::Global;
use std::cmp::Ordering;

/// The bytes of the file of a name, none where it is absent. Finds it by halving.
pub fn bytes_of<'a>(files: &'a [SetFile], name: &[u8]) -> &'a [u8]
    requires { NamesRise (names_of files.now) }
    ensures { result.now ≡ bytes_in files.now name.now }
{
    match files.binary_search_by(|file| file.name.as_slice().cmp(name)) {
        Ok(at) => files[at].bytes.as_slice(),
        Err(_) => &[],
    }
}

/// The files of a sort have these names, which rise. Else the least name is damaged that is absent or has no use.
pub fn test_names(
    alloc: Global,
    files: &[SetFile],
    sort: Sort,
    wanted: &[FileName],
) -> Result<(), TextRefusal>
    ensures { MatchResult result (λ done. odd_file (sorts.is_of sort) wanted.now files.now ≡ None)
        (λ refusal. RefusesTest refusal (odd_file (sorts.is_of sort) wanted.now files.now)) }
{
    match odd_name(alloc, files, sort, wanted) {
        Some(name) => Err(damaged(alloc, name.as_slice(), 0)),
        None => Ok(()),
    }
}

// The least name that is only wanted, or only there.
fn odd_name<'a>(
    alloc: Global,
    files: &'a [SetFile],
    sort: Sort,
    wanted: &'a [FileName],
) -> Option<&'a FileName>
    ensures { option_copied result ≡ odd_name wanted.now (filter (sorts.is_of sort) (names_of files.now)) }
{
    let mut rest = wanted;
    for file in files {
        if !is_of(alloc, &file.name, sort) {
            continue;
        }
        let Some((first, later)) = rest.split_first() else {
            return Some(&file.name);
        };
        match first.cmp(&file.name) {
            Ordering::Less => return Some(first),
            Ordering::Greater => return Some(&file.name),
            Ordering::Equal => rest = later,
        }
    }
    rest.first()
}

/// The refusal that names a line of a file, or the file as a whole by line 0.
pub fn damaged(alloc: Global, name: &[u8], line: u32) -> TextRefusal
    requires { IsFileName name.now }
    ensures { Names result (record { file = name.now; line = line }) }
{
    match known_name(alloc, name) {
        Ok(file) => TextRefusal::Damaged { file, line },
        Err(error) => TextRefusal::Memory(error),
    }
}

/// The refusal of a file with this fault.
pub fn in_file(alloc: Global, name: &[u8], fault: FileFault) -> TextRefusal
    requires { IsFileName name.now }
    ensures { NamesLine result name.now fault }
{
    match fault {
        FileFault::Line(line) => damaged(alloc, name, line),
        FileFault::Memory(error) => TextRefusal::Memory(error),
    }
}

/// The file has this text. Else it is damaged as a whole.
pub fn test_text(
    alloc: Global,
    files: &[SetFile],
    name: &[u8],
    text: &[u8],
) -> Result<(), TextRefusal>
    requires rising { NamesRise (names_of files.now) }
    requires name { IsFileName name.now }
    ensures { MatchResult result (λ done. unlike files.now name.now text.now ≡ None)
        (λ refusal. RefusesTest refusal (unlike files.now name.now text.now)) }
{
    if bytes_of(files, name) == text {
        return Ok(());
    }
    Err(damaged(alloc, name, 0))
}
