// What the machine was asked where it failed, and how a person reads of it.
ghost use Rattle.std.specs.Prelude.{◌≡◌, is_some, Ok, Err, IfOk, IfErr, string_bytes};
ghost use Rattle.std.specs.Option.{ForSome};
ghost use Rattle.desk_ports.specs.Shown.{IsPrintable};

use crate::store_signs::StoreSigns;
use desk_ports::shown_bytes;
use std::alloc::Global;
use std::error::Error;
use std::io::ErrorKind;
use std::{fmt, io};

// The most bytes of a path that are shown.
const MOST_SHOWN_BYTES: usize = 4_096;

// What a person is told where a folder is no store.
const NO_STORE: &str =
    ": it may be another program's, or list was removed, which is the names of the set's files, \
    a line each, in order";

/// What the machine is asked to do with a folder, or with a file in it.
#[derive(Clone, Copy, Debug, PartialEq, Eq)]
pub enum FolderStep {
    MakeFolder,
    OpenFolder,
    LockFolder,
    /// Take the folder for a store.
    UseFolder,
    ListFolder,
    OpenFile,
    ReadFile,
    WriteFile,
    /// Cut a file to the length of what was written.
    CutFile,
    /// Have what a file holds, or which files a folder has, reach the medium.
    Sync,
    RemoveFile,
}

/// An error of the machine: what was asked, where, and why it was not done. Shown as one line without a newline, in a
/// person's words.
#[derive(Debug, Drop)]
pub struct Failure {
    pub step: FolderStep,
    /// The path, as a person is shown it: a byte that is no printable ASCII, and a backslash, as `\x` with two digits
    /// of hexadecimal, and at most 4,096 bytes. None where there was no memory for it.
    pub path: Option<String>,
    pub error: io::Error,
    /// Two of the files by which a folder looks like a store, or the only one, as a person is shown them. None of any
    /// other failure, and where there was no memory for it.
    pub files: Option<String>,
    ghost printable: { ForSome path (λ text. IsPrintable (string_bytes text)) },
    ghost printable_files: { ForSome files (λ text. IsPrintable (string_bytes text)) },
}

impl Failure {
    pub(crate) fn at(alloc: Global, step: FolderStep, path: &str, error: io::Error) -> Failure
        ensures step { result.step ≡ step }
        ensures error { result.error ≡ error }
    {
        let path = match shown_bytes(alloc, path.as_bytes(), MOST_SHOWN_BYTES) {
            Ok(path) => Some(path),
            Err(_) => None,
        };
        Failure {
            step,
            path,
            error,
            files: None,
        }
    }

    /// The failure of making the folder, where it could not be made.
    pub(crate) fn unmade(alloc: Global, folder: &str, unmade: &Option<io::Error>) -> Option<Failure>
        ensures { is_some result ≡ is_some unmade.now }
    {
        match unmade {
            Some(error) => Some(Failure::at(alloc, FolderStep::MakeFolder, folder, *error)),
            None => None,
        }
    }

    /// The failure of taking a folder for a store that has files of a policy state, but neither the list nor the guard.
    pub(crate) fn no_store(alloc: Global, folder: &str, signs: &StoreSigns) -> Failure
        ensures { result.step ≡ FolderStep.UseFolder }
    {
        let error = io::Error::new(ErrorKind::InvalidData, "neither list nor guard is there");
        let mut failure = Failure::at(alloc, FolderStep::UseFolder, folder, error);
        failure.files = shown_files(alloc, signs);
        failure
    }

    /// The failure of a step on a file in the folder, or on what the folder stands in, where its path is longer than
    /// the machine takes. The folder is shown in place of it.
    pub(crate) fn long_path(alloc: Global, step: FolderStep, folder: &str) -> Failure
        ensures { result.step ≡ step }
    {
        Failure::at(
            alloc,
            step,
            folder,
            io::Error::new(
                ErrorKind::InvalidFilename,
                "a path in it has more than 4,095 bytes",
            ),
        )
    }

    // What could not be done, as the words before the path.
    fn words(&self) -> &'static str {
        match self.step {
            FolderStep::MakeFolder => "make the folder",
            FolderStep::OpenFolder => "open the folder",
            // Another open of the folder holds the lock.
            FolderStep::LockFolder if self.error.kind() == ErrorKind::WouldBlock => {
                "use the folder"
            }
            FolderStep::LockFolder => "lock the folder",
            FolderStep::UseFolder => "use the folder",
            FolderStep::ListFolder => "list the folder",
            FolderStep::OpenFile => "open",
            FolderStep::ReadFile => "read",
            FolderStep::WriteFile => "write",
            FolderStep::CutFile => "shorten",
            FolderStep::Sync => "sync",
            FolderStep::RemoveFile => "remove",
        }
    }
}

impl fmt::Display for Failure {
    fn fmt<W: fmt::Write>(&self, f: &mut fmt::Formatter<W>) -> fmt::Result {
        let words = self.words();
        let error = &self.error;
        let Some(path) = &self.path else {
            return write!(f, "cannot {words}: {error}");
        };
        match &self.files {
            Some(files) => write!(
                f,
                "cannot {words} {path}: it has {files}, but {error}{NO_STORE}"
            ),
            None => write!(f, "cannot {words} {path}: {error}"),
        }
    }
}

impl Error for Failure {}

// The files by which a folder looks like a store. None without memory for their names.
fn shown_files(alloc: Global, signs: &StoreSigns) -> Option<String>
    ensures { ForSome result (λ text. IsPrintable (string_bytes text)) }
{
    let names = signs.shown()?;
    match shown_bytes(alloc, names.as_str().as_bytes(), MOST_SHOWN_BYTES) {
        Ok(text) => Some(text),
        Err(_) => None,
    }
}

/// What the machine answered, and where it failed what was asked of it.
pub(crate) fn told<T>(
    alloc: Global,
    step: FolderStep,
    path: &str,
    answer: io::Result<T>,
) -> Result<T, Failure>
    ensures ok { IfOk result (λ value. answer ≡ Ok value) }
    ensures err { IfErr result (λ failure. answer ≡ Err failure.error) }
{
    match answer {
        Ok(value) => Ok(value),
        Err(error) => Err(Failure::at(alloc, step, path, error)),
    }
}
