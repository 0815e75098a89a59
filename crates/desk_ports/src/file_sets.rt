ghost use Rattle.std.specs.Prelude.{◌≡◌, IfOk};
ghost use Rattle.desk_ports.specs.FileMap.{NamesRise, names_of};

use crate::{Bytes, FileName};
use std::alloc::{AllocError, Global};
use std::marker::Model;

/// One file of a set: its name and all of its bytes.
#[derive(Debug, Drop)]
pub struct SetFile {
    pub name: FileName,
    pub bytes: Bytes,
}

impl SetFile {
    /// An equal file in memory of its own.
    pub fn copy(&self) -> Result<SetFile, AllocError>
        ensures { IfOk result (λ copy. copy ≡ self.now) }
    {
        Ok(SetFile {
            name: self.name.copy()?,
            bytes: self.bytes.copy()?,
        })
    }
}

/// Files with strictly rising names.
#[derive(Debug, Drop)]
pub struct FileSet {
    files: Vec<SetFile>,
}

impl Model for FileSet {
    ghost use Rattle.std.specs.Prelude.{List};
    ghost use Rattle.desk_ports.specs.declared.file_sets.SetFile.{SetFile};
    ghost use Rattle.desk_ports.specs.FileMap.{NamesRise, names_of};

    ghost Value = { List SetFile };

    ghost view = { λ set. set.files.items };

    ghost invariant = { λ set. NamesRise (names_of set.files.items) };
}

impl FileSet {
    /// These files. Takes no memory.
    pub fn of(files: Vec<SetFile>) -> FileSet
        requires { NamesRise (names_of files.items) }
        ensures { result ≡ files.items }
    {
        FileSet { files }
    }

    /// The files, in order of name.
    pub fn as_slice(&self) -> &[SetFile]
        ensures files { result.now ≡ self.now }
        ensures rising { NamesRise (names_of self.now) }
    {
        &self.files
    }

    /// An equal set in memory of its own.
    pub fn copy(&self) -> Result<FileSet, AllocError>
        ensures { IfOk result (λ copy. copy ≡ self.now) }
    {
        let mut files = Vec::new(*self.files.allocator());
        for file in &self.files {
            files.push(file.copy()?)?;
        }
        Ok(FileSet { files })
    }
}
