ghost use Rattle.std.specs.Prelude.{◌≡◌, ◌≤◌, replicate, vec_len, true, false, Some, None};
ghost use Rattle.std.specs.Prelude.{is_some, if◌then◌else◌, IsSome, IfOk, IsErr, OnOk, OnErr, string_bytes};
ghost use Rattle.std.specs.IoError.{raw_os_error};
ghost use Rattle.std.specs.Option.{option_copied};
ghost use Rattle.desk_ports.specs.FileName.{IsFileName};
ghost use Rattle.folder_disk.specs.Paths.{file_path};
ghost use Rattle.desk_ports.specs.FileMap.{NamesRise};
ghost use Rattle.desk_ports.specs.Faults.{next_count};
ghost use Rattle.desk_ports.specs.PortFault.{count_after_call, count_after_refusal};
ghost use Rattle.folder_disk.specs.Holding.{IsHeld};
ghost use Rattle.folder_disk.specs.LastFailure.{last_failure, failure_after_refusal};
ghost use Rattle.folder_disk.specs.Untold.{untold};

use crate::byte_digests::ByteDigests;
use crate::failures::{Failure, FolderStep};
use crate::file_marks::FileMark;
use crate::file_name_bytes::is_file_name;
use crate::known_files::KnownFiles;
use crate::paths::PathRoom;
use crate::{files, folders, paths};
use desk_ports::{Bytes, Disk, Failed, FileName, PortFault};
use std::alloc::AllocError;
use std::fs::File;
use std::io::{self, ErrorKind};
use std::rt::{Clock, Files};

mod settled_writes;

/// A folder of the machine as a disk. It follows no link out of the folder, and makes files that only their owner may
/// read and write. It counts each error of the machine, and keeps the last one that it counted.
///
/// At its first call it takes the exclusive advisory lock on the folder, which it holds until it is dropped. Where
/// another open of the folder holds it for five more seconds, or the folder can't be opened, or has files of a policy
/// state but neither `list` nor `guard`, this call fails, nothing in the folder was changed, and the next call tries
/// again. A program that does not ask for the lock is not kept out of the folder.
///
/// Once all files are made sure of, a file that has the bytes which it is to be given is left as it is, and a name
/// whose bytes the file of the same name with or without a `~` has becomes one more name of that file.
///
/// A call that changes it asks for no memory, but for the text of the path that a failure shows, which may be lacking.
///
/// It tells nothing of what its files hold. That a real folder keeps what a disk promises is trusted.
#[derive(Drop)]
pub struct FolderDisk<R: Files<File = File> + Clock + AllocGlobal + Clone + Drop> {
    rt: R,
    folder: String,
    // The path of the file that is asked for, and that of its backup, or of the file that it is a backup of.
    path: PathRoom,
    partner: PathRoom,
    // Why the folder could not be made.
    unmade: Option<io::Error>,
    // The open folder, with the lock on it.
    held: Option<File>,
    // Whether each file of the folder is made sure of. Each is as it is written, so that no name has to be noted.
    is_settled: bool,
    // What the bytes of some files come to. Of use only while each file is made sure of.
    known: KnownFiles,
    digests: ByteDigests,
    faults: u64,
    failure: Option<Failure>,
}

impl<R: Files<File = File> + Clock + AllocGlobal + Clone + Drop> FolderDisk<R> {
    /// The folder of this path, which is made where there is none: its owner alone may use it. Where it can't be
    /// made, that is the first error that is counted. No lock is asked for yet.
    pub fn open(rt: R, folder: &str) -> Result<FolderDisk<R>, AllocError>
        ensures count { IfOk result (λ disk. disk.faults ≤ 1) }
        ensures told { IfOk result (λ disk. disk.faults ≡ (if is_some disk.failure then 1 else 0)) }
    {
        let folder = String::from_str(rt.alloc(), folder)?;
        let path = PathRoom::new(rt.alloc())?;
        let partner = PathRoom::new(rt.alloc())?;
        let known = KnownFiles::new(rt.alloc())?;
        let digests = ByteDigests::new(&rt);
        let unmade = folders::make_folder(&rt, folder.as_str()).err();
        let failure = Failure::unmade(rt.alloc(), folder.as_str(), &unmade);
        Ok(FolderDisk {
            held: None,
            rt,
            folder,
            path,
            partner,
            unmade,
            is_settled: false,
            known,
            digests,
            faults: u64::from(failure.is_some()),
            failure,
        })
    }

    /// The last error of the machine that was counted.
    pub fn failure(&self) -> Option<&Failure>
        ensures { option_copied result ≡ self.now.failure }
    {
        self.failure.as_ref()
    }

    // Opens and locks the folder, where it is not held yet, and looks whether it is a store or may become one.
    fn hold(&mut self) -> Result<(), Failure>
        ensures held { OnOk result (IsHeld self.new.held) }
        ensures count { self.new.faults ≡ self.old.faults }
        ensures settled { self.new.is_settled ≡ self.old.is_settled }
        ensures kept { OnErr result (self.new ≡ self.old) }
        ensures unmade { self.old.held ≡ None → IsSome self.old.unmade → IsErr result }
    {
        if self.held.is_none() {
            self.held = Some(self.lock()?);
        }
        Ok(())
    }

    fn lock(&self) -> Result<File, Failure>
        ensures unmade { IsSome self.now.unmade → IsErr result }
    {
        if let Some(failure) = Failure::unmade(
            self.rt.alloc(),
            self.folder.as_str(),
            &self.unmade,
        ) {
            return Err(failure);
        }
        let opened = folders::lock_folder(&self.rt, self.folder.as_str())?;
        folders::look_over(&self.rt, self.folder.as_str())?;
        Ok(opened)
    }

    // Sets the path of a file, for a step that is asked for next.
    fn set_path(&mut self, name: &[u8], step: FolderStep) -> Result<(), Failure>
        requires { IsFileName name.now }
        ensures path { OnOk result (self.new.path ≡ file_path (string_bytes self.old.folder) name.now) }
        ensures kept { self.new ≡ record self.old { path = self.new.path } }
    {
        if self.path.set_file(self.folder.as_str(), name) {
            Ok(())
        } else {
            Err(self.long_path(step))
        }
    }

    fn long_path(&self, step: FolderStep) -> Failure {
        Failure::long_path(self.rt.alloc(), step, self.folder.as_str())
    }

    fn list_names(&mut self) -> Result<Vec<FileName>, Failure>
        ensures rising { IfOk result (λ names. NamesRise names.items) }
        ensures count { self.new.faults ≡ self.old.faults }
    {
        self.hold()?;
        self.list_held()
    }

    fn list_held(&self) -> Result<Vec<FileName>, Failure>
        requires { IsHeld self.now.held }
        ensures { IfOk result (λ names. NamesRise names.items) }
    {
        folders::list(&self.rt, self.folder.as_str())
    }

    fn read_file(&mut self, name: &FileName) -> Result<Option<Bytes>, Failure>
        ensures count { self.new.faults ≡ self.old.faults }
    {
        self.hold()?;
        self.read_held(name)
    }

    fn read_held(&mut self, name: &FileName) -> Result<Option<Bytes>, Failure>
        requires { IsHeld self.old.held }
        ensures count { self.new.faults ≡ self.old.faults }
    {
        self.set_path(name.as_slice(), FolderStep::OpenFile)?;
        let Some(read) = files::read(&self.rt, self.path.as_str())? else {
            return Ok(None);
        };
        if self.is_settled && self.faults == 0 {
            self.note_read(name, &read);
        }
        Ok(Some(Bytes::of(read.bytes)))
    }

    fn write_file(&mut self, name: &FileName, bytes: &[u8]) -> Result<(), Failure>
        ensures count { self.new.faults ≡ self.old.faults }
        ensures settled { self.new.is_settled ≡ self.old.is_settled }
    {
        self.hold()?;
        self.set_path(name.as_slice(), FolderStep::WriteFile)?;
        if self.is_settled {
            return self.write_settled(name, bytes);
        }
        self.write_anew(bytes)?;
        Ok(())
    }

    // Writes the bytes to the file whose path is set, whatever it holds, and makes sure of it.
    fn write_anew(&self, bytes: &[u8]) -> Result<Option<FileMark>, Failure>
        requires { IsHeld self.now.held }
    {
        files::write(&self.rt, self.path.as_str(), bytes)
    }

    fn remove_file(&mut self, name: &FileName) -> Result<(), Failure>
        ensures count { self.new.faults ≡ self.old.faults }
        ensures settled { self.new.is_settled ≡ self.old.is_settled }
    {
        self.hold()?;
        self.remove_held(name)
    }

    fn remove_held(&mut self, name: &FileName) -> Result<(), Failure>
        requires { IsHeld self.old.held }
        ensures count { self.new.faults ≡ self.old.faults }
        ensures settled { self.new.is_settled ≡ self.old.is_settled }
    {
        self.set_path(name.as_slice(), FolderStep::RemoveFile)?;
        self.known.forget(name.as_slice());
        files::remove(&self.rt, self.path.as_str())
    }

    fn sync_all(&mut self) -> Result<(), Failure>
        ensures count { self.new.faults ≡ self.old.faults }
        ensures settled { OnOk result (self.new.is_settled ≡ true) }
    {
        self.hold()?;
        self.sync_held()
    }

    // Makes sure of which files the folder has. What an earlier run of the program touched is not known, nor what is
    // left of a file where a call failed. So the first time, and the next time after a failure, every plain file of the
    // folder is made sure of before, and so is the folder itself in the one that it stands in.
    fn sync_held(&mut self) -> Result<(), Failure>
        requires { IsHeld self.old.held }
        ensures count { self.new.faults ≡ self.old.faults }
        ensures settled { OnOk result (self.new.is_settled ≡ true) }
        ensures kept { OnErr result (self.new ≡ record self.old { path = self.new.path }) }
    {
        if !self.is_settled {
            sync_found(&self.rt, self.folder.as_str(), &self.held, &mut self.path)?;
            self.sync_parent()?;
        }
        self.sync_folder()?;
        self.is_settled = true;
        Ok(())
    }

    fn sync_parent(&self) -> Result<(), Failure> {
        match paths::parent_path(self.folder.as_str()) {
            Some(path) => folders::sync_folder(&self.rt, path.as_str()),
            None => Err(self.long_path(FolderStep::Sync)),
        }
    }

    fn sync_folder(&self) -> Result<(), Failure>
        requires { IsHeld self.now.held }
    {
        match &self.held {
            Some(opened) => folders::sync_open_folder(&self.rt, self.folder.as_str(), opened),
            None => unreachable!(),
        }
    }

    // Counts an error of the machine, and keeps it.
    fn fail(&mut self, failure: Failure) -> Failed
        ensures count { self.new.faults ≡ next_count self.old.faults }
        ensures last { self.new.failure ≡ Some failure }
        ensures unsettled { self.new.is_settled ≡ false }
        ensures forgotten { self.new.known.places.items ≡ replicate (vec_len self.old.known.places) None }
    {
        self.is_settled = false;
        self.known.forget_all();
        self.faults = self.faults.saturating_add(1);
        self.failure = Some(failure);
        Failed
    }

    // The answer of a call that changes the folder.
    fn changed(&mut self, done: Result<(), Failure>) -> Result<(), Failed>
        ensures count { self.new.faults ≡ count_after_call result self.old.faults }
        ensures last { self.new.failure ≡ last_failure done self.old.failure }
        ensures settled { OnOk result (self.new.is_settled ≡ self.old.is_settled) }
        ensures unsettled { OnErr result (self.new.is_settled ≡ false) }
    {
        match done {
            Ok(()) => Ok(()),
            Err(failure) => Err(self.fail(failure)),
        }
    }

    // The refusal of a call that reads the folder. The program's own want of memory is no error of the machine; one
    // that the machine answers is.
    fn refused(&mut self, failure: Failure) -> PortFault
        ensures machine { IsSome (raw_os_error failure.error) → result ≡ PortFault.Failed }
        ensures count { self.new.faults ≡ count_after_refusal result self.old.faults }
        ensures last { self.new.failure ≡ failure_after_refusal result failure self.old.failure }
    {
        let is_own = failure.error.raw_os_error().is_none();
        if is_own && failure.error.kind() == ErrorKind::OutOfMemory {
            return PortFault::Memory(AllocError);
        }
        let Failed = self.fail(failure);
        PortFault::Failed
    }
}

impl<R: Files<File = File> + Clock + AllocGlobal + Clone + Drop> Disk for FolderDisk<R> {
    ghost faults = { λ disk. disk.faults };

    ghost state = { λ disk. None };

    ghost moment = { λ disk. 0 };

    ghost left_since = { λ disk since left. Unit {0} };

    ghost touched_only = { λ disk. untold _ };

    ghost counts_now = { λ disk since left le. untold _ };

    ghost only_now = { λ disk left. untold _ };

    fn names(&mut self) -> Result<Vec<FileName>, PortFault> {
        match self.list_names() {
            Ok(names) => Ok(names),
            Err(failure) => Err(self.refused(failure)),
        }
    }

    fn read(&mut self, name: &FileName) -> Result<Option<Bytes>, PortFault> {
        match self.read_file(name) {
            Ok(content) => Ok(content),
            Err(failure) => Err(self.refused(failure)),
        }
    }

    fn write(&mut self, name: &FileName, bytes: &[u8]) -> Result<(), Failed> {
        let done = self.write_file(name, bytes);
        self.changed(done)
    }

    fn remove(&mut self, name: &FileName) -> Result<(), Failed> {
        let done = self.remove_file(name);
        self.changed(done)
    }

    fn sync(&mut self) -> Result<(), Failed> {
        let done = self.sync_all();
        self.changed(done)
    }

    fn faults(&self) -> u64 {
        self.faults
    }
}

// Makes sure of each plain file of the folder.
fn sync_found<R: Files + AllocGlobal + Drop>(
    rt: &R,
    folder: &str,
    held: &Option<File>,
    path: &mut PathRoom,
) -> Result<(), Failure>
    requires { IsHeld held.now }
{
    let mut dir = folders::open_names(rt, folder)?;
    let mut room = [0; folders::NAMES_BYTES];
    for _ in 0..u64::MAX {
        let names = folders::next_names(rt.alloc(), folder, &mut dir, &mut room)?;
        if names.is_empty() {
            break;
        }
        sync_each(rt, folder, held, path, names)?;
    }
    Ok(())
}

// Makes sure of the plain files of these names, each of which has a NUL behind it.
fn sync_each<R: Files + AllocGlobal + Drop>(
    rt: &R,
    folder: &str,
    held: &Option<File>,
    path: &mut PathRoom,
    names: &[u8],
) -> Result<(), Failure>
    requires { IsHeld held.now }
{
    for name in names.split(|byte| *byte == 0) {
        if is_file_name(name) {
            sync_named(rt, folder, held, path, name)?;
        }
    }
    Ok(())
}

fn sync_named<R: Files + AllocGlobal + Drop>(
    rt: &R,
    folder: &str,
    _held: &Option<File>,
    path: &mut PathRoom,
    name: &[u8],
) -> Result<(), Failure>
    requires held { IsHeld _held.now }
    requires name { IsFileName name.now }
{
    if path.set_file(folder, name) {
        files::sync_if_plain(rt, path.as_str())
    } else {
        Err(Failure::long_path(rt.alloc(), FolderStep::Sync, folder))
    }
}
