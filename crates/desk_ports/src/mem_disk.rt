ghost use Rattle.std.specs.Prelude.{◌≡◌, ℕ, List, is_some, false, true, [], ◌∷◌, ◌++◌};
ghost use Rattle.std.specs.Prelude.{length, take, Some, None, IfOk, OnOk, OnErr, IsErr};
ghost use Rattle.std.specs.Bool.{OnFalse};
ghost use Rattle.std.specs.List.{Contains};
ghost use Rattle.desk_ports.specs.Faults.{next_count};
ghost use Rattle.desk_ports.specs.PortFault.{count_after, count_after_call};
ghost use Rattle.desk_ports.specs.Disk.{WhereTold, MayLeave, KeepsState, Gives};
ghost use Rattle.desk_ports.specs.Disk.{Disturbs, MakesDurable, ListsNames, Reads};
ghost use Rattle.desk_ports.specs.Moments.{Elapses};
ghost use Rattle.desk_ports.specs.parts.NamesHeld.{has_name};
ghost use Rattle.desk_ports.specs.FileMap.{AreNamesOf, NamesRise, map_of};
ghost use Rattle.desk_ports.specs.MemDisk.{next_number, with_number, with_call, with_fault, AnswersCall};
ghost use Rattle.desk_ports.specs.MemDisk.{AnswersChange, state_of, state_after, LeftSince};
ghost use Rattle.desk_ports.specs.Stopping.{AreLeftBy};
ghost use Rattle.desk_ports.specs.MemDiskLaws.{touched_only_of, counts_now_of, only_now_of};

use crate::disk_replays::{content_of, held_names};
use crate::name_order::names_of_set;
use crate::stops::files_left;
use crate::{
    Bytes, Disk, DiskCall, FailList, Failed, FileName, FileSet, PortFault, RecordedCall, SetFile,
};
use std::alloc::{AllocError, Global};
use std::collections::BTreeSet;
use std::marker::Model;

/// A disk in memory, for tests. It tells its state. It keeps a record of its calls, and fails at the listed calls. A
/// write, a removal or a sync fails also where it finds no memory to be recorded. A write or a removal that fails
/// leaves what is read as it was, and touches its name where it is recorded.
#[derive(Debug, Drop)]
pub struct MemDisk {
    files: FileSet,
    calls: Vec<RecordedCall>,
    made: u64,
    fails: FailList,
    faults: u64,
}

impl Model for MemDisk {
    ghost use Rattle.desk_ports.specs.MemDisk.{RecordedDisk};

    ghost Value = { RecordedDisk };

    ghost view = { λ disk. record {
      files = disk.files;
      calls = disk.calls.items;
      made = disk.made;
      fails = disk.fails;
      faults = disk.faults;
    } };
}

impl MemDisk {
    /// A disk with these files, all of them durable, and no call made yet.
    pub fn new(alloc: Global, files: FileSet, fails: FailList) -> Result<MemDisk, AllocError>
        ensures { IfOk result
            (λ disk. disk ≡ record { files = files; calls = []; made = 0; fails = fails; faults = 0 }) }
    {
        Ok(MemDisk {
            files,
            calls: Vec::new(alloc),
            made: 0,
            fails,
            faults: 0,
        })
    }

    /// The calls made so far, the first of them first. A call that found no memory to be recorded is not among them.
    pub fn calls(&self) -> &[RecordedCall]
        ensures { result.now ≡ self.now.calls }
    {
        &self.calls
    }

    /// The disk that a stop after so many calls may leave, with all calls where there are fewer. Each touched name is
    /// absent, empty, cut in half or whole, as the digits of `pick` to the base 4 say, the lowest first, in order of
    /// name. What is halved or whole are the bytes that the last write of the name, done or failed, was given since the
    /// last sync that was done, or else its durable bytes, or else none. A half is rounded down. The new disk starts
    /// with no call made, and with none that is to fail.
    pub fn stopped(&self, after: usize, pick: u32) -> Result<MemDisk, AllocError>
        ensures left { IfOk result
            (λ left. AreLeftBy (state_after self.now after) (take after self.now.calls) pick left.files) }
        ensures may { IfOk result (λ left. MayLeave (state_after self.now after) (map_of left.files)) }
        ensures fresh { IfOk result
            (λ left. left ≡ record { files = left.files; calls = []; made = 0; fails = []; faults = 0 }) }
    {
        let alloc = *self.calls.allocator();
        let files = self.files_left(after, pick)?;
        let disk = MemDisk::new(alloc, files, FailList::of(Vec::new(alloc)))?;
        Ok(disk)
    }

    // The files that a stop leaves.
    fn files_left(&self, after: usize, pick: u32) -> Result<FileSet, AllocError>
        ensures left { IfOk result
            (λ files. AreLeftBy (state_after self.now after) (take after self.now.calls) pick files) }
        ensures may { IfOk result (λ files. MayLeave (state_after self.now after) (map_of files)) }
    {
        files_left(
            *self.calls.allocator(),
            self.files.as_slice(),
            self.first_calls(after),
            pick,
        )
    }

    // The first so many calls, or all where there are fewer.
    fn first_calls(&self, count: usize) -> &[RecordedCall]
        ensures { result.now ≡ take count self.now.calls }
    {
        &self.calls[..count.min(self.calls.len())]
    }

    // Gives the next call its number. Whether it is to be done: it is to fail where its number is listed.
    fn number(&mut self) -> bool
        ensures made { self.new ≡ with_number self.old }
        ensures listed { Contains self.old.fails (next_number self.old) → result ≡ false }
        ensures unlisted { OnFalse result (Contains self.old.fails (next_number self.old)) }
    {
        self.made = self.made.saturating_add(1);
        !self.fails.fails(self.made)
    }

    // Records a call.
    fn keep(&mut self, call: DiskCall, is_done: bool) -> Result<(), AllocError>
        ensures ok { OnOk result (self.new
            ≡ record self.old { calls = self.old.calls ++ record { call = call; is_done = is_done } ∷ [] }) }
        ensures err { OnErr result (self.new ≡ self.old) }
    {
        self.calls.push(RecordedCall { call, is_done })?;
        Ok(())
    }

    // Counts a failure.
    fn fail(&mut self) -> Failed
        ensures { self.new ≡ with_fault self.old }
    {
        self.faults = self.faults.saturating_add(1);
        Failed
    }

    // Makes a call that may change the disk.
    fn change(&mut self, call: DiskCall) -> Result<(), Failed>
        ensures answered { AnswersChange result self.old call self.new }
        ensures listed { Contains self.old.fails (next_number self.old) → IsErr result }
    {
        let is_done = self.number();
        let Ok(()) = self.keep(call, is_done) else {
            return Err(self.fail());
        };
        if is_done { Ok(()) } else { Err(self.fail()) }
    }

    fn write_file(&mut self, name: &FileName, bytes: &[u8]) -> Result<(), Failed>
        ensures answered { AnswersChange result self.old
            (DiskCall.Write (record { name = name.now; bytes = bytes.now })) self.new }
        ensures listed { Contains self.old.fails (next_number self.old) → IsErr result }
    {
        let Ok(call) = write_call(*self.calls.allocator(), name, bytes) else {
            return Err(self.refuse());
        };
        self.change(call)
    }

    fn remove_file(&mut self, name: &FileName) -> Result<(), Failed>
        ensures answered { AnswersChange result self.old (DiskCall.Remove name.now) self.new }
        ensures listed { Contains self.old.fails (next_number self.old) → IsErr result }
    {
        let Ok(removed) = name.copy() else {
            return Err(self.refuse());
        };
        self.change(DiskCall::Remove(removed))
    }

    // Makes a call for which no memory was found.
    fn refuse(&mut self) -> Failed
        ensures { self.new ≡ with_fault (with_number self.old) }
    {
        let _is_done = self.number();
        self.fail()
    }

    // Reads a file.
    fn read_file(&mut self, name: &FileName) -> Result<Option<Bytes>, PortFault>
        ensures answered { AnswersCall result self.old (DiskCall.Read name.now) self.new }
        ensures listed { Contains self.old.fails (next_number self.old) → IsErr result }
        ensures content { IfOk result (λ content. content ≡ (state_of self.new).current name.now) }
    {
        let Ok(asked) = name.copy() else {
            let _is_done = self.number();
            return Err(PortFault::Memory(AllocError));
        };
        self.look(DiskCall::Read(asked))?;
        match content_of(self.files.as_slice(), &self.calls, name) {
            Some(bytes) => Ok(Some(bytes.copy()?)),
            None => Ok(None),
        }
    }

    // Lists the names of the files.
    fn list_names(&mut self) -> Result<Vec<FileName>, PortFault>
        ensures answered { AnswersCall result self.old DiskCall.Names self.new }
        ensures listed { Contains self.old.fails (next_number self.old) → IsErr result }
        ensures names { IfOk result (λ names. AreNamesOf (state_of self.new).current names.items) }
        ensures rising { IfOk result (λ names. NamesRise names.items) }
    {
        self.look(DiskCall::Names)?;
        let names = self.held()?;
        Ok(names_of_set(*self.calls.allocator(), names)?)
    }

    // The names that have a file.
    fn held(&self) -> Result<BTreeSet<FileName>, AllocError>
        ensures { IfOk result (λ names. (name : List ℕ)
            → has_name names name ≡ is_some ((state_of self.now).current name)) }
    {
        held_names(*self.calls.allocator(), self.files.as_slice(), &self.calls)
    }

    // Makes a call that only reads.
    fn look(&mut self, call: DiskCall) -> Result<(), PortFault>
        ensures answered { AnswersCall result self.old call self.new }
        ensures listed { Contains self.old.fails (next_number self.old) → IsErr result }
    {
        let is_done = self.number();
        self.keep(call, is_done)?;
        if is_done {
            return Ok(());
        }
        let Failed = self.fail();
        Err(PortFault::Failed)
    }
}

impl Disk for MemDisk {
    ghost faults = { λ disk. disk.faults };

    ghost state = { λ disk. Some (state_of disk) };

    ghost moment = { λ disk. length disk.calls };

    ghost left_since = { LeftSince };

    ghost touched_only = { touched_only_of };

    ghost counts_now = { counts_now_of };

    ghost only_now = { only_now_of };

    fn names(&mut self) -> Result<Vec<FileName>, PortFault>
        ensures rising { IfOk result (λ names. NamesRise names.items) }
        ensures listed { IfOk result (λ names. ListsNames (Some (state_of self.old)) names.items) }
        ensures kept { KeepsState (Some (state_of self.old)) (Some (state_of self.new)) }
        ensures time { WhereTold (Some (state_of self.new))
            (Elapses (length self.old.calls) (length self.new.calls) (LeftSince self.old) (LeftSince self.new)) }
        ensures count { self.new.faults ≡ count_after result self.old.faults }

        // More than any disk promises: what stands in the record, and which calls fail.
        ensures answered { AnswersCall result self.old DiskCall.Names self.new }
        ensures failing { Contains self.old.fails (next_number self.old) → IsErr result }
    {
        self.list_names()
    }

    fn read(&mut self, name: &FileName) -> Result<Option<Bytes>, PortFault>
        ensures content { IfOk result (λ content. Reads (Some (state_of self.old)) name.now content) }
        ensures kept { KeepsState (Some (state_of self.old)) (Some (state_of self.new)) }
        ensures time { WhereTold (Some (state_of self.new))
            (Elapses (length self.old.calls) (length self.new.calls) (LeftSince self.old) (LeftSince self.new)) }
        ensures count { self.new.faults ≡ count_after result self.old.faults }

        ensures answered { AnswersCall result self.old (DiskCall.Read name.now) self.new }
        ensures failing { Contains self.old.fails (next_number self.old) → IsErr result }
    {
        self.read_file(name)
    }

    fn write(&mut self, name: &FileName, bytes: &[u8]) -> Result<(), Failed>
        ensures written { OnOk result
            (Gives (Some (state_of self.old)) name.now (Some bytes.now) (Some (state_of self.new))) }
        ensures disturbed { OnErr result (Disturbs (Some (state_of self.old)) name.now (Some (state_of self.new))) }
        ensures time { WhereTold (Some (state_of self.new))
            (Elapses (length self.old.calls) (length self.new.calls) (LeftSince self.old) (LeftSince self.new)) }
        ensures count { self.new.faults ≡ count_after_call result self.old.faults }

        ensures answered { AnswersChange result self.old
            (DiskCall.Write (record { name = name.now; bytes = bytes.now })) self.new }
        ensures failing { Contains self.old.fails (next_number self.old) → IsErr result }
    {
        self.write_file(name, bytes)
    }

    fn remove(&mut self, name: &FileName) -> Result<(), Failed>
        ensures removed { OnOk result (Gives (Some (state_of self.old)) name.now None (Some (state_of self.new))) }
        ensures disturbed { OnErr result (Disturbs (Some (state_of self.old)) name.now (Some (state_of self.new))) }
        ensures time { WhereTold (Some (state_of self.new))
            (Elapses (length self.old.calls) (length self.new.calls) (LeftSince self.old) (LeftSince self.new)) }
        ensures count { self.new.faults ≡ count_after_call result self.old.faults }

        ensures answered { AnswersChange result self.old (DiskCall.Remove name.now) self.new }
        ensures failing { Contains self.old.fails (next_number self.old) → IsErr result }
    {
        self.remove_file(name)
    }

    fn sync(&mut self) -> Result<(), Failed>
        ensures durable { OnOk result (MakesDurable (Some (state_of self.old)) (Some (state_of self.new))) }
        ensures kept { OnErr result (KeepsState (Some (state_of self.old)) (Some (state_of self.new))) }
        ensures time { WhereTold (Some (state_of self.new))
            (Elapses (length self.old.calls) (length self.new.calls) (LeftSince self.old) (LeftSince self.new)) }
        ensures count { self.new.faults ≡ count_after_call result self.old.faults }

        ensures answered { AnswersChange result self.old DiskCall.Sync self.new }
        ensures failing { Contains self.old.fails (next_number self.old) → IsErr result }
    {
        self.change(DiskCall::Sync)
    }

    fn faults(&self) -> u64 {
        self.faults
    }
}

fn write_call(alloc: Global, name: &FileName, bytes: &[u8]) -> Result<DiskCall, AllocError>
    ensures { IfOk result (λ call. call ≡ DiskCall.Write (record { name = name.now; bytes = bytes.now })) }
{
    Ok(DiskCall::Write(SetFile {
        name: name.copy()?,
        bytes: Bytes::of(bytes.to_vec(alloc)?),
    }))
}
