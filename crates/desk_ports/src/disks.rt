ghost use Rattle.std.specs.Prelude.{◌≡◌, ◌≤◌, ℕ, List, Option, Some, None, IfOk, OnOk, OnErr};
ghost use Rattle.desk_ports.specs.PortFault.{count_after, count_after_call};
ghost use Rattle.desk_ports.specs.FileMap.{FileMap, NamesRise};
ghost use Rattle.desk_ports.specs.Disk.{DiskState, IsTouchedOnly, MayLeave, WhereTold, KeepsState};
ghost use Rattle.desk_ports.specs.Disk.{Gives, Disturbs, MakesDurable, ListsNames, Reads};
ghost use Rattle.desk_ports.specs.Moments.{Elapses};

use crate::{Bytes, Failed, FileName, PortFault};

/// A folder of files that keeps what it was asked to keep. A disk may tell its state: the map of names and bytes that
/// is read now, the map that is durable, and the names touched since the last sync. A stop leaves any map that is as
/// the durable one at every untouched name. A disk that tells its state also tells which maps a stop may have left at
/// any moment since an earlier one.
pub trait Disk {
    /// How often it has failed.
    ghost faults: { Self → ℕ };

    /// What is read, what is durable and what was touched, where it tells them.
    ghost state: { Self → Option DiskState };

    /// The moment, as a number that doesn't fall.
    ghost moment: { Self → ℕ };

    /// What a stop at some moment from that one on may have left, during a call or between two.
    ghost left_since: { Self → ℕ → FileMap → Type 0 };

    /// The names of its files, rising strictly.
    fn names(&mut self) -> Result<Vec<FileName>, PortFault>
        ensures rising { IfOk result (λ names. NamesRise names.items) }
        ensures listed { IfOk result (λ names. ListsNames (state self.old) names.items) }
        ensures kept { KeepsState (state self.old) (state self.new) }
        ensures time { WhereTold (state self.new)
            (Elapses (moment self.old) (moment self.new) (left_since self.old) (left_since self.new)) }
        ensures count { faults self.new ≡ count_after result (faults self.old) };

    /// All bytes of a file, or nothing where there is none of this name.
    fn read(&mut self, name: &FileName) -> Result<Option<Bytes>, PortFault>
        ensures content { IfOk result (λ content. Reads (state self.old) name.now content) }
        ensures kept { KeepsState (state self.old) (state self.new) }
        ensures time { WhereTold (state self.new)
            (Elapses (moment self.old) (moment self.new) (left_since self.old) (left_since self.new)) }
        ensures count { faults self.new ≡ count_after result (faults self.old) };

    /// Makes a file of these bytes, or replaces the whole file. Touches the name. After a failure the name is touched
    /// and may hold anything or nothing, or nothing has changed.
    fn write(&mut self, name: &FileName, bytes: &[u8]) -> Result<(), Failed>
        ensures written { OnOk result (Gives (state self.old) name.now (Some bytes.now) (state self.new)) }
        ensures disturbed { OnErr result (Disturbs (state self.old) name.now (state self.new)) }
        ensures time { WhereTold (state self.new)
            (Elapses (moment self.old) (moment self.new) (left_since self.old) (left_since self.new)) }
        ensures count { faults self.new ≡ count_after_call result (faults self.old) };

    /// Removes a file. Without a file of this name there is nothing to do. Touches the name. After a failure the name
    /// is touched and may hold anything or nothing, or nothing has changed.
    fn remove(&mut self, name: &FileName) -> Result<(), Failed>
        ensures removed { OnOk result (Gives (state self.old) name.now None (state self.new)) }
        ensures disturbed { OnErr result (Disturbs (state self.old) name.now (state self.new)) }
        ensures time { WhereTold (state self.new)
            (Elapses (moment self.old) (moment self.new) (left_since self.old) (left_since self.new)) }
        ensures count { faults self.new ≡ count_after_call result (faults self.old) };

    /// Makes durable what is read now. After a failure nothing has changed.
    fn sync(&mut self) -> Result<(), Failed>
        ensures durable { OnOk result (MakesDurable (state self.old) (state self.new)) }
        ensures kept { OnErr result (KeepsState (state self.old) (state self.new)) }
        ensures time { WhereTold (state self.new)
            (Elapses (moment self.old) (moment self.new) (left_since self.old) (left_since self.new)) }
        ensures count { faults self.new ≡ count_after_call result (faults self.old) };

    /// How often it has failed. The count stands still at its last value.
    fn faults(&self) -> u64
        ensures { result ≡ faults self.now };

    /// What is read differs from what is durable at touched names alone.
    ghost touched_only: { (disk : Self) → WhereTold (state disk) IsTouchedOnly };

    /// This moment is one of those since an earlier one.
    ghost counts_now: { (disk : Self) (t : ℕ) (left : FileMap) → t ≤ moment disk
        → WhereTold (state disk) (λ now. MayLeave now left → left_since disk t left) };

    /// Since this moment there is no other.
    ghost only_now: { (disk : Self) (left : FileMap)
        → WhereTold (state disk) (λ now. left_since disk (moment disk) left → MayLeave now left) };
}
