ghost use Rattle.std.specs.Prelude.{◌≡◌, ◌<◌, ◌≤◌, ℕ, List, length, take, Option, IfOk, OnOk, OnErr};
ghost use Rattle.desk_ports.specs.Faults.{NeverFalls, CountsFailure};
ghost use Rattle.desk_ports.specs.Content.{Took, AtEnd, Appended, AppendedPart, Stays};

use thiserror::Error;

/// A call of an object of the outside failed. The object's count of faults rose in that call.
#[derive(Clone, Copy, Debug, PartialEq, Eq, Error)]
#[error("a call of the outside failed")]
pub struct Failed;

/// Where bytes come from. A source may tell the bytes that are left.
pub trait Source {
    /// How often it has failed.
    ghost faults: { Self → ℕ };

    /// The bytes that are left, where it tells them.
    ghost left: { Self → Option (List ℕ) };

    /// Puts the next bytes at the front of the slice, at most as many as it has room for, and says how many. Into a
    /// slice with room it gives 0 bytes only at the end of the input. A call that fails takes nothing from the source,
    /// and raises its count of faults by one; any other call leaves that count.
    fn read(&mut self, into: &mut [u8]) -> Result<usize, Failed>
        ensures within { IfOk result (λ count. count ≤ length into.old) }
        ensures given { IfOk result (λ count. Took (left self.old) (take count into.new) (left self.new)) }
        ensures ended { 0 < length into.old → IfOk result (λ count. count ≡ 0 → AtEnd (left self.old)) }
        ensures kept { OnErr result (Stays (left self.old) (left self.new)) }
        ensures count { CountsFailure result (faults self.old) (faults self.new) }
        ensures bound { NeverFalls (faults self.old) (faults self.new) };
}

/// Where bytes go. A sink may tell the bytes taken.
pub trait Sink {
    /// How often it has failed.
    ghost faults: { Self → ℕ };

    /// The bytes taken so far, where it tells them.
    ghost taken: { Self → Option (List ℕ) };

    /// Takes bytes from the front of the piece, at least one where there is one, and says how many. A call that fails
    /// takes nothing, and raises the sink's count of faults by one; any other call leaves that count.
    fn write(&mut self, from: &[u8]) -> Result<usize, Failed>
        ensures within { IfOk result (λ count. count ≤ length from.now) }
        ensures some { 0 < length from.now → IfOk result (λ count. 0 < count) }
        ensures taken { IfOk result (λ count. Appended (taken self.old) (take count from.now) (taken self.new)) }
        ensures kept { OnErr result (Stays (taken self.old) (taken self.new)) }
        ensures count { CountsFailure result (faults self.old) (faults self.new) }
        ensures bound { NeverFalls (faults self.old) (faults self.new) };

    /// Takes a line for the person who runs the program, which is no part of what the sink holds. It may be lost:
    /// neither the bytes taken nor the count of faults changes.
    fn note(&mut self, _note: &str)
        ensures taken { taken self.new ≡ taken self.old }
        ensures count { faults self.new ≡ faults self.old }
    {}
}

/// Has the sink take all bytes, in as many calls as it needs. It fails at the first call of the sink that does; the
/// sink has then taken some bytes from the front of them, or none, but not all.
pub fn write_all<K: Sink>(sink: &mut K, bytes: &[u8]) -> Result<(), Failed>
    ensures ok { OnOk result (Appended (K.taken sink.old) bytes.now (K.taken sink.new)) }
    ensures err { OnErr result (AppendedPart (K.taken sink.old) bytes.now (K.taken sink.new)) }
    ensures count { CountsFailure result (K.faults sink.old) (K.faults sink.new) }
{
    let mut done = 0;
    while done < bytes.len() {
        done += sink.write(&bytes[done..])?;
    }
    Ok(())
}
