ghost use Rattle.std.specs.Prelude.{◌≡◌, ◌≤◌, ◌+◌, [], ◌++◌, length, take, drop, vec_len, IfOk, OnOk, OnErr};

use std::alloc::{AllocError, Global};
use std::fmt;
use std::marker::Model;

/// How many bytes are made ready ahead of those that are there.
const MOST_SPARE: usize = 65_536;

/// A list of bytes that owns its memory. Contracts see it as the list. To append costs a copy and no more where there
/// is room.
#[derive(Drop)]
pub struct Bytes {
    /// The bytes stand at the front, and behind them is room for more.
    room: Vec<u8>,
    count: usize,
}

impl Model for Bytes {
    ghost use Rattle.std.specs.Prelude.{◌≤◌, List, ℕ, take, vec_len};

    ghost Value = { List ℕ };

    ghost view = { λ list. take list.count list.room.items };

    ghost invariant = { λ list. list.count ≤ vec_len list.room };
}

impl Bytes {
    /// No bytes. Takes no memory yet.
    pub fn new(alloc: Global) -> Bytes
        ensures { result ≡ [] }
    {
        Bytes {
            room: Vec::new(alloc),
            count: 0,
        }
    }

    /// These bytes. Takes no memory.
    pub fn of(bytes: Vec<u8>) -> Bytes
        ensures { result ≡ bytes.items }
    {
        Bytes {
            count: bytes.len(),
            room: bytes,
        }
    }

    /// The bytes, in order.
    pub fn as_slice(&self) -> &[u8]
        ensures { result.now ≡ self.now }
    {
        &self.room[..self.count]
    }

    /// How many bytes there are.
    pub fn len(&self) -> usize
        ensures { result ≡ length self.now }
    {
        self.count
    }

    /// Appends these bytes. Where it finds no memory, the list stays as it was. Inlined, so that of bytes whose number
    /// is known the copy is a few moves.
    #[inline(always)]
    pub fn append(&mut self, from: &[u8]) -> Result<(), AllocError>
        ensures ok { OnOk result (self.new ≡ self.old ++ from.now) }
        ensures err { OnErr result (self.new ≡ self.old) }
    {
        if self.room.len() - self.count < from.len() {
            make_room(&mut self.room, self.count, from.len())?;
        }
        let end = self.count + from.len();
        self.room[self.count..end].copy_from_slice(from);
        self.count = end;
        Ok(())
    }

    /// Appends the bytes in front and those behind them, with one test for room. Else as `append`.
    #[inline(always)]
    pub fn append_both(&mut self, front: &[u8], back: &[u8]) -> Result<(), AllocError>
        ensures ok { OnOk result (self.new ≡ self.old ++ (front.now ++ back.now)) }
        ensures err { OnErr result (self.new ≡ self.old) }
    {
        let more = front.len().checked_add(back.len()).ok_or(AllocError)?;
        if self.room.len() - self.count < more {
            make_room(&mut self.room, self.count, more)?;
        }
        let end = self.count + more;
        write_both(&mut self.room[self.count..end], front, back);
        self.count = end;
        Ok(())
    }

    /// Puts these bytes in the place of as many at the front.
    #[tactic(auto, using(crate::proofs::Fronts::take_overwritten))]
    pub fn overwrite_front(&mut self, with: &[u8])
        requires { length with.now ≤ length self.old }
        ensures { self.new ≡ with.now ++ drop (length with.now) self.old }
    {
        let (front, _) = self.room.split_at_mut(with.len());
        front.copy_from_slice(with);
    }

    /// Keeps the first `most` bytes, or all where there are fewer.
    pub fn truncate(&mut self, most: usize)
        ensures { self.new ≡ take most self.old }
    {
        if most < self.count {
            self.count = most;
        }
    }

    /// Removes every byte, and keeps the room for as many.
    pub fn clear(&mut self)
        ensures { self.new ≡ [] }
    {
        self.count = 0;
    }

    /// An equal list with memory of its own.
    pub fn copy(&self) -> Result<Bytes, AllocError>
        ensures { IfOk result (λ copy. copy ≡ self.now) }
    {
        Ok(Bytes::of(self.as_slice().to_vec(*self.room.allocator())?))
    }
}

// Writes the bytes in front and those behind them, which fill the place.
#[inline(always)]
fn write_both(place: &mut [u8], front: &[u8], back: &[u8])
    requires { length place.old ≡ length front.now + length back.now }
    ensures { place.new ≡ front.now ++ back.now }
{
    let (at_front, at_back) = place.split_at_mut(front.len());
    at_front.copy_from_slice(front);
    at_back.copy_from_slice(back);
}

// Makes room behind so many bytes for `more`, and for as many again as there are then, but no more than `MOST_SPARE`:
// what is ahead of the bytes is written to.
#[inline(never)]
fn make_room(room: &mut Vec<u8>, count: usize, more: usize) -> Result<(), AllocError>
    requires within { count ≤ vec_len room.old }
    ensures same { take count room.new.items ≡ take count room.old.items }
    ensures within { count ≤ vec_len room.new }
    ensures room { OnOk result (count + more ≤ vec_len room.new) }
{
    let least = count.checked_add(more).ok_or(AllocError)?;
    let size = least.checked_add(least.min(MOST_SPARE)).ok_or(AllocError)?;
    room.resize(size, 0)
}

impl fmt::Debug for Bytes {
    fn fmt<W: fmt::Write>(&self, f: &mut fmt::Formatter<W>) -> fmt::Result {
        f.debug_struct("Bytes")
            .field("bytes", &self.as_slice())
            .finish()
    }
}
