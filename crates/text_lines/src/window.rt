// A window of bytes that slides over a source: what was read and is not dropped yet.
ghost use Rattle.std.specs.Prelude.{◌≡◌, ◌<◌, ◌≤◌, ◌+◌, [], length, take, drop, vec_len, MatchResult, IfOk, OnErr};
ghost use Rattle.desk_ports.specs.Faults.{CountsFailure};
ghost use Rattle.desk_ports.specs.Content.{Took};
ghost use Rattle.text_lines.specs.LineReader.{CountsReading};
ghost use Rattle.text_lines.specs.parts.Windows.{Gives, ReadsBehind};

use crate::refusal::ReadRefusal;
use desk_ports::{Failed, Source};
use std::alloc::{AllocError, Global};
use std::marker::Model;

/// The bytes from `start` to `end` of a buffer that grows where they fill it. It is never empty.
#[derive(Drop)]
pub struct Window {
    buffer: Vec<u8>,
    start: usize,
    end: usize,
}

impl Model for Window {
    ghost use Rattle.std.specs.Prelude.{List, ℕ};

    ghost Value = { List ℕ };

    ghost use Rattle.text_lines.specs.parts.Window.{bytes_in, IsWithin};

    ghost view = { bytes_in };

    ghost invariant = { IsWithin };
}

impl Window {
    /// A window without bytes, over a buffer of this size.
    pub fn new(alloc: Global, size: usize) -> Result<Window, AllocError>
        requires { 0 < size }
        ensures { IfOk result (λ window. window ≡ []) }
    {
        Ok(Window {
            buffer: vec![in alloc; 0; size]?,
            start: 0,
            end: 0,
        })
    }

    /// The bytes in the window.
    pub fn as_slice(&self) -> &[u8]
        ensures { result.now ≡ self.now }
    {
        &self.buffer[self.start..self.end]
    }

    /// Drops so many bytes at the front.
    pub fn drop_front(&mut self, count: usize)
        requires { count ≤ length self.old }
        ensures { self.new ≡ drop count self.old }
    {
        self.start += count;
    }

    /// Reads once from the source, at most so many bytes, and puts them behind those in the window. Whether there were
    /// any: else the source is at its end. The buffer grows to twice its size where the window fills it.
    pub fn read<S: Source>(&mut self, source: &mut S, most: usize) -> Result<bool, ReadRefusal>
        requires { 0 < most }
        ensures read { Gives (S.left source.old) (S.left source.new) self.old self.new most result }
        ensures count { CountsReading result (S.faults source.old) (S.faults source.new) }
    {
        let place = room_behind(&mut self.buffer, self.start, self.end)?;
        self.start = place.start;
        self.end = place.end;
        let count = read_behind(&mut self.buffer, self.end, most, source)?;
        self.end += count;
        Ok(count > 0)
    }
}

// Where bytes lie in a buffer.
#[derive(Clone, Copy)]
struct Place {
    start: usize,
    end: usize,
}

// Makes room in the buffer behind these bytes of it, and says where they lie then.
fn room_behind(buffer: &mut Vec<u8>, start: usize, end: usize) -> Result<Place, AllocError>
    requires some { 0 < vec_len buffer.old }
    requires order { start ≤ end }
    requires within { end ≤ vec_len buffer.old }
    ensures same { IfOk result
        (λ place. drop place.start (take place.end buffer.new.items) ≡ drop start (take end buffer.old.items)) }
    ensures order { IfOk result (λ place. place.start ≤ place.end) }
    ensures room { IfOk result (λ place. place.end < vec_len buffer.new) }
    ensures err { OnErr result (buffer.new.items ≡ buffer.old.items) }
{
    if end < buffer.len() {
        return Ok(Place { start, end });
    }
    let end = make_room(buffer, start)?;
    Ok(Place { start: 0, end })
}

// Moves the bytes of a buffer from this place on to its front, and grows the buffer where they fill it still. Where
// they end.
fn make_room(buffer: &mut Vec<u8>, start: usize) -> Result<usize, AllocError>
    requires some { 0 < vec_len buffer.old }
    requires within { start ≤ vec_len buffer.old }
    ensures moved { IfOk result (λ end. take end buffer.new.items ≡ drop start buffer.old.items) }
    ensures room { IfOk result (λ end. end < vec_len buffer.new) }
    ensures err { OnErr result (buffer.new.items ≡ buffer.old.items) }
{
    let end = buffer.len() - start;
    if start > 0 {
        buffer.copy_within(start.., 0);
    } else {
        let size = end.checked_mul(2).ok_or(AllocError)?;
        buffer.resize(size, 0)?;
    }
    Ok(end)
}

// Reads once, at most so many bytes, and puts them into the buffer from this place on.
fn read_behind<S: Source>(
    buffer: &mut [u8],
    end: usize,
    most: usize,
    source: &mut S,
) -> Result<usize, Failed>
    requires room { end < length buffer.old }
    requires most { 0 < most }
    ensures read { MatchResult result
        (ReadsBehind (S.left source.old) (S.left source.new) buffer.old buffer.new end most)
        (λ _. Took (S.left source.old) [] (S.left source.new) × (take end buffer.new ≡ take end buffer.old)) }
    ensures within { IfOk result (λ count. end + count ≤ length buffer.new) }
    ensures count { CountsFailure result (S.faults source.old) (S.faults source.new) }
{
    let limit = buffer.len().min(end.saturating_add(most));
    let count = source.read(&mut buffer[end..limit])?;
    Ok(count)
}
