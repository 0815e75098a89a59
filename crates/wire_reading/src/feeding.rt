ghost use Rattle.std.specs.Prelude.{◌≡◌, ◌≤◌, ◌<◌, ◌+◌, ◌∷◌, [], ◌++◌, Some, None, length};
ghost use Rattle.std.specs.Prelude.{Err, IfOk, IfErr, IfSome, OnOk, MatchOption, if◌then◌else◌};
ghost use Rattle.std.specs.List.{AllByRecursion};
ghost use Rattle.wire_reading.specs.Frame.{length_of, length_fault};
ghost use Rattle.wire_reading.specs.Hearing.{IsHeard};
ghost use Rattle.wire_reading.specs.Stream.{Fed, Failed, unfed, IsOpen, wanted};
ghost use Rattle.wire_reading.specs.parts.Feeding.{IsUpTo, Settled, Unsettled, Stepped, Unstepped};

use crate::decoding::{decode, length_fault, length_of};
use desk_ports::Bytes;
use std::alloc::Global;
use std::collections::VecDeque;
use std::marker::Model;
use wire_fields::{Framed, Heard, WireRefusal};

/// Reads messages from bytes that come in pieces, however they were cut. A frame that stands whole in a piece is read
/// there; a byte of one that does not is copied once, into the frame that is not whole yet, and is not moved when the
/// next piece comes. No memory is taken for bytes that are not there.
#[derive(Drop)]
pub struct Feeder {
    alloc: Global,
    heard: Heard,
    waiting: VecDeque<Framed>,
    partial: Bytes,
    failed: Option<WireRefusal>,
}

impl Model for Feeder {
    ghost use Rattle.std.specs.List.{AllByRecursion};
    ghost use Rattle.wire_reading.specs.Hearing.{IsHeard};
    ghost use Rattle.wire_reading.specs.Stream.{Feeding, IsOpen};

    ghost Value = { Feeding };

    ghost view = { λ feeder. record {
      heard = feeder.heard;
      waiting = feeder.waiting.items;
      partial = feeder.partial;
      failed = feeder.failed;
    } };

    ghost invariant = { λ feeder. IsOpen feeder.heard feeder.partial
        × AllByRecursion (IsHeard feeder.heard) feeder.waiting.items };
}

impl Feeder {
    /// A feeder of what this side hears, before the first byte. Takes no memory.
    pub fn new(alloc: Global, heard: Heard) -> Feeder
        ensures { result ≡ unfed heard }
    {
        Feeder {
            alloc,
            heard,
            waiting: VecDeque::new(alloc),
            partial: Bytes::new(alloc),
            failed: None,
        }
    }

    /// Hears the next piece. Refuses at the first frame that is wrong, and from then on answers that refusal to every
    /// piece; the messages before it can still be taken.
    pub fn feed(&mut self, piece: &[u8]) -> Result<(), WireRefusal>
        ensures fed { OnOk result (Fed self.old self.new piece.now) }
        ensures refused { IfErr result
            (λ refusal. self.old.failed ≡ None → Failed self.old self.new piece.now refusal) }
        ensures again { (refusal : _) → self.old.failed ≡ Some refusal
            → (result ≡ Err refusal) × (self.new ≡ self.old) }
    {
        if let Some(refusal) = self.failed {
            return Err(refusal);
        }
        match self.hear(piece) {
            Ok(()) => Ok(()),
            Err(refusal) => {
                self.partial.clear();
                self.failed = Some(refusal);
                Err(refusal)
            }
        }
    }

    /// Takes the first message that waits. `None` exactly where none waits.
    pub fn take(&mut self) -> Option<Framed>
        ensures taken { MatchOption result (self.old.waiting ≡ [])
            (λ framed. self.old.waiting ≡ framed ∷ self.new.waiting) }
        ensures right { IfSome result (IsHeard self.old.heard) }
        ensures rest { self.new ≡ record self.old { waiting = self.new.waiting } }
        ensures empty { self.old.waiting ≡ [] → self.new ≡ self.old }
    {
        self.waiting.pop_front()
    }

    /// How many bytes of a frame that is not whole are there; none after a refusal.
    pub fn rest(&self) -> usize
        ensures count { result ≡ length self.now.partial }
        ensures bound { result ≤ 1048579 }
    {
        self.partial.len()
    }

    // hears the piece, in steps each of which takes bytes from its front
    fn hear(&mut self, piece: &[u8]) -> Result<(), WireRefusal>
        requires free { self.old.failed ≡ None }
        requires open_frame { IsOpen self.old.heard self.old.partial }
        ensures fed { OnOk result (Fed self.old self.new piece.now) }
        ensures refused { IfErr result (Unstepped self.old self.new piece.now) }
    {
        let mut rest = piece;
        while !rest.is_empty() {
            rest = self.step(rest)?;
        }
        Ok(())
    }

    // takes the bytes of one frame, as far as they are there, and gives what is behind them
    fn step<'a>(&mut self, bytes: &'a [u8]) -> Result<&'a [u8], WireRefusal>
        requires { 0 < length bytes.now }
        ensures fewer { IfOk result (λ left. length left.now < length bytes.now) }
        ensures stepped { IfOk result (λ left. Stepped self.old self.new bytes.now left.now) }
        ensures refused { IfErr result (Unstepped self.old self.new bytes.now) }
    {
        if self.partial.len() == 0 {
            self.step_in_place(bytes)
        } else {
            self.step_behind(bytes)
        }
    }

    // where no frame is begun: one that stands whole in the bytes is read there, without a copy of it
    fn step_in_place<'a>(&mut self, bytes: &'a [u8]) -> Result<&'a [u8], WireRefusal>
        requires some { 0 < length bytes.now }
        requires empty { self.old.partial ≡ [] }
        ensures fewer { IfOk result (λ left. length left.now < length bytes.now) }
        ensures stepped { IfOk result (λ left. Stepped self.old self.new bytes.now left.now) }
        ensures refused { IfErr result (Unstepped self.old self.new bytes.now) }
    {
        let count = frame_size(bytes).min(bytes.len());
        let (front, left) = bytes.split_at(count);
        match settle(self.alloc, self.heard, front, &mut self.waiting) {
            Ok(true) => Ok(left),
            Ok(false) => {
                if let Err(error) = self.partial.append(front) {
                    return Err(WireRefusal::Memory(error));
                }
                Ok(left)
            }
            Err(refusal) => Err(refusal),
        }
    }

    // behind the bytes of a frame that is begun
    fn step_behind<'a>(&mut self, bytes: &'a [u8]) -> Result<&'a [u8], WireRefusal>
        requires { 0 < length bytes.now }
        ensures fewer { IfOk result (λ left. length left.now < length bytes.now) }
        ensures stepped { IfOk result (λ left. Stepped self.old self.new bytes.now left.now) }
        ensures refused { IfErr result (Unstepped self.old self.new bytes.now) }
    {
        let wanted = self.wanted();
        if bytes.len() < wanted {
            return self.keep(bytes);
        }
        let (front, left) = bytes.split_at(wanted);
        if let Err(error) = self.partial.append(front) {
            return Err(WireRefusal::Memory(error));
        }
        match settle(
            self.alloc,
            self.heard,
            self.partial.as_slice(),
            &mut self.waiting,
        ) {
            Ok(true) => {
                self.partial.clear();
                Ok(left)
            }
            Ok(false) => Ok(left),
            Err(refusal) => {
                self.partial.clear();
                Err(refusal)
            }
        }
    }

    // puts bytes behind those of the frame that is begun, which is not whole with them either
    fn keep<'a>(&mut self, bytes: &'a [u8]) -> Result<&'a [u8], WireRefusal>
        requires { IsOpen self.old.heard (self.old.partial ++ bytes.now) }
        ensures all { IfOk result (λ left. left.now ≡ []) }
        ensures stepped { IfOk result (λ left. Stepped self.old self.new bytes.now left.now) }
        ensures refused { IfErr result (Unstepped self.old self.new bytes.now) }
    {
        match self.partial.append(bytes) {
            Ok(()) => Ok(&[]),
            Err(error) => Err(WireRefusal::Memory(error)),
        }
    }

    /// How many bytes may be fed until the length of the frame under way is there, or else until the frame is whole: a
    /// piece of no more has at most one message, and no byte behind it.
    pub fn wanted(&self) -> usize
        ensures count { result ≡ wanted self.now.partial }
        ensures some { 0 < result }
        ensures up_to { length self.now.partial < 4 → result + length self.now.partial ≡ 4 }
        ensures whole { 4 ≤ length self.now.partial
            → result + length self.now.partial ≡ length_of self.now.partial + 4 }
    {
        let there = self.partial.len();
        if there < 4 {
            return 4 - there;
        }
        length_of(self.partial.as_slice()) as usize + 4 - there
    }
}

// How many bytes the frame at the front has, as far as its length is there.
fn frame_size(bytes: &[u8]) -> usize
    ensures short { length bytes.now < 4 → result ≡ length bytes.now }
    ensures whole { 4 ≤ length bytes.now → result ≡ length_of bytes.now + 4 }
{
    if bytes.len() < 4 {
        return bytes.len();
    }
    length_of(bytes) as usize + 4
}

// Hears the frame if it is whole, and says whether it was.
fn settle(
    alloc: Global,
    heard: Heard,
    bytes: &[u8],
    waiting: &mut VecDeque<Framed>,
) -> Result<bool, WireRefusal>
    requires { IsUpTo bytes.now }
    ensures right { AllByRecursion (IsHeard heard) waiting.old.items
        → AllByRecursion (IsHeard heard) waiting.new.items }
    ensures settled { IfOk result (λ is_heard. Settled heard bytes.now (if is_heard then [] else bytes.now)
        waiting.old.items waiting.new.items) }
    ensures refused { IfErr result (Unsettled heard bytes.now waiting.old.items waiting.new.items) }
{
    if bytes.len() < 4 {
        return Ok(false);
    }
    let length = length_of(bytes);
    if let Some(fault) = length_fault(length) {
        return Err(fault);
    }
    if bytes.len() < length as usize + 4 {
        return Ok(false);
    }
    match decode(alloc, heard, bytes) {
        Ok(framed) => match waiting.push_back(framed) {
            Ok(()) => Ok(true),
            Err(failed) => Err(WireRefusal::from(failed)),
        },
        Err(refusal) => Err(refusal),
    }
}
