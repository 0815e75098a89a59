// What an agent says, heard over its own link alone.
ghost use Rattle.std.specs.Prelude.{◌≡◌, ◌<◌, ◌≤◌, ℕ, List, [], length, MatchResult, IfOk, IfErr, OnOk, OnErr};
ghost use Rattle.wire_reading.specs.Hearing.{IsHeard};
ghost use Rattle.wire_reading.specs.Stream.{unfed};
ghost use Rattle.wire_fields.specs.declared.operations.Heard.TheVariants.{AtAgent};
ghost use Rattle.door_frames.specs.Carried.{Carried};
ghost use Rattle.door_frames.specs.Hearing.{IsSound, HearsMore, HandsOut};
ghost use Rattle.door_frames.specs.Ending.{EndsReading};
ghost use Rattle.agent_door.specs.parts.Talk.{HearsAnswer, EndsHearing};

use crate::messages::Answer;
use crate::waiting::answer_in_time;
use door_frames::{Ended, next_frame};
use link_ports::Link;
use std::alloc::Global;
use std::marker::{Model, PhantomData};
use std::sync::Wait;
use wire_messages::{Feeder, Framed, Heard};

/// An answer that came over an agent's link of this type. It is made where its frame is heard, once, and nowhere else;
/// to hand it to a hall uses it up.
#[derive(Drop)]
pub struct HeardAnswer<L> {
    given: Answer,
    of: PhantomData<L>,
}

impl<L> Model for HeardAnswer<L> {
    ghost use Rattle.agent_door.specs.declared.messages.Answer.{Answer};

    ghost Value = { Answer };

    ghost view = { λ heard. heard.given };
}

impl<L> HeardAnswer<L> {
    /// What was answered.
    pub(crate) fn given(&self) -> Answer
        ensures { result ≡ self.now }
    {
        self.given
    }
}

/// A feeder of what an agent says. Nothing is fed to it but what links of this type received.
#[derive(Drop)]
pub(crate) struct LinkFeeder<L: Link> {
    feeder: Feeder,
    of: PhantomData<L>,
}

impl<L: Link> Model for LinkFeeder<L> {
    ghost use Rattle.wire_reading.specs.Stream.{Feeding};

    ghost Value = { Feeding };

    ghost view = { λ hearing. hearing.feeder };
}

impl<L: Link> LinkFeeder<L> {
    /// A feeder before the first byte. Takes no memory.
    pub(crate) fn new(alloc: Global) -> LinkFeeder<L>
        ensures { result ≡ unfed AtAgent }
    {
        LinkFeeder {
            feeder: Feeder::new(alloc, Heard::AtAgent),
            of: PhantomData,
        }
    }

    /// Takes the next frame that was heard, as `next_frame` of `door_frames` does. It may wait for bytes.
    pub(crate) fn next_frame<R: Wait>(
        &mut self,
        rt: &R,
        link: &mut L,
        room: &mut [u8],
    ) -> Result<Framed, Ended>
        requires some { 0 < length room.old }
        requires sound { IsSound self.old }
        ensures framed { IfOk result (λ framed. (bytes : List ℕ)
            × Carried (L.traffic link.old) (L.traffic link.new) bytes []
            × HandsOut bytes framed self.old self.new) }
        ensures right { IfOk result (IsHeard self.old.heard) }
        ensures side { self.new.heard ≡ self.old.heard }
        ensures faults { OnOk result (L.faults link.new ≡ L.faults link.old) }
        ensures ended { IfErr result
            (λ ended. EndsReading ended self.new (L.marks link.new) (L.faults link.old) (L.faults link.new)) }
        ensures heard { OnErr result ((bytes : List ℕ)
            × Carried (L.traffic link.old) (L.traffic link.new) bytes []
            × HearsMore bytes self.old self.new) }
        ensures sound { IsSound self.new }
        ensures empty { OnErr result (self.new.waiting ≡ []) }
        ensures ends { (L.marks link.new).ends ≡ (L.marks link.old).ends }
    {
        next_frame(rt, link, &mut self.feeder, room)
    }

    /// The next answer, where one is there or comes within a tenth of a second.
    pub(crate) fn answer_in_time(
        &mut self,
        link: &mut L,
        room: &mut [u8],
    ) -> Result<Option<HeardAnswer<L>>, Ended>
        requires some { 0 < length room.old }
        requires side { self.old.heard ≡ AtAgent }
        requires sound { IsSound self.old }
        ensures side { OnOk result (self.new.heard ≡ AtAgent) }
        ensures sound { OnOk result (IsSound self.new) }
        ensures taken { MatchResult result
            (λ answer. (bytes : List ℕ)
            × Carried (L.traffic link.old) (L.traffic link.new) bytes []
            × HearsAnswer answer bytes self.old self.new)
            (EndsHearing self.old self.new (L.traffic link.old) (L.traffic link.new)
            (L.marks link.new) (L.faults link.old) (L.faults link.new)) }
        ensures faults { OnOk result (L.faults link.old ≤ L.faults link.new) }
        ensures ends { (L.marks link.new).ends ≡ (L.marks link.old).ends }
    {
        match answer_in_time(link, &mut self.feeder, room) {
            Ok(Some(given)) => Ok(Some(HeardAnswer {
                given,
                of: PhantomData,
            })),
            Ok(None) => Ok(None),
            Err(ended) => Err(ended),
        }
    }
}
