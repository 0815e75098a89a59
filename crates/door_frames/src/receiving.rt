ghost use Rattle.std.specs.Prelude.{◌≡◌, ◌<◌, ◌≤◌, ◌++◌, ℕ, List, [], length, take, None, IfOk, IfErr, OnOk, OnErr};
ghost use Rattle.wire_reading.specs.Hearing.{IsHeard};
ghost use Rattle.door_frames.specs.Carried.{Carried};
ghost use Rattle.door_frames.specs.Hearing.{IsSound, IsRefused, HearsMore, HandsOut};
ghost use Rattle.door_frames.specs.Ending.{EndsReading, EndsInput, ended_by};

use crate::Ended;
use desk_ports::Failed;
use link_ports::Link;
use std::sync::Wait;
use wire_messages::{Feeder, Framed, WireRefusal, pieces_do_not_matter};

/// How many bytes a door receives at once, at most.
pub const MOST_PIECE: usize = 4096;

/// Receives the next bytes of a link into the room, once all frames that were heard are taken, and says how many there
/// are. They are not fed: `hear_piece` does that. Ends where the input has ended, where a call of the link failed, and
/// where the feeder has failed. It may wait for bytes.
pub fn receive_piece<L: Link>(
    link: &mut L,
    feeder: &mut Feeder,
    room: &mut [u8],
) -> Result<usize, Ended>
    requires some { 0 < length room.old }
    requires taken { feeder.old.waiting ≡ [] }
    requires sound { IsSound feeder.old }
    ensures came { IfOk result (λ count. (0 < count) × (count ≤ length room.new)
        × Carried (L.traffic link.old) (L.traffic link.new) (take count room.new) []) }
    ensures still { OnOk result ((feeder.old.failed ≡ None) × (feeder.new ≡ feeder.old)) }
    ensures heard { OnErr result (Carried (L.traffic link.old) (L.traffic link.new) [] []
        × HearsMore [] feeder.old feeder.new) }
    ensures sound { IsSound feeder.new }
    ensures side { feeder.new.heard ≡ feeder.old.heard }
    ensures faults { OnOk result (L.faults link.new ≡ L.faults link.old) }
    ensures ended { IfErr result
        (λ ended. EndsReading ended feeder.new (L.marks link.new) (L.faults link.old) (L.faults link.new)) }
    ensures empty { feeder.new.waiting ≡ [] }
    ensures ends { (L.marks link.new).ends ≡ (L.marks link.old).ends }
{
    if let Err(refusal) = still_sound(feeder) {
        return Err(ended_by(refusal));
    }
    match link.receive(room) {
        Ok(0) => Err(at_the_end(feeder)),
        Ok(count) => Ok(count),
        Err(Failed) => Err(Ended::LinkFault),
    }
}

/// Hears a piece that was received. What is wrong with it shows at the next call.
pub fn hear_piece(feeder: &mut Feeder, piece: &[u8])
    requires { feeder.old.failed ≡ None }
    ensures heard { HearsMore piece.now feeder.old feeder.new }
    ensures sound { IsSound feeder.new }
    ensures side { feeder.new.heard ≡ feeder.old.heard }
{
    pieces_do_not_matter();
    match feeder.feed(piece) {
        Ok(()) => {}
        Err(_) => {}
    }
}

/// Receives the next bytes of a link into the room and feeds them, once all frames that were heard are taken. What is
/// wrong with them shows at the next call. Ends where the input has ended, where a call of the link failed, and where
/// the feeder has failed. It may wait for bytes.
pub fn receive_more<L: Link>(
    link: &mut L,
    feeder: &mut Feeder,
    room: &mut [u8],
) -> Result<(), Ended>
    requires some { 0 < length room.old }
    requires taken { feeder.old.waiting ≡ [] }
    requires sound { IsSound feeder.old }
    ensures heard { (bytes : List ℕ)
        × Carried (L.traffic link.old) (L.traffic link.new) bytes []
        × HearsMore bytes feeder.old feeder.new }
    ensures came { OnOk result ((bytes : List ℕ) × (0 < length bytes)
        × Carried (L.traffic link.old) (L.traffic link.new) bytes []) }
    ensures sound { IsSound feeder.new }
    ensures side { feeder.new.heard ≡ feeder.old.heard }
    ensures faults { OnOk result (L.faults link.new ≡ L.faults link.old) }
    ensures ended { IfErr result
        (λ ended. EndsReading ended feeder.new (L.marks link.new) (L.faults link.old) (L.faults link.new)) }
    ensures empty { OnErr result (feeder.new.waiting ≡ []) }
    ensures ends { (L.marks link.new).ends ≡ (L.marks link.old).ends }
{
    match receive_piece(link, feeder, room) {
        Ok(count) => {
            hear_piece(feeder, &room[..count]);
            Ok(())
        }
        Err(ended) => Err(ended),
    }
}

/// Takes the next frame that was heard, and receives more until there is one. It may wait for bytes.
pub fn next_frame<R: Wait, L: Link>(
    rt: &R,
    link: &mut L,
    feeder: &mut Feeder,
    room: &mut [u8],
) -> Result<Framed, Ended>
    requires some { 0 < length room.old }
    requires sound { IsSound feeder.old }
    ensures framed { IfOk result (λ framed. (bytes : List ℕ)
        × Carried (L.traffic link.old) (L.traffic link.new) bytes []
        × HandsOut bytes framed feeder.old feeder.new) }
    ensures right { IfOk result (IsHeard feeder.old.heard) }
    ensures side { feeder.new.heard ≡ feeder.old.heard }
    ensures faults { OnOk result (L.faults link.new ≡ L.faults link.old) }
    ensures ended { IfErr result
        (λ ended. EndsReading ended feeder.new (L.marks link.new) (L.faults link.old) (L.faults link.new)) }
    ensures heard { OnErr result ((bytes : List ℕ)
        × Carried (L.traffic link.old) (L.traffic link.new) bytes []
        × HearsMore bytes feeder.old feeder.new) }
    ensures sound { IsSound feeder.new }
    ensures empty { OnErr result (feeder.new.waiting ≡ []) }
    ensures ends { (L.marks link.new).ends ≡ (L.marks link.old).ends }
{
    for _ in rt.forever() {
        if let Some(framed) = feeder.take() {
            return Ok(framed);
        }
        if let Err(ended) = receive_more(link, feeder, room) {
            return Err(ended);
        }
    }
    unreachable!()
}

// Whether the feeder has not failed. One that has answers its refusal to any piece.
fn still_sound(feeder: &mut Feeder) -> Result<(), WireRefusal>
    requires taken { feeder.old.waiting ≡ [] }
    requires sound { IsSound feeder.old }
    ensures sound { OnOk result ((feeder.old.failed ≡ None) × (feeder.new ≡ feeder.old)) }
    ensures refused { IfErr result (IsRefused feeder.old feeder.new) }
{
    pieces_do_not_matter();
    match feeder.feed(&[]) {
        Ok(()) => Ok(()),
        Err(refusal) => Err(refusal),
    }
}

// How a connection ends whose input has ended.
fn at_the_end(feeder: &Feeder) -> Ended
    requires { feeder.now.failed ≡ None }
    ensures { EndsInput feeder.now.partial result }
{
    let count = feeder.rest();
    if count == 0 {
        return Ended::Closed;
    }
    Ended::Cut(count)
}

// How a connection ends whose bytes are refused.
fn ended_by(refusal: WireRefusal) -> Ended
    ensures { result ≡ ended_by refusal }
{
    match refusal {
        WireRefusal::TooShort(length) => Ended::BadFrame(WireRefusal::TooShort(length)),
        WireRefusal::TooLong(length) => Ended::BadFrame(WireRefusal::TooLong(length)),
        WireRefusal::BadOperation(number) => Ended::BadFrame(WireRefusal::BadOperation(number)),
        WireRefusal::BadField(at) => Ended::BadFrame(WireRefusal::BadField(at)),
        WireRefusal::Trailing(at) => Ended::BadFrame(WireRefusal::Trailing(at)),
        WireRefusal::Memory(_) => Ended::Memory,
    }
}
