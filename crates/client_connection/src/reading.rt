ghost use Rattle.std.specs.Prelude.{◌≡◌, ◌<◌, ◌≤◌, ◌++◌, [], None, take, length, IfOk, OnOk, IfErr};
ghost use Rattle.wire_reading.specs.Stream.{IsOpen, wanted};
ghost use Rattle.client_connection.specs.Reading.{Receives, IsTrouble, IfLost, IsUnused};
ghost use Rattle.client_connection.specs.parts.Pieces.{HearsPiece, TakesPiece};

use crate::Broken;
use desk_ports::Failed;
use link_ports::Link;
use wire_messages::{Feeder, Framed, WireRefusal, no_byte_past_a_frame};

// How many bytes are received at once, at most.
const MOST_PIECE: usize = 4096;

// What became of the next bytes of a frame.
#[derive(Drop)]
pub(crate) enum Piece {
    // They are heard, and the frame is not whole.
    More,
    // They end the frame.
    Whole(Framed),
    // The frame is wrong with them, or no memory was found.
    Wrong(WireRefusal),
    // None came.
    Lost,
}

/// Takes one frame from the link by a feeder that holds nothing, and not a byte past it. `Lost` where a call of the
/// link failed or its input ended before the frame was whole. Of a wrong frame no more is taken than its length says,
/// and behind a wrong length nothing. It may wait.
pub fn read_frame<L: Link>(link: &mut L, feeder: &mut Feeder) -> Result<Framed, Broken>
    requires { IsUnused feeder.old }
    ensures received { Receives feeder.old.heard result (L.traffic link.old) (L.traffic link.new) }
    ensures again { OnOk result (feeder.new ≡ feeder.old) }
    ensures lost { IfErr result (λ broken. IfLost broken (IsTrouble (L.marks link.new) (L.faults link.new))) }
    ensures ends { (L.marks link.new).ends ≡ (L.marks link.old).ends }
    ensures faults { OnOk result (L.faults link.new ≡ L.faults link.old) }
{
    let mut room = [0u8; MOST_PIECE];
    loop {
        let _there = feeder.rest();
        let want = feeder.wanted().min(MOST_PIECE);
        match take_piece(link, feeder, &mut room[..want]) {
            Piece::More => {}
            Piece::Whole(framed) => return Ok(framed),
            Piece::Wrong(refusal) => return Err(Broken::Wrong(refusal)),
            Piece::Lost => return Err(Broken::Lost),
        }
    }
}

// Takes the next bytes of the frame under way from the link, as many as there are and no more than the room.
fn take_piece<L: Link>(link: &mut L, feeder: &mut Feeder, room: &mut [u8]) -> Piece
    requires some { 0 < length room.old }
    requires wanted { length room.old ≤ wanted feeder.old.partial }
    requires waiting { feeder.old.waiting ≡ [] }
    requires sound { feeder.old.failed ≡ None }
    requires open_frame { IsOpen feeder.old.heard feeder.old.partial }
    ensures taken { TakesPiece result feeder.old feeder.new (L.traffic link.old) (L.traffic link.new)
        (L.marks link.new) (L.faults link.old) (L.faults link.new) }
    ensures ends { (L.marks link.new).ends ≡ (L.marks link.old).ends }
{
    match link.receive(room) {
        Ok(0) => Piece::Lost,
        Ok(count) => hear_piece(feeder, &room[..count]),
        Err(Failed) => Piece::Lost,
    }
}

// Hears bytes of the frame under way, of which none is behind the frame.
fn hear_piece(feeder: &mut Feeder, piece: &[u8]) -> Piece
    requires some { 0 < length piece.now }
    requires wanted { length piece.now ≤ wanted feeder.old.partial }
    requires waiting { feeder.old.waiting ≡ [] }
    requires sound { feeder.old.failed ≡ None }
    requires open_frame { IsOpen feeder.old.heard feeder.old.partial }
    ensures { HearsPiece result feeder.old feeder.new piece.now }
{
    no_byte_past_a_frame();
    match feeder.feed(piece) {
        Ok(()) => match feeder.take() {
            Some(framed) => Piece::Whole(framed),
            None => Piece::More,
        },
        Err(refusal) => Piece::Wrong(refusal),
    }
}
