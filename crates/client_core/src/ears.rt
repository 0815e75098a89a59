// The bytes of one frame, as they come.
use crate::feeding::{Fed, feed};
use std::alloc::Global;
use std::marker::Model;
use wire_messages::{Feeder, Framed, Heard, WireRefusal};

/// The frame under way, as far as its bytes came. It takes no byte past that frame.
#[derive(Drop)]
pub(crate) struct Ear {
    feeder: Feeder,
}

impl Model for Ear {
    ghost use Rattle.client_core.specs.Listening.{Listening, IsQuiet};

    ghost Value = { Listening };

    ghost view = { λ ear. record { side = ear.feeder.heard; bytes = ear.feeder.partial } };

    ghost invariant = { λ ear. IsQuiet ear.feeder };
}

/// What became of the next bytes.
#[derive(Drop)]
pub(crate) enum Piece {
    /// The frame is not whole with them.
    More(Ear),
    /// They end the frame.
    Whole(Framed),
    /// The frame is wrong with them, or no memory was found.
    Wrong(WireRefusal),
}

impl Ear {
    ghost use Rattle.std.specs.Prelude.{◌≡◌, ◌<◌, true};
    ghost use Rattle.wire_reading.specs.Stream.{wanted};
    ghost use Rattle.client_core.specs.Listening.{unheard, is_fit};
    ghost use Rattle.client_core.specs.Hearing.{HearsPiece};

    /// Before the first byte. Takes no memory.
    pub(crate) fn new(alloc: Global, side: Heard) -> Ear
        ensures { result ≡ unheard side }
    {
        Ear {
            feeder: Feeder::new(alloc, side),
        }
    }

    /// How many bytes may come next, at most: never past the frame, and one at least.
    pub(crate) fn wanted(&self) -> usize
        ensures count { result ≡ wanted self.now.bytes }
        ensures some { 0 < result }
    {
        self.feeder.wanted()
    }

    /// Whether these are some bytes, and no more than are wanted.
    pub(crate) fn takes(&self, piece: &[u8]) -> bool
        ensures { result ≡ is_fit self.now.bytes piece.now }
    {
        if piece.is_empty() {
            return false;
        }
        piece.len() <= self.feeder.wanted()
    }

    /// Hears bytes, some and no more than are wanted.
    pub(crate) fn hear(self, piece: &[u8]) -> Piece
        requires { is_fit self.bytes piece.now ≡ true }
        ensures { HearsPiece result self piece.now }
    {
        let Ear { feeder } = self;
        let mut feeder = feeder;
        match feed(&mut feeder, piece) {
            Fed::More => Piece::More(Ear { feeder }),
            Fed::Whole(framed) => Piece::Whole(framed),
            Fed::Wrong(refusal) => Piece::Wrong(refusal),
        }
    }
}
