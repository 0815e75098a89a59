// Bytes of one frame are fed to a feeder.
ghost use Rattle.std.specs.Prelude.{◌≡◌, ◌≤◌, [], None, length};
ghost use Rattle.wire_reading.specs.Stream.{IsOpen, wanted};
ghost use Rattle.client_core.specs.Hearing.{HearsFeeding};

use wire_messages::{Feeder, Framed, WireRefusal, no_byte_past_a_frame};

/// What became of the bytes.
#[derive(Drop)]
pub(crate) enum Fed {
    More,
    Whole(Framed),
    Wrong(WireRefusal),
}

/// Feeds bytes of the frame under way, of which none is behind the frame.
pub(crate) fn feed(feeder: &mut Feeder, piece: &[u8]) -> Fed
    requires wanted { length piece.now ≤ wanted feeder.old.partial }
    requires waiting { feeder.old.waiting ≡ [] }
    requires sound { feeder.old.failed ≡ None }
    requires open_frame { IsOpen feeder.old.heard feeder.old.partial }
    ensures { HearsFeeding result feeder.old feeder.new piece.now }
{
    no_byte_past_a_frame();
    match feeder.feed(piece) {
        Ok(()) => match feeder.take() {
            Some(framed) => Fed::Whole(framed),
            None => Fed::More,
        },
        Err(refusal) => Fed::Wrong(refusal),
    }
}
