// How events come into the roll's log, and how a seat is told of it.
ghost use Rattle.std.specs.Prelude.{◌≡◌, ◌++◌, ◌∷◌, [], IfSome};
ghost use mathlib.Core.List.{IsPrefix};

use crate::events::Event;
use crate::seated::Seated;
use state_list::{Book, Events, Front, Naming};
use std::snapshot::Snapshot;
use std::sync::Wait;

/// Puts an event behind this log. It does not return where the log is longer, or has as many events as it can, which is
/// 2^62. Neither comes about: but that only the roll puts events into its log is known of its code, and not by a proof.
pub(crate) fn logged<R: Wait, J: Naming>(
    rt: &R,
    book: &Book<Event, Events<J>>,
    log: &Front<Event, Events<J>>,
    event: Event,
) -> Front<Event, Events<J>>
    ensures { result ≡ log.now ++ event ∷ [] }
{
    for _ in rt.forever() {
        if let Some(longer) = put(book, log, event) {
            return longer;
        }
    }
    unreachable!()
}

// The same, or none.
fn put<J: Naming>(
    book: &Book<Event, Events<J>>,
    log: &Front<Event, Events<J>>,
    event: Event,
) -> Option<Front<Event, Events<J>>>
    ensures { IfSome result (λ longer. longer ≡ log.now ++ event ∷ []) }
{
    book.put_behind(log, &Snapshot::of(&event))
}

/// Tells the seat the note and the log. It does not return where the seat knows of more than stands in the log, which
/// does not come about either.
pub(crate) fn tell<R: Wait, J: Naming, S: Seated<J>>(
    rt: &R,
    seat: &mut S,
    note: u64,
    log: &Front<Event, Events<J>>,
)
    ensures told { seat.new ≡ S.told note log.now seat.old }
    ensures knew { IsPrefix (S.known seat.old) log.now }
{
    for _ in rt.forever() {
        if seat.tell(note, log) {
            return;
        }
    }
}
