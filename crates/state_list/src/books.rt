// Opens a list, and puts entries behind it.
ghost use Rattle.std.specs.Prelude.{◌≡◌, ◌++◌, ◌∷◌, [], IfSome};
ghost use Rattle.state_list.specs.Opening.{book_of};

use crate::fronts::Front;
use crate::rules::{Add, Law, Naming, Nothing};
use crate::words::{Book, Opened};
use logbook::{Offer, Seen, Start, Word};
use std::marker::PhantomData;
use std::snapshot::Snapshot;

/// So many entries a list has at the most.
const MOST: u64 = 1 << 62;

impl<S> Opened<S> {
    /// A list of its own, with nothing in it, to which no name is given yet.
    pub fn new() -> Opened<S> {
        let (seen, mut first, _second) = Seen::open(Start::alone(), 0, 0);
        Opened {
            head: Word::tracked(0, &mut first),
            seen,
        }
    }

    /// The right to put entries behind the list, under a name, and the front that has none.
    pub fn named<J: Naming>(self) -> (Book<S, J>, Front<S, J>)
        requires { book_of self ≡ J.book }
        ensures { result.1 ≡ [] }
    {
        let Opened { head, seen } = self;
        (
            Book {
                head,
                of: PhantomData,
            },
            Front::of(seen),
        )
    }
}

impl<S, J: Naming> Book<S, J> {
    /// Puts an entry behind the list, where this front is all of it, and answers the front with that entry. None where
    /// the list is longer, or has as many entries as it can.
    pub fn put_behind(&self, front: &Front<S, J>, entry: &Snapshot<S>) -> Option<Front<S, J>>
        ensures { IfSome result (λ longer. longer ≡ front.now ++ entry.now.value ∷ []) }
    {
        let count = front.count();
        if count >= MOST {
            return None;
        }
        let mut seen = front.known().again();
        let mut offer: Offer<S, u64, Law, Nothing> = seen.plain::<Nothing, Snapshot<S>, Add>(entry);
        let mut pen = seen.no_pen();
        let found = self
            .head
            .compare_exchange::<Add, Nothing>(count, count + 1, &mut seen, &mut offer, &mut pen);
        if found != count {
            return None;
        }
        Some(Front::at(count + 1, seen))
    }
}
