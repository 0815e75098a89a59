// What the list is kept by.
ghost use Rattle.std.specs.Prelude.{◌≡◌, []};
ghost use Rattle.state_list.specs.Rules.{head_of};

use crate::rules::{Law, Naming};
use logbook::{Seen, Word};
use std::marker::PhantomData;

/// A list with no entries, which has no name yet.
#[derive(Drop)]
pub struct Opened<S> {
    pub(crate) head: Word<S, u64, Law>,
    pub(crate) seen: Seen<S, u64, Law>,
    pub ghost empty: { seen.log ≡ [] },
    pub ghost head_is: { head ≡ head_of seen.book },
}

/// What entries are put behind a list by. There is one for each list, and it can't be copied.
#[derive(Drop)]
pub struct Book<S, J: Naming> {
    pub(crate) head: Word<S, u64, Law>,
    pub(crate) of: PhantomData<J>,
    ghost head_is: { head ≡ head_of J.book },
}
