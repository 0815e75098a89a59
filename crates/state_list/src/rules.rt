// The rule of the list, and which list it is.
use logbook::{Gain, Plain, Play, Rule};
use std::marker::{Brand, PhantomData};
use std::snapshot::Snapshot;

/// The rule of the list: the shared number is its length.
pub struct Law;

impl<S> Rule<S, u64> for Law {
    ghost use Rattle.std.specs.Prelude.{[]};
    ghost use base.Fml.{ftrue};
    ghost use Rattle.state_list.specs.Rules.{IsKept};

    ghost holds = { λ cells states. IsKept cells states };

    ghost first = { [] };

    ghost hinted = { λ number states. Unit {0} };

    ghost shows = { λ states. [] };

    ghost keeps = { λ names states. ftrue };

    ghost moves = { λ ask before after answer. Unit {0} };
}

/// Callers trade nothing.
pub struct Nothing;

impl<S> Gain<S, u64> for Nothing {
    ghost use base.Fml.{ftrue};

    ghost after = { λ names about answer. ftrue };
}

/// The step that puts an entry behind the list.
pub struct Add;

impl<S> Play<S, u64> for Add {
    ghost use Rattle.state_list.specs.Rules.{Adds};

    ghost then = { Adds };
}

/// What the step asks for: the entry.
impl<S> Plain<Snapshot<S>, S, u64> for Add {
    ghost use Rattle.std.specs.Prelude.{None};

    ghost ask = { λ entry. entry.value };

    ghost state = { λ entry. None };
}

/// Which list it is, and which list of events goes with it. Who opens the two lists picks them, by `Brand`.
pub trait Naming {
    ghost use Rattle.logbook.specs.Pages.{Book};

    ghost book: { Book };

    ghost events: { Book };
}

impl Naming for Brand {
    ghost book = { record { number = 0; log_name = 0; cells_name = 0 } };

    ghost events = { record { number = 0; log_name = 0; cells_name = 0 } };
}

/// Names the list of events that goes with the list of this name. It is a name alone: there is no value of it.
pub struct Events<J> {
    of: PhantomData<J>,
}

impl<J: Naming> Naming for Events<J> {
    ghost book = { J.events };

    ghost events = { J.events };
}
