// The rule over the queue, and what each kind of step tells.
use crossbeam_queue::protocol::{Join, Lesson, Outcome, Protocol, Split};
use crossbeam_queue::{Pass, RuledArrayQueue};
use monitor_rule::{Entry, View};

pub struct Monitored;

impl Protocol<Entry, View> for Monitored {
    ghost use Rattle.monitor_rule.specs.Rule.{Delivers};
    ghost use Rattle.monitor_rule.specs.Steps.{new_reader};

    ghost holds = { Delivers };

    ghost first = { new_reader };
}

pub type Line = RuledArrayQueue<Entry, View, Monitored>;

pub type LinePass = Pass<Entry, View>;

/// The reader makes a recorder.
pub struct Makes;

impl Split<View> for Makes {
    ghost use Rattle.monitor_rule.specs.Steps.{new_recorder, with_one_made};

    ghost left = { with_one_made };

    ghost right = { λ v. new_recorder v.made };
}

/// The reader takes in a recorder.
pub struct Joins;

impl Join<View> for Joins {
    ghost use Rattle.monitor_rule.specs.Steps.{ended, with_joined};

    ghost both = { λ v recorder. with_joined recorder v };

    ghost spent = { ended };
}

/// A recorder puts an entry.
pub struct Puts;

impl Outcome<Entry, View> for Puts {
    ghost use Rattle.std.specs.Prelude.{◌≡◌};
    ghost use Rattle.monitor_rule.specs.Steps.{with_put};

    ghost then = { λ v entry w. w ≡ with_put entry v };
}

impl Lesson<Entry, View> for Puts {
    ghost use Rattle.monitor_rule.specs.Steps.{StandsIn};

    ghost fact = { StandsIn };
}

/// The reader takes an entry while recorders record.
pub struct Takes;

impl Outcome<Entry, View> for Takes {
    ghost use Rattle.std.specs.Prelude.{◌≡◌};
    ghost use Rattle.monitor_rule.specs.Steps.{with_handed, IsKnown, IsNumberedNext};

    ghost then = { λ v entry w. (w ≡ with_handed entry v) × IsNumberedNext v entry × IsKnown v entry };
}

impl Lesson<Entry, View> for Takes {
    ghost use Rattle.monitor_rule.specs.Steps.{AreSettled};

    ghost fact = { AreSettled };
}

/// The reader takes an entry once it has taken in all recorders.
pub struct TakesLast;

impl Outcome<Entry, View> for TakesLast {
    ghost use Rattle.monitor_rule.specs.Steps.{TellsLeft};

    ghost then = { TellsLeft };
}

impl Lesson<Entry, View> for TakesLast {
    ghost use Rattle.monitor_rule.specs.Steps.{AreSettled};

    ghost fact = { AreSettled };
}

/// The reader takes the first of what it knows to be left.
pub struct TakesRest;

impl Outcome<Entry, View> for TakesRest {
    ghost use Rattle.monitor_rule.specs.Steps.{TakesLeft};

    ghost then = { TakesLeft };
}

impl Lesson<Entry, View> for TakesRest {
    ghost use Rattle.std.specs.Prelude.{◌≡◌};

    ghost fact = { λ v items. v.left ≡ items };
}
