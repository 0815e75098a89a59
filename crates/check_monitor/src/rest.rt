ghost use Rattle.std.specs.Prelude.{◌≡◌, ◌∷◌, [], true, MatchOption};
ghost use Rattle.std.specs.Arc.{arc_value};
ghost use Rattle.crossbeam_queue.specs.Passes.{view, IsPassOf};

use crate::running::{Line, LinePass, TakesRest};
use monitor_rule::Entry;
use std::marker::Model;
use std::sync::{Arc, Wait};

/// What is left in the queue once the recorders have ended. Contracts see the entries.
#[derive(Drop)]
pub struct Settled {
    queue: Arc<Line>,
    pass: LinePass,
    // It came out of the queue and stands in front of what is left there.
    waiting: Option<Entry>,
    is_empty: bool,
}

impl Model for Settled {
    ghost use Rattle.std.specs.Prelude.{◌≡◌, List, true, false};
    ghost use Rattle.std.specs.Arc.{arc_value};
    ghost use Rattle.crossbeam_queue.specs.Passes as passes;
    ghost use Rattle.monitor_rule.specs.declared.entries.Entry.{Entry};
    ghost use Rattle.monitor_rule.specs.declared.knowing.View.{View};
    ghost use Rattle.check_monitor.specs.parts.Rest.{rest_of};

    ghost Value = { List Entry };

    ghost view = { λ settled. let known : View = passes.view settled.pass in
        rest_of settled.is_empty settled.waiting known.left };

    ghost invariant = { λ settled. passes.IsPassOf (arc_value settled.queue) settled.pass
        × (settled.is_empty ≡ false → (let known : View = passes.view settled.pass in
        (known.reads ≡ true) × (known.ends ≡ true))) };
}

impl Settled {
    /// Nothing is left.
    pub(crate) fn empty(queue: Arc<Line>, pass: LinePass) -> Settled
        requires { IsPassOf (arc_value queue) pass }
        ensures { result ≡ [] }
    {
        Settled {
            queue,
            pass,
            waiting: None,
            is_empty: true,
        }
    }

    /// This entry is left, and then what the pass knows.
    pub(crate) fn behind(queue: Arc<Line>, pass: LinePass, entry: Entry) -> Settled
        requires pass { IsPassOf (arc_value queue) pass }
        requires ends { ((view pass).reads ≡ true) × ((view pass).ends ≡ true) }
        ensures { result ≡ entry ∷ (view pass).left }
    {
        Settled {
            queue,
            pass,
            waiting: Some(entry),
            is_empty: false,
        }
    }

    /// The first entry that is left. None exactly where nothing is left. Takes no memory.
    pub fn next<R: Wait>(&mut self, rt: &R) -> Option<Entry>
        ensures { MatchOption result ((self.old ≡ []) × (self.new ≡ [])) (λ entry. self.old ≡ entry ∷ self.new) }
    {
        if self.is_empty {
            return None;
        }
        if let Some(entry) = self.waiting.take() {
            return Some(entry);
        }
        self.queue.pop_as::<TakesRest, R>(rt, &mut self.pass)
    }
}
