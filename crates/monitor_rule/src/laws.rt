//! Each kind of step keeps the rule, whatever the other threads did before, and what it tells. These functions do
//! nothing; their clauses are the laws, in the words of a queue under a rule.
ghost use Rattle.std.specs.Prelude.{◌≡◌, ℕ, List, [], ◌∷◌, true, false};
ghost use Rattle.crossbeam_queue.specs.Fifo.{Pushes, Pops, Forks, Merges, Learns};
ghost use Rattle.monitor_rule.specs.declared.entries.Entry.{Entry};
ghost use Rattle.monitor_rule.specs.declared.knowing.View.{View};
ghost use Rattle.monitor_rule.specs.Rule.{Delivers};
ghost use Rattle.monitor_rule.specs.Steps.{new_reader, new_recorder, ended, with_one_made, with_put, with_handed};
ghost use Rattle.monitor_rule.specs.Steps.{with_joined, AreAllJoined, TellsLeft, TakesLeft, IsNext, IsKnown};
ghost use Rattle.monitor_rule.specs.Steps.{IsNumberedNext, StandsIn, AreSettled};

/// The queue is made, with a reader that handed out nothing.
pub fn a_new_reader_keeps_the_rule()
    ensures { Delivers [] (new_reader ∷ []) }
{}

/// A recorder is made, for the next worker.
pub fn a_new_recorder_keeps_the_rule()
    ensures { (pass : ℕ) (v : View) → v.reads ≡ true → v.joined ≡ [] → v.ends ≡ false
        → Forks Delivers pass v (with_one_made v) (new_recorder v.made) }
{}

/// A recorder pushes an entry of its worker that has the next number.
pub fn a_push_keeps_the_rule()
    ensures { (room pass : ℕ) (v : View) (entry : Entry) → v.records ≡ true → IsNext v entry
        → Pushes Delivers room pass v entry (λ w. w ≡ with_put entry v) }
{}

/// A recorder whose push is refused keeps its view, and knows that what it put is what was handed out of its worker's
/// entries and what the queue held of them.
pub fn a_recorder_is_told()
    ensures { (pass : ℕ) (v : View) → v.records ≡ true → Learns Delivers pass v (StandsIn v) }
{}

/// The reader takes an entry of a worker for which it made a recorder, whose number is the count of its worker's
/// entries that were handed out before.
pub fn a_take_keeps_the_rule()
    ensures { (pass : ℕ) (v : View) → v.reads ≡ true → v.ends ≡ false
        → Pops Delivers pass v (λ entry w. (w ≡ with_handed entry v) × IsNumberedNext v entry × IsKnown v entry) }
{}

/// A reader that finds this in the queue keeps its view, and knows of each recorder that it took in: what its worker
/// put are the worker's entries that were handed out and then those in the queue.
pub fn a_reader_is_told()
    ensures { (pass : ℕ) (v : View) → v.reads ≡ true → Learns Delivers pass v (AreSettled v) }
{}

/// The reader takes in a recorder that has ended.
pub fn a_joined_recorder_keeps_the_rule()
    ensures { (pass other : ℕ) (v w : View) → v.reads ≡ true → v.ends ≡ false → w.records ≡ true
        → Merges Delivers pass v other w (with_joined w v) ended }
{}

/// The reader takes an entry once it has taken in all recorders: what is left is known from then on.
pub fn a_take_after_the_recorders_tells_what_is_left()
    ensures { (pass : ℕ) (v : View) → v.reads ≡ true → v.ends ≡ false → AreAllJoined v
        → Pops Delivers pass v (TellsLeft v) }
{}

/// A reader that knows what is left takes the first of it.
pub fn what_is_left_comes_in_order()
    ensures { (pass : ℕ) (v : View) → v.reads ≡ true → v.ends ≡ true → Pops Delivers pass v (TakesLeft v) }
{}

/// What a reader knows to be left is what the queue holds.
pub fn what_is_left_is_told()
    ensures { (pass : ℕ) (v : View) → v.reads ≡ true → v.ends ≡ true
        → Learns Delivers pass v (λ items. v.left ≡ items) }
{}
