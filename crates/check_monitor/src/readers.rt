ghost use Rattle.std.specs.Prelude.{◌≡◌, ◌<◌, ◌++◌, true, false, IfSome, IfNone, IfOk, OnOk};
ghost use Rattle.std.specs.Arc.{arc_value};
ghost use Rattle.crossbeam_queue.specs.Passes.{view, IsPassOf, ruled_capacity};
ghost use Rattle.monitor_rule.specs.Steps.{new_reader, AreKnown};
ghost use Rattle.check_monitor.specs.Monitor.{HandsOut, AreOf, Cover, AreWhole};
ghost use Rattle.check_monitor.specs.Monitor.{new_reader_of, new_recorder_of, with_one_recorder, with_joined_all};

use crate::alarms::Alarm;
use crate::recorders::Recorder;
use crate::rest::Settled;
use crate::running::{Joins, Line, LinePass, Makes, Takes, TakesLast};
use monitor_rule::Entry;
use std::alloc::{AllocError, Global};
use std::marker::Model;
use std::sync::{Arc, Wait};

/// What hands the entries out. Contracts see those that it handed out.
#[derive(Drop)]
pub struct Reader {
    queue: Arc<Line>,
    pass: LinePass,
    alarm: Arc<Alarm, Global>,
}

impl Model for Reader {
    ghost use Rattle.std.specs.Prelude.{◌≡◌, true, false, []};
    ghost use Rattle.std.specs.Arc.{arc_value};
    ghost use Rattle.crossbeam_queue.specs.Passes as passes;
    ghost use Rattle.monitor_rule.specs.declared.knowing.View.{View};
    ghost use Rattle.check_monitor.specs.Monitor.{ReaderState};

    ghost Value = { ReaderState };

    ghost view = { λ reader. record {
      queue = reader.pass.table_id;
      room = passes.ruled_capacity (arc_value reader.queue);
      made = (let known : View = passes.view reader.pass in known.made);
      handed = (let known : View = passes.view reader.pass in known.handed);
    } };

    ghost invariant = { λ reader. passes.IsPassOf (arc_value reader.queue) reader.pass
        × (let known : View = passes.view reader.pass in
        (known.reads ≡ true) × (known.ends ≡ false) × (known.joined ≡ [])) };
}

impl Reader {
    /// The reader of a new queue.
    pub(crate) fn of(queue: Arc<Line>, pass: LinePass, alarm: Arc<Alarm, Global>) -> Reader
        requires pass { IsPassOf (arc_value queue) pass }
        requires view { view pass ≡ new_reader }
        ensures { result ≡ new_reader_of pass.table_id (ruled_capacity (arc_value queue)) 0 }
    {
        Reader { queue, pass, alarm }
    }

    /// A further recorder, for the next worker.
    pub(crate) fn recorder(&mut self, worker: u32) -> Result<Recorder, AllocError>
        requires { worker ≡ self.old.made }
        ensures recorder { IfOk result (λ recorder. recorder ≡ new_recorder_of self.old.queue self.old.room worker) }
        ensures made { OnOk result (self.new ≡ with_one_recorder self.old) }
    {
        let queue = Arc::try_clone(&self.queue)?;
        let alarm = Arc::try_clone(&self.alarm)?;
        let pass = self.queue.another::<Makes>(&mut self.pass);
        Ok(Recorder::of(queue, pass, worker, alarm))
    }

    /// What the recorders wake the reader's thread by. Fails for want of memory alone.
    pub fn alarm(&self) -> Result<Arc<Alarm, Global>, AllocError> {
        Arc::try_clone(&self.alarm)
    }

    /// The oldest entry in the queue: of a worker that has a recorder, with the count of its worker's entries that were
    /// handed out before as its number. None only where the queue was empty at a moment of the call. Takes no memory.
    pub fn next<R: Wait>(&mut self, rt: &R) -> Option<Entry>
        ensures some { IfSome result (λ entry. HandsOut self.old entry self.new) }
        ensures known { IfSome result (λ entry. entry.worker < self.old.made) }
        ensures none { IfNone result (self.new ≡ self.old) }
    {
        self.queue.pop_as::<Takes, R>(rt, &mut self.pass)
    }

    /// Takes in the recorders, which are all those that were made with this reader. What each of them put are its
    /// worker's entries that were handed out and then those that are left; and nothing of any other worker is left.
    /// Takes no memory.
    pub fn settle<R: Wait>(self, rt: &R, recorders: Vec<Recorder>) -> Settled
        requires queue { AreOf self.queue recorders.items }
        requires all { Cover self.made recorders.items }
        ensures whole { AreWhole (self.handed ++ result) recorders.items }
        ensures known { AreKnown self.made result }
    {
        let Reader { queue, pass, alarm } = self;
        drop(alarm);
        let mut pass = joined(&queue, pass, recorders);
        match queue.pop_as::<TakesLast, R>(rt, &mut pass) {
            Some(entry) => Settled::behind(queue, pass, entry),
            None => Settled::empty(queue, pass),
        }
    }
}

// The reader's pass, once it has taken in the recorders.
fn joined(queue: &Line, pass: LinePass, recorders: Vec<Recorder>) -> LinePass
    requires pass { IsPassOf queue.now pass }
    requires reads { ((view pass).reads ≡ true) × ((view pass).ends ≡ false) }
    requires queue { AreOf pass.table_id recorders.items }
    ensures pass { IsPassOf queue.now result }
    ensures joined { view result ≡ with_joined_all recorders.items (view pass) }
{
    let mut pass = pass;
    for recorder in recorders {
        queue.absorb::<Joins>(&mut pass, recorder.into_pass());
    }
    pass
}
