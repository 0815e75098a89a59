ghost use Rattle.std.specs.Prelude.{◌≡◌, ◌<◌, ◌≤◌, length, false, MatchResult, IfOk, IfErr, OnOk, OnErr};
ghost use Rattle.std.specs.Bool.{IsTrue};
ghost use mathlib.Core.List.{IsPrefix};
ghost use Rattle.state_list.specs.Opening.{book_of};
ghost use Rattle.live_roll.specs.Events.{NoneAbove, NoneBelow};
ghost use Rattle.live_roll.specs.Places.{IsVacant, count_served};
ghost use Rattle.live_roll.specs.Roll.{IsNew, left_of, with_entry, LeavesPlace, HangsTo, StopsAll};

use crate::answers::{Left, Stopped};
use crate::entries::{Entry, count_served, enter, hang_below, hang_each, leave};
use crate::events::Event;
use crate::log::{logged, tell};
use crate::seated::Seated;
use link_ports::HangEnd;
use state_list::{Book, Events, Front, Naming, Opened};
use std::alloc::{AllocError, Global};
use std::marker::Model;
use std::snapshot::Snapshot;
use std::sync::Wait;

/// How many places a roll has.
pub const MOST_SEATS: u32 = 64;

/// The connections that a commit has to hang up, a place for each seat, and the note: the commit at which a connection
/// enters now. An end that was hung up stays in its place until the next connection comes there. Each end that was not
/// entered at the note, and in a stopped roll all were.
///
/// The roll also keeps how many workers serve the connections, each in the place of a seat of its own; and what has
/// happened since it was opened, its log, of which there is one for each name `J`.
#[derive(Drop)]
pub struct Roll<H: HangEnd, J: Naming>
where
    Events<J>: Naming,
{
    workers: u32,
    note: u64,
    is_stopped: bool,
    places: Vec<Option<Entry<H>>>,
    opened: Snapshot<u64>,
    book: Book<Event, Events<J>>,
    log: Front<Event, Events<J>>,
}

impl<H: HangEnd, J: Naming> Model for Roll<H, J>
where
    Events<J>: Naming,
{
    ghost use Rattle.live_roll.specs.Roll.{RollState, IsRoll};

    ghost Value = { RollState H };

    ghost view = { λ roll. record {
      workers = roll.workers;
      note = roll.note;
      is_stopped = roll.is_stopped;
      places = roll.places.items;
      opened = roll.opened.value;
      events = roll.log;
    } };

    ghost invariant = { λ roll. IsRoll H.used (record {
      workers = roll.workers;
      note = roll.note;
      is_stopped = roll.is_stopped;
      places = roll.places.items;
      opened = roll.opened.value;
      events = roll.log;
    }) };
}

impl<H: HangEnd, J: Naming> Roll<H, J> {
    /// A roll with no connection, for so many workers, whose note is this commit. Its log is this list, which has no
    /// entries yet. Fails for want of memory alone.
    #[tactic(auto, using(crate::proofs::Keeping::first_roll))]
    pub fn new(
        alloc: Global,
        happened: Opened<Event>,
        note: u64,
        workers: u32,
    ) -> Result<Roll<H, J>, AllocError>
        requires { book_of happened ≡ J.events }
        ensures { IfOk result (IsNew note workers) }
    {
        let places = vacant_places(alloc)?;
        let (book, log) = happened.named::<Events<J>>();
        Ok(Roll {
            workers,
            note,
            is_stopped: false,
            places,
            opened: Snapshot::of(&note),
            book,
            log,
        })
    }

    /// A connection enters at the roll's note, which is told to the seat and answered. Its end stands in the seat's
    /// place; one that stood there is hung up first, and dropped. The log says that it entered, and the seat is told
    /// the log up to that, in which no connections were hung up for a later commit. Refuses exactly where the roll is
    /// stopped; the end then comes back.
    #[tactic(auto, using(crate::proofs::Following::none_above_note))]
    pub fn enter<R: Wait, S: Seated<J>>(
        &mut self,
        rt: &R,
        end: H,
        seat: &mut S,
    ) -> Result<u64, (H, Stopped)>
        ensures open { OnOk result (self.old.is_stopped ≡ false) }
        ensures refused { OnErr result (IsTrue self.old.is_stopped) }
        ensures note { IfOk result (λ note. note ≡ self.old.note) }
        ensures entered { OnOk result (self.new ≡ with_entry (S.place seat.old) end self.old) }
        ensures told { OnOk result (seat.new ≡ S.told self.old.note self.new.events seat.old) }
        ensures knew { OnOk result (IsPrefix (S.known seat.old) self.new.events) }
        ensures above { OnOk result (NoneAbove self.new.events self.old.note) }
        ensures back { IfErr result (λ refusal. refusal.0 ≡ end) }
        ensures commit { IfErr result (λ refusal. refusal.1.commit ≡ self.old.note) }
        ensures kept { OnErr result (self.new ≡ self.old) }
        ensures untold { OnErr result (seat.new ≡ seat.old) }
    {
        let note = self.note;
        if self.is_stopped {
            return Err((end, Stopped { commit: note }));
        }
        let at = seat.place() as usize;
        let entry = Entry {
            end,
            entered: note,
            has_left: false,
        };
        let log = logged(rt, &self.book, &self.log, Event::Entered(note));
        tell(rt, seat, note, &log);
        enter(&mut self.places[at], entry);
        self.log = log;
        Ok(note)
    }

    /// A connection leaves that entered at this commit in the place of this seat: what stands there is hung up. `Hung`
    /// exactly where the note has risen above the commit, else `Stopped` exactly where the roll is stopped, else
    /// `Still`.
    #[tactic(auto, using(crate::proofs::Keeping::all_set))]
    pub fn leave(&mut self, seat: u32, entered: u64) -> Left
        requires { seat < 64 }
        ensures answer { result ≡ left_of entered self.old }
        ensures left { LeavesPlace H.used seat self.old self.new }
    {
        leave(&mut self.places[seat as usize]);
        let now = self.note;
        if entered < now {
            return Left::Hung { now };
        }
        if self.is_stopped {
            return Left::Stopped { now };
        }
        Left::Still
    }

    /// Raises the note to this commit, where that is higher. Hangs up every end that entered below the note. The log
    /// then says so of this commit.
    pub fn hang_all<R: Wait>(&mut self, rt: &R, note: u64)
        ensures { HangsTo H.used note self.old self.new }
    {
        let now = self.note.max(note);
        hang_below(self.places.as_mut_slice(), now);
        let log = logged(rt, &self.book, &self.log, Event::Hung(note));
        self.note = now;
        self.log = log;
    }

    /// From now on no connection enters. Hangs up all ends.
    pub fn stop(&mut self)
        ensures { StopsAll H.used self.old self.new }
    {
        hang_each(self.places.as_mut_slice());
        self.is_stopped = true;
    }

    /// The log: what has happened since the roll was opened. Who entered behind a hang-up entered at its commit or
    /// above.
    pub fn known(&self) -> &Front<Event, Events<J>>
        ensures events { result.now ≡ self.now.events }
        ensures none_below { NoneBelow self.now.events }
    {
        &self.log
    }

    /// How many workers serve the connections.
    pub fn workers(&self) -> u32
        ensures { result ≡ self.now.workers }
    {
        self.workers
    }

    /// How many connections have entered and not left, which is how many workers serve one now.
    /// A connection that was hung up counts until it leaves.
    pub fn served(&self) -> u32
        ensures count { result ≡ count_served self.now.places }
        ensures bound { result ≤ 64 }
    {
        count_served(self.places.as_slice()) as u32
    }

    /// The commit at which a connection enters now.
    pub fn note(&self) -> u64
        ensures { result ≡ self.now.note }
    {
        self.note
    }

    /// Whether the roll was stopped.
    pub fn is_stopped(&self) -> bool
        ensures { result ≡ self.now.is_stopped }
    {
        self.is_stopped
    }
}

// 64 places in which nothing stands.
#[tactic(auto, using(crate::proofs::Keeping::vacant_push))]
fn vacant_places<H: HangEnd>(alloc: Global) -> Result<Vec<Option<Entry<H>>>, AllocError>
    ensures count { IfOk result (λ places. length places.items ≡ 64) }
    ensures vacant { IfOk result (λ places. IsVacant places.items) }
{
    let mut places = Vec::with_capacity(alloc, 64)?;
    for seat in 0..MOST_SEATS {
        let _ = seat;
        places.push(None)?;
    }
    Ok(places)
}
