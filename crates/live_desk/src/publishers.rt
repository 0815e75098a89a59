ghost use Rattle.std.specs.Prelude.{◌≡◌, ◌<◌, ◌≤◌, ◌++◌, ◌∷◌, [], List, drop, fold, Some, IfOk, OnOk, OnErr};
ghost use Rattle.std.specs.Arc.{arc_value};
ghost use Rattle.std.specs.Bool.{OnTrue};
ghost use Rattle.state_list.specs.Opening.{book_of};
ghost use Rattle.live_desk.specs.History.{GoesOn, Rises, last_commit};
ghost use Rattle.live_desk.specs.Shown.{ShownState};

use crate::copies::{DeskCopy, Published, Shown};
use crate::running::{Running, Steps};
use crate::seats::{Seat, SeatReader};
use core::mem::replace_with;
use crossbeam_utils::rule::Protocol;
use desk_state::Desk;
use left_right::Absorb;
use left_right::writer::Writer;
use state_list::{Book, Front, Naming, Opened};
use std::alloc::{AllocError, Global};
use std::marker::Model;
use std::sync::{Arc, Wait};

pub type DeskWriter<J> = Writer<Published<J>, Shown<J>, u64, Running>;

/// A state that is ready to be published. Where it is dropped, nothing was published.
#[derive(Drop)]
pub struct Ready {
    copy: Arc<DeskCopy>,
    // The same copy for its second owner, the publisher: of it the next one is made.
    kept: Arc<DeskCopy>,
}

impl Model for Ready {
    ghost use Rattle.std.specs.Arc.{arc_value};
    ghost use Rattle.desk_state.specs.DeskState.{DeskState};

    ghost Value = { DeskState };

    ghost view = { λ ready. arc_value ready.copy };
}

impl Ready {
    /// This state, with all that answers its checks.
    pub(crate) fn of(alloc: Global, desk: &Desk) -> Result<Ready, AllocError>
        ensures { IfOk result (λ ready. ready ≡ desk.now) }
    {
        let copy = DeskCopy::of(alloc, desk)?;
        Ready::of_copy(alloc, copy)
    }

    // The state of this copy.
    fn of_copy(alloc: Global, copy: DeskCopy) -> Result<Ready, AllocError>
        ensures { IfOk result (λ ready. ready ≡ copy) }
    {
        let copy = Arc::new(alloc, copy)?;
        let kept = Arc::try_clone(&copy)?;
        Ok(Ready { copy, kept })
    }

    /// The commit of the state.
    pub fn commit(&self) -> u64
        ensures { result ≡ self.now.commit }
    {
        self.copy.commit()
    }
}

/// What publishes states. Contracts see it as the list of all that were published, whose commits rise. It can't be
/// dropped: end it by `end`.
pub struct Publisher<J: Naming>
where
    Published<J>: Absorb<Shown<J>, State = Option<Shown<J>>>,
    Running: Protocol<Published<J>, u64>,
{
    alloc: Global,
    writer: DeskWriter<J>,
    book: Book<Desk, J>,
    front: Front<Desk, J>,
    commit: u64,
    // The last copy that was published. The next one takes over what stays of it.
    last: Arc<DeskCopy>,
}

impl<J: Naming> Model for Publisher<J>
where
    Published<J>: Absorb<Shown<J>, State = Option<Shown<J>>>,
    Running: Protocol<Published<J>, u64>,
{
    ghost use Rattle.std.specs.Prelude.{◌≡◌, List};
    ghost use Rattle.desk_state.specs.DeskState.{DeskState};
    ghost use Rattle.live_desk.specs.History.{Rises, last_commit};
    ghost use Rattle.live_desk.specs.Copies.{ShowsAll};

    ghost Value = { List DeskState };

    ghost view = { λ publisher. publisher.front };

    ghost invariant = { λ publisher. Rises publisher.front
        × (last_commit 0 publisher.front ≡ publisher.commit)
        × ShowsAll publisher.front publisher.writer.desk.shown.value };
}

impl<J: Naming> Publisher<J> {
    /// A publisher that has published this state alone, with room for so many seats, and what a seat knows that has
    /// seen nothing.
    #[tactic(auto, using(crate::proofs::Looks::shown_first, crate::proofs::Looks::last_first))]
    pub(crate) fn open<R: Wait>(
        rt: &R,
        alloc: Global,
        opened: Opened<Desk>,
        first: Ready,
        seats: usize,
    ) -> Result<(Publisher<J>, Front<Desk, J>), AllocError>
        requires seats { (0 < seats) × (seats ≤ 64) }
        requires list { book_of opened ≡ J.book }
        ensures published { IfOk result (λ started. started.0 ≡ first ∷ []) }
        ensures unseen { IfOk result (λ started. started.1 ≡ []) }
    {
        let (book, unseen) = opened.named::<J>();
        let commit = first.commit();
        let Ready { copy, kept } = first;
        let Some(front) = book.put_behind(&unseen, copy.state()) else {
            return Err(AllocError);
        };
        let mut writer = blank(alloc, seats)?;
        // This takes memory for four operations. There are never more than two.
        if let Err(shown) = writer.append(Shown::of(copy, front.again())) {
            drop(shown);
            drop(writer.take(rt));
            return Err(AllocError);
        }
        let writer = show_all(writer, rt);
        let publisher = Publisher {
            alloc,
            writer,
            book,
            front,
            commit,
            last: kept,
        };
        Ok((publisher, unseen))
    }

    /// The state, made ready to be published. Changes nothing that a seat sees. Takes all memory that publishing needs.
    /// Takes over what stays of the last state that was published.
    pub fn prepare(&mut self, desk: &Desk) -> Result<Ready, AllocError>
        ensures ready { IfOk result (λ ready. ready ≡ desk.now) }
        ensures kept { self.new ≡ self.old }
    {
        let copy = self.last.next(self.alloc, desk)?;
        Ready::of_copy(self.alloc, copy)
    }

    /// Shows the state to the seats, and answers its commit, which is above the last one. Waits for those that still
    /// read the copy from before. Fails where 2^62 states were published, and then nothing is.
    #[tactic(auto, using(crate::proofs::Looks::shown_behind, crate::proofs::Looks::last_behind))]
    pub fn publish<R: Wait>(&mut self, rt: &R, ready: Ready) -> Result<u64, AllocError>
        requires { last_commit 0 self.old < ready.commit }
        ensures published { OnOk result (self.new ≡ self.old ++ ready ∷ []) }
        ensures commit { IfOk result (λ commit. commit ≡ ready.commit) }
        ensures kept { OnErr result (self.new ≡ self.old) }
    {
        let commit = ready.commit();
        let Ready { copy, kept } = ready;
        let Some(front) = self.book.put_behind(&self.front, copy.state()) else {
            return Err(AllocError);
        };
        let shown = Shown::of(copy, front.again());
        replace_with(
            &mut self.writer,
            shown,
            |writer, shown| put(writer, rt, shown),
        );
        self.front = front;
        self.commit = commit;
        self.last = kept;
        Ok(commit)
    }

    /// The commit of the last state that was published.
    pub fn commit(&self) -> u64
        ensures commit { result ≡ last_commit 0 self.now }
        ensures rising { Rises self.now }
    {
        self.commit
    }

    /// Whether as many states were published as the seat has seen, which then are the first of those.
    #[tactic(auto, using(crate::proofs::Looks::goes_on_prefix))]
    pub fn covers(&self, seat: &Seat<J>) -> bool
        ensures { OnTrue result (GoesOn seat.now.seen self.now) }
    {
        self.front.covers(seat.front())
    }

    /// A further reader. Where it finds each place in use it asks again.
    pub(crate) fn reader<R: Wait>(&self, rt: &R) -> SeatReader<J> {
        for _ in rt.forever() {
            if let Ok(reader) = self.writer.factory().reader() {
                return reader;
            }
        }
        unreachable!()
    }

    /// Ends the publishing: waits for the seats that read just now. A check after that never returns.
    pub fn end<R: Wait>(self, rt: &R) {
        let Publisher {
            alloc: _,
            writer,
            book: _book,
            front: _front,
            commit: _,
            last: _last,
        } = self;
        drop(writer.take(rt));
    }
}

// A writer whose copies have shown nothing yet.
fn blank<J: Naming>(alloc: Global, seats: usize) -> Result<DeskWriter<J>, AllocError>
    requires { (0 < seats) × (seats ≤ 64) }
    ensures { IfOk result (λ writer. drop writer.behind writer.log.items ≡ []) }
{
    Writer::new(
        alloc,
        Published { latest: None },
        Published { latest: None },
        seats,
    )
}

// Shows this to the seats. The state stands in the list by now, so this may not fail. Memory is there.
fn put<J: Naming, R: Wait>(writer: DeskWriter<J>, rt: &R, shown: Shown<J>) -> (DeskWriter<J>, ())
    ensures { result.0.desk.shown.value.latest ≡ Some shown }
{
    (show_all(queue(writer, rt, shown), rt), ())
}

// Puts it behind the operations. There is room for it since the writer was opened; where there is not, it is tried
// again.
fn queue<J: Naming, R: Wait>(writer: DeskWriter<J>, rt: &R, shown: Shown<J>) -> DeskWriter<J>
    ensures { (more : List ShownState) × (drop result.behind result.log.items ≡ more ++ shown ∷ []) }
{
    let mut writer = writer;
    let mut shown = shown;
    for _ in rt.forever() {
        match writer.append(shown) {
            Ok(()) => return writer,
            Err(back) => shown = back,
        }
    }
    unreachable!()
}

// Shows all operations to the seats. It fails where there are more owners of a copy than can be counted; then it is
// tried again.
fn show_all<J: Naming, R: Wait>(writer: DeskWriter<J>, rt: &R) -> DeskWriter<J>
    ensures { result.desk.shown.value.latest
        ≡ fold (λ _ next. Some next) writer.desk.shown.value.latest (drop writer.behind writer.log.items) }
{
    let mut writer = writer;
    for _ in rt.forever() {
        match writer.publish_as::<Steps, R>(rt) {
            (shown, Ok(())) => return shown,
            (back, Err(_)) => writer = back,
        }
    }
    unreachable!()
}
