// A state that the folder keeps, shown to all: the one place where a door publishes.
ghost use Rattle.std.specs.Prelude.{◌≡◌, ◌≤◌, ◌<◌, true, List, IfOk, MatchResult, OnOk};
ghost use Rattle.desk_state.specs.DeskState.{DeskState};
ghost use Rattle.live_desk.specs.History.{last_commit, Rises};
ghost use Rattle.admin_door.specs.Side.{side_of, decided_of, with_shown};
ghost use Rattle.admin_door.specs.Hanging.{HangsOn};

use desk_keeper::Keeper;
use desk_ports::Disk;
use desk_state::Desk;
use live_desk::{Event, Events, Front, Naming, Publisher, Ready};
use server_hall::Hall;
use std::alloc::AllocError;
use std::sync::Wait;

/// What publishes states of a folder over a disk of this type. What is bound by this alone can publish no state but the
/// one that is known to be kept, whether or not it returns.
pub trait KeptPublisher<D: Disk, J: Naming> {
    /// All states that were published.
    ghost states: { Self → List DeskState };

    /// The commit of the last state that was published.
    fn commit(&self) -> u64
        ensures commit { result ≡ last_commit 0 (states self.now) }
        ensures rising { Rises (states self.now) };

    /// The state, made ready to be published. Takes all memory that publishing needs.
    fn prepare(&mut self, desk: &Desk) -> Result<Ready, AllocError>
        ensures ready { IfOk result (λ ready. ready ≡ desk.now) }
        ensures kept { states self.new ≡ states self.old };

    /// Publishes the state that the folder keeps, and then hangs up all connections that entered before it. Where
    /// memory is wanting, nothing is done.
    fn show<R: Wait, A: Hall<List = J>>(
        &mut self,
        rt: &R,
        keeper: &Keeper<'_, D>,
        hall: &mut A,
        hangs: &mut Front<Event, Events<J>>,
        ready: Ready,
    ) -> Result<(), AllocError>
        requires decided { decided_of keeper.now ≡ true }
        requires ready { ready ≡ keeper.now.desk }
        requires newer { last_commit 0 (states self.old) < keeper.now.desk.commit }
        ensures shown { MatchResult result
            (λ _. side_of D.faults keeper.now (states self.new) (A.tally hall.new) (A.calls hall.new)
            ≡ with_shown keeper.now.desk (side_of D.faults keeper.now (states self.old) (A.tally hall.old)
            (A.calls hall.old)))
            (λ _. side_of D.faults keeper.now (states self.new) (A.tally hall.new) (A.calls hall.new)
            ≡ side_of D.faults keeper.now (states self.old) (A.tally hall.old) (A.calls hall.old)) }
        ensures even { OnOk result (last_commit 0 (states self.new) ≡ keeper.now.desk.commit) }
        ensures behind { last_commit 0 (states self.new) ≤ keeper.now.desk.commit }
        ensures hangs { HangsOn (states self.old) (states self.new) hangs.old hangs.new };
}

impl<D: Disk, J: Naming> KeptPublisher<D, J> for Publisher<J> {
    ghost states = { λ publisher. publisher };

    fn commit(&self) -> u64 {
        self.commit()
    }

    fn prepare(&mut self, desk: &Desk) -> Result<Ready, AllocError> {
        self.prepare(desk)
    }

    fn show<R: Wait, A: Hall<List = J>>(
        &mut self,
        rt: &R,
        keeper: &Keeper<'_, D>,
        hall: &mut A,
        hangs: &mut Front<Event, Events<J>>,
        ready: Ready,
    ) -> Result<(), AllocError> {
        show(rt, keeper, self, hall, hangs, ready)
    }
}

// The same, by the publisher of the states.
fn show<R: Wait, D: Disk, J: Naming, A: Hall<List = J>>(
    rt: &R,
    keeper: &Keeper<'_, D>,
    publisher: &mut Publisher<J>,
    hall: &mut A,
    hangs: &mut Front<Event, Events<J>>,
    ready: Ready,
) -> Result<(), AllocError>
    requires decided { decided_of keeper.now ≡ true }
    requires ready { ready ≡ keeper.now.desk }
    requires newer { last_commit 0 publisher.old < keeper.now.desk.commit }
    ensures shown { MatchResult result
        (λ _. side_of D.faults keeper.now publisher.new (A.tally hall.new) (A.calls hall.new)
        ≡ with_shown keeper.now.desk (side_of D.faults keeper.now publisher.old (A.tally hall.old) (A.calls hall.old)))
        (λ _. side_of D.faults keeper.now publisher.new (A.tally hall.new) (A.calls hall.new)
        ≡ side_of D.faults keeper.now publisher.old (A.tally hall.old) (A.calls hall.old)) }
    ensures even { OnOk result (last_commit 0 publisher.new ≡ keeper.now.desk.commit) }
    ensures behind { last_commit 0 publisher.new ≤ keeper.now.desk.commit }
    ensures hangs { HangsOn publisher.old publisher.new hangs.old hangs.new }
{
    match publisher.publish(rt, ready) {
        Ok(_) => {
            hall.hang(publisher, hangs);
            Ok(())
        }
        Err(error) => Err(error),
    }
}
