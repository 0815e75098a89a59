// What an earlier command left undone: a folder of which it is not known what it keeps, and a state that is not
// published.
ghost use Rattle.std.specs.Prelude.{◌≡◌, ◌≤◌, true, false, List, Option, MatchResult, IfErr, OnOk, OnErr};
ghost use Rattle.desk_state.specs.DeskState.{DeskState};
ghost use Rattle.desk_ports.specs.Disk.{WhereTold};
ghost use Rattle.desk_ports.specs.Moments.{LeavesOnly};
ghost use Rattle.guard_files.specs.Telling.{StillTells};
ghost use Rattle.desk_keeper.specs.Keeper.{disk_of, held_of, IsSameDisk};
ghost use Rattle.desk_keeper.specs.Keeping.{EndsKept};
ghost use Rattle.admin_door.specs.Stops.{KeepsKnown, StandsAsAt, Allows};
ghost use Rattle.live_desk.specs.History.{last_commit};
ghost use Rattle.server_hall.specs.Tally.{Tally};
ghost use Rattle.server_hall.specs.declared.calls.HallCall.{HallCall};
ghost use Rattle.admin_door.specs.Side.{side_of, decided_of};
ghost use Rattle.admin_door.specs.Hanging.{HangsOn};
ghost use Rattle.admin_door.specs.Settling.{IsFound, Settles, Unsettles, LacksMemoryAlone, IsStillDamaged};
ghost use Rattle.admin_door.specs.Settling.{with_last_shown};

use crate::publishing::KeptPublisher;
use desk_keeper::{Keeper, KeeperRefusal};
use desk_ports::Disk;
use live_desk::{Event, Events, Front, Naming};
use server_hall::Hall;
use std::alloc::AllocError;
use std::sync::Wait;

/// Remounts a keeper that is undecided; and publishes its state, and hangs up all older connections, where its commit
/// is above that of the publisher. It may wait. Refuses `StoreFault`, where a call of the disk failed; `Damaged`, where
/// the folder stands for no policy state, or for an older one; and `Memory`.
#[tactic(auto, using(crate::proofs::Hanging::hangs_none))]
pub(crate) fn settle<R: Wait, D: Disk, J: Naming, A: Hall<List = J>, P: KeptPublisher<D, J>>(
    rt: &R,
    keeper: &mut Keeper<'_, D>,
    publisher: &mut P,
    hall: &mut A,
    hangs: &mut Front<Event, Events<J>>,
) -> Result<(), KeeperRefusal>
    requires { last_commit 0 (P.states publisher.old) ≤ keeper.old.desk.commit }
    ensures settled { MatchResult result
        (λ _. Settles (D.state (disk_of keeper.old))
        (side_of D.faults keeper.old (P.states publisher.old) (A.tally hall.old) (A.calls hall.old))
        (side_of D.faults keeper.new (P.states publisher.new) (A.tally hall.new) (A.calls hall.new)))
        (Unsettles (D.state (disk_of keeper.old))
        (side_of D.faults keeper.old (P.states publisher.old) (A.tally hall.old) (A.calls hall.old))
        (side_of D.faults keeper.new (P.states publisher.new) (A.tally hall.new) (A.calls hall.new))) }
    ensures stops { WhereTold (D.state (disk_of keeper.old)) (λ before.
        LeavesOnly D.moment D.left_since (disk_of keeper.old) (disk_of keeper.new) (StandsAsAt before)) }
    ensures kept { WhereTold (D.state (disk_of keeper.old)) (λ before.
        KeepsKnown (decided_of keeper.old) keeper.old.desk (held_of keeper.old) before → decided_of keeper.new ≡ true
        → EndsKept keeper.new.desk (held_of keeper.new) (D.state (disk_of keeper.new))
        × Allows before keeper.new.desk) }
    ensures tells { StillTells (D.state (disk_of keeper.old)) (D.state (disk_of keeper.new)) }
    ensures damaged { IfErr result (λ reason. WhereTold (D.state (disk_of keeper.old)) (λ before.
        IsStillDamaged keeper.old.desk (D.state (disk_of keeper.new)) reason)) }
    ensures decided { OnOk result (decided_of keeper.new ≡ true) }
    ensures even { OnOk result (last_commit 0 (P.states publisher.new) ≡ keeper.new.desk.commit) }
    ensures behind { OnErr result (last_commit 0 (P.states publisher.new) ≤ keeper.new.desk.commit) }
    ensures hangs { HangsOn (P.states publisher.old) (P.states publisher.new) hangs.old hangs.new }
    ensures same_disk { IsSameDisk keeper.old keeper.new }
{
    if keeper.is_decided() {
        return publish_kept(rt, keeper, publisher, hall, hangs);
    }
    match remount(keeper) {
        Ok(()) => publish_kept(rt, keeper, publisher, hall, hangs),
        Err(reason) => Err(reason),
    }
}

// Settles what the folder keeps.
fn remount<D: Disk>(keeper: &mut Keeper<'_, D>) -> Result<(), KeeperRefusal>
    requires { decided_of keeper.old ≡ false }
    ensures remounted { (published : List DeskState) (tally : Tally) (calls : Option (List HallCall))
        → MatchResult result
        (λ _. IsFound (D.state (disk_of keeper.old))
        (side_of D.faults keeper.old published tally calls) (side_of D.faults keeper.new published tally calls))
        (Unsettles (D.state (disk_of keeper.old))
        (side_of D.faults keeper.old published tally calls) (side_of D.faults keeper.new published tally calls)) }
    ensures stops { WhereTold (D.state (disk_of keeper.old)) (λ before.
        LeavesOnly D.moment D.left_since (disk_of keeper.old) (disk_of keeper.new) (StandsAsAt before)) }
    ensures kept { WhereTold (D.state (disk_of keeper.old)) (λ before. decided_of keeper.new ≡ true
        → EndsKept keeper.new.desk (held_of keeper.new) (D.state (disk_of keeper.new))
        × Allows before keeper.new.desk) }
    ensures tells { StillTells (D.state (disk_of keeper.old)) (D.state (disk_of keeper.new)) }
    ensures damaged { IfErr result (λ reason. WhereTold (D.state (disk_of keeper.old)) (λ before.
        IsStillDamaged keeper.old.desk (D.state (disk_of keeper.new)) reason)) }
    ensures decided { OnOk result (decided_of keeper.new ≡ true) }
    ensures no_older { keeper.old.desk.commit ≤ keeper.new.desk.commit }
    ensures same_disk { IsSameDisk keeper.old keeper.new }
{
    match keeper.remount() {
        Ok(()) => Ok(()),
        // proof: handed on by value, it is not gone through variant by variant here.
        Err(KeeperRefusal::StoreFault) => Err(KeeperRefusal::StoreFault),
        Err(KeeperRefusal::Damaged { file, line }) => Err(KeeperRefusal::Damaged { file, line }),
        Err(KeeperRefusal::Memory(error)) => Err(KeeperRefusal::Memory(error)),
    }
}

// Shows the state that the folder keeps to all, where it is newer than what was published.
#[tactic(auto, using(crate::proofs::Hanging::hangs_none, crate::proofs::Hanging::hangs_same, crate::proofs::Hanging::hangs_from))]
fn publish_kept<R: Wait, D: Disk, J: Naming, A: Hall<List = J>, P: KeptPublisher<D, J>>(
    rt: &R,
    keeper: &Keeper<'_, D>,
    publisher: &mut P,
    hall: &mut A,
    hangs: &mut Front<Event, Events<J>>,
) -> Result<(), KeeperRefusal>
    requires decided { decided_of keeper.now ≡ true }
    requires behind { last_commit 0 (P.states publisher.old) ≤ keeper.now.desk.commit }
    ensures shown { MatchResult result
        (λ _. side_of D.faults keeper.now (P.states publisher.new) (A.tally hall.new) (A.calls hall.new)
        ≡ with_last_shown (side_of D.faults keeper.now (P.states publisher.old) (A.tally hall.old) (A.calls hall.old)))
        (λ reason. LacksMemoryAlone reason
        × (side_of D.faults keeper.now (P.states publisher.new) (A.tally hall.new) (A.calls hall.new)
        ≡ side_of D.faults keeper.now (P.states publisher.old) (A.tally hall.old) (A.calls hall.old))) }
    ensures even { OnOk result (last_commit 0 (P.states publisher.new) ≡ keeper.now.desk.commit) }
    ensures behind { last_commit 0 (P.states publisher.new) ≤ keeper.now.desk.commit }
    ensures hangs { HangsOn (P.states publisher.old) (P.states publisher.new) hangs.old hangs.new }
{
    if publisher.commit() >= keeper.desk().commit() {
        return Ok(());
    }
    let Ok(ready) = publisher.prepare(keeper.desk()) else {
        return Err(KeeperRefusal::Memory(AllocError));
    };
    match publisher.show(rt, keeper, hall, hangs, ready) {
        Ok(()) => Ok(()),
        Err(error) => Err(KeeperRefusal::Memory(error)),
    }
}
