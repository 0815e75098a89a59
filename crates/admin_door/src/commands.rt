// Messages of an administrator: commands, and what else may be asked.
ghost use Rattle.std.specs.Prelude.{◌≡◌, ◌≤◌, ◌<◌, ◌∷◌, [], true, List, Some, IfOk, MatchResult, IsSome};
ghost use Rattle.guard_files.specs.Settled.{gone_names};
ghost use Rattle.guard_files.specs.Telling.{StillTells};
ghost use Rattle.desk_state.specs.DeskState.{DeskState};
ghost use Rattle.desk_ports.specs.Disk.{WhereTold};
ghost use Rattle.desk_ports.specs.Moments.{LeavesOnly};
ghost use Rattle.desk_keeper.specs.Keeper.{disk_of, held_of, IsSameDisk};
ghost use Rattle.desk_keeper.specs.Keeping.{IsKept, EndsKept, IsBeforeOrAfter};
ghost use Rattle.admin_door.specs.Adding.{AddsAtMost, Acknowledges};
ghost use Rattle.admin_door.specs.Stops.{KeepsKnown, StandsBy, IsBeforeOrApplied};
ghost use Rattle.live_desk.specs.History.{last_commit};
ghost use Rattle.wire_fields.specs.Operation.{number_of, operation_of};
ghost use Rattle.wire_fields.specs.Message.{operation};
ghost use Rattle.wire_messages.specs.Commands as words;
ghost use Rattle.wire_messages.specs.Commands.{IsByRule};
ghost use Rattle.server_hall.specs.Tally.{after_stop};
ghost use Rattle.wire_fields.specs.declared.operations.Heard.TheVariants.{AtAdmin};
ghost use Rattle.door_frames.specs.declared.endings.Ended.TheVariants.{Memory};
ghost use Rattle.admin_door.specs.Side.{side_of, decided_of};
ghost use Rattle.admin_door.specs.Hanging.{HangsOn};
ghost use Rattle.admin_door.specs.Settling.{IsHungFor, TellsDamage};
ghost use Rattle.admin_door.specs.Answering.{Answers, Refuses, AnswersQuestion, Obeys, IsUnanswered, Commits};
ghost use Rattle.admin_door.specs.Answering.{LacksMemory, AnswersUnsettled};
ghost use Rattle.admin_door.specs.Service.{TellsService};
ghost use Rattle.admin_door.specs.parts.Asking.{IsNoCommand};
ghost use Rattle.admin_door.specs.parts.Showing.{Shows, IsUnshown};

use crate::publishing::KeptPublisher;
use crate::questions::{check_replies, list_replies, one};
use crate::services::service_replies;
use crate::settling::settle;
use crate::states::state_replies;
use desk_keeper::{Keeper, KeeperRefusal, PreparedCommit};
use desk_ports::Disk;
use desk_state::{Command, Refusal};
use door_frames::Ended;
use live_desk::{Event, Events, Front, Naming};
use server_hall::Hall;
use std::alloc::Global;
use std::sync::Wait;
use wire_messages::{Message, command_of};

/// Answers one message of an administrator. A command is answered once what an earlier one left undone is settled: as
/// done, once its state is durable and published and all older connections are hung up; by the first rule that it
/// breaks; or by what the store met. A question is answered at the last state that is known to be kept, and `Stop`
/// stops the hall. It may wait.
pub fn answer_command<R: Wait, D: Disk, J: Naming, A: Hall<List = J>, P: KeptPublisher<D, J>>(
    rt: &R,
    alloc: Global,
    keeper: &mut Keeper<'_, D>,
    publisher: &mut P,
    hall: &mut A,
    hangs: &mut Front<Event, Events<J>>,
    message: &Message,
) -> Result<Vec<Message>, Ended>
    requires known { operation_of AtAdmin (number_of (operation message.now)) ≡ Some (operation message.now) }
    requires behind { last_commit 0 (P.states publisher.old) ≤ keeper.old.desk.commit }
    ensures answered { MatchResult result
        (λ replies. Answers (D.state (disk_of keeper.old)) message.now
        (side_of D.faults keeper.old (P.states publisher.old) (A.tally hall.old) (A.calls hall.old))
        (side_of D.faults keeper.new (P.states publisher.new) (A.tally hall.new) (A.calls hall.new)) replies.items)
        (Refuses (D.state (disk_of keeper.old)) message.now
        (side_of D.faults keeper.old (P.states publisher.old) (A.tally hall.old) (A.calls hall.old))
        (side_of D.faults keeper.new (P.states publisher.new) (A.tally hall.new) (A.calls hall.new))) }
    ensures adds { AddsAtMost 2
        (side_of D.faults keeper.old (P.states publisher.old) (A.tally hall.old) (A.calls hall.old))
        (side_of D.faults keeper.new (P.states publisher.new) (A.tally hall.new) (A.calls hall.new)) }
    ensures acknowledged { IfOk result (λ replies. Acknowledges message.now
        (side_of D.faults keeper.new (P.states publisher.new) (A.tally hall.new)
        (A.calls hall.new)) hangs.new replies.items) }
    ensures service { IfOk result (λ replies. TellsService message.now (A.told hall.old) replies.items) }

    // What a stop at any moment of the call may leave in the folder, and what the folder keeps behind the call.
    ensures stops { WhereTold (D.state (disk_of keeper.old)) (λ before.
        KeepsKnown (decided_of keeper.old) keeper.old.desk (held_of keeper.old) before
        → LeavesOnly D.moment D.left_since (disk_of keeper.old) (disk_of keeper.new)
        (StandsBy (words.command_of message.now) before)) }
    ensures kept { WhereTold (D.state (disk_of keeper.old)) (λ before.
        KeepsKnown (decided_of keeper.old) keeper.old.desk (held_of keeper.old) before
        → decided_of keeper.new ≡ true → EndsKept keeper.new.desk (held_of keeper.new) (D.state (disk_of keeper.new))) }
    ensures tells { StillTells (D.state (disk_of keeper.old)) (D.state (disk_of keeper.new)) }
    ensures damaged { IfOk result
        (λ replies. IsSome (words.command_of message.now) → WhereTold (D.state (disk_of keeper.old)) (λ before.
        TellsDamage keeper.old.desk (D.state (disk_of keeper.new)) replies.items)) }
    ensures behind { last_commit 0 (P.states publisher.new) ≤ keeper.new.desk.commit }
    ensures hangs { HangsOn (P.states publisher.old) (P.states publisher.new) hangs.old hangs.new }
    ensures same_disk { IsSameDisk keeper.old keeper.new }
{
    // proof: both outcomes are named, so that what follows of each is told at the end.
    match answer(rt, alloc, keeper, publisher, hall, hangs, message) {
        Ok(replies) => Ok(replies),
        Err(ended) => Err(ended),
    }
}

// The same. What follows of it on what was published is told by its caller.
#[tactic(auto, using(crate::proofs::Hanging::hangs_none))]
fn answer<R: Wait, D: Disk, J: Naming, A: Hall<List = J>, P: KeptPublisher<D, J>>(
    rt: &R,
    alloc: Global,
    keeper: &mut Keeper<'_, D>,
    publisher: &mut P,
    hall: &mut A,
    hangs: &mut Front<Event, Events<J>>,
    message: &Message,
) -> Result<Vec<Message>, Ended>
    requires known { operation_of AtAdmin (number_of (operation message.now)) ≡ Some (operation message.now) }
    requires behind { last_commit 0 (P.states publisher.old) ≤ keeper.old.desk.commit }
    ensures answered { MatchResult result
        (λ replies. Answers (D.state (disk_of keeper.old)) message.now
        (side_of D.faults keeper.old (P.states publisher.old) (A.tally hall.old) (A.calls hall.old))
        (side_of D.faults keeper.new (P.states publisher.new) (A.tally hall.new) (A.calls hall.new)) replies.items)
        (Refuses (D.state (disk_of keeper.old)) message.now
        (side_of D.faults keeper.old (P.states publisher.old) (A.tally hall.old) (A.calls hall.old))
        (side_of D.faults keeper.new (P.states publisher.new) (A.tally hall.new) (A.calls hall.new))) }
    ensures service { IfOk result (λ replies. TellsService message.now (A.told hall.old) replies.items) }
    ensures stops { WhereTold (D.state (disk_of keeper.old)) (λ before.
        KeepsKnown (decided_of keeper.old) keeper.old.desk (held_of keeper.old) before
        → LeavesOnly D.moment D.left_since (disk_of keeper.old) (disk_of keeper.new)
        (StandsBy (words.command_of message.now) before)) }
    ensures kept { WhereTold (D.state (disk_of keeper.old)) (λ before.
        KeepsKnown (decided_of keeper.old) keeper.old.desk (held_of keeper.old) before
        → decided_of keeper.new ≡ true → EndsKept keeper.new.desk (held_of keeper.new) (D.state (disk_of keeper.new))) }
    ensures tells { StillTells (D.state (disk_of keeper.old)) (D.state (disk_of keeper.new)) }
    ensures damaged { IfOk result
        (λ replies. IsSome (words.command_of message.now) → WhereTold (D.state (disk_of keeper.old)) (λ before.
        TellsDamage keeper.old.desk (D.state (disk_of keeper.new)) replies.items)) }
    ensures behind { last_commit 0 (P.states publisher.new) ≤ keeper.new.desk.commit }
    ensures hangs { HangsOn (P.states publisher.old) (P.states publisher.new) hangs.old hangs.new }
    ensures same_disk { IsSameDisk keeper.old keeper.new }
{
    match command_of(message) {
        Ok(Some(command)) => obey(rt, alloc, keeper, publisher, hall, hangs, &command),
        Ok(None) => answer_question(alloc, keeper, hall, message),
        Err(_) => Err(Ended::Memory),
    }
}

// Answers what is no command.
fn answer_question<D: Disk, A: Hall>(
    alloc: Global,
    keeper: &Keeper<'_, D>,
    hall: &mut A,
    message: &Message,
) -> Result<Vec<Message>, Ended>
    requires { IsNoCommand message.now }
    ensures answered { (published : List DeskState) → MatchResult result
        (λ replies. AnswersQuestion message.now
        (side_of D.faults keeper.now published (A.tally hall.old) (A.calls hall.old))
        (side_of D.faults keeper.now published (A.tally hall.new) (A.calls hall.new)) replies.items)
        (λ ended. (ended ≡ Memory) × (side_of D.faults keeper.now published (A.tally hall.new) (A.calls hall.new)
        ≡ side_of D.faults keeper.now published (A.tally hall.old) (A.calls hall.old))) }
    ensures service { IfOk result (λ replies. TellsService message.now (A.told hall.old) replies.items) }
{
    match message {
        Message::Listing { bucket, filter } => list_replies(alloc, keeper.desk(), bucket, filter),
        Message::AdminCheck {
            bucket,
            recursive,
            question,
        } => check_replies(alloc, keeper.desk(), bucket, *recursive, question),
        Message::ReadState => state_replies(alloc, keeper.desk()),
        Message::ReadService => service_replies(alloc, hall),
        Message::Stop => stop(alloc, keeper.desk().commit(), hall),
        _ => unreachable!(),
    }
}

// Stops the hall. The reply tells this commit.
fn stop<A: Hall>(alloc: Global, commit: u64, hall: &mut A) -> Result<Vec<Message>, Ended>
    ensures stopped { MatchResult result
        (λ replies. (replies.items ≡ Message.Done commit 0 ∷ []) × (A.tally hall.new ≡ after_stop (A.tally hall.old)))
        (λ ended. (ended ≡ Memory) × (A.tally hall.new ≡ A.tally hall.old)) }
    ensures calls { A.calls hall.new ≡ A.calls hall.old }
{
    match one(alloc, Message::Done { commit, erased: 0 }) {
        Ok(replies) => {
            hall.stop();
            Ok(replies)
        }
        Err(ended) => Err(ended),
    }
}

// Settles what is left undone, and then does what the command says.
#[tactic(auto, using(crate::proofs::Hanging::hangs_then))]
fn obey<R: Wait, D: Disk, J: Naming, A: Hall<List = J>, P: KeptPublisher<D, J>>(
    rt: &R,
    alloc: Global,
    keeper: &mut Keeper<'_, D>,
    publisher: &mut P,
    hall: &mut A,
    hangs: &mut Front<Event, Events<J>>,
    command: &Command,
) -> Result<Vec<Message>, Ended>
    requires { last_commit 0 (P.states publisher.old) ≤ keeper.old.desk.commit }
    ensures obeyed { MatchResult result
        (λ replies. Obeys (D.state (disk_of keeper.old)) command.now
        (side_of D.faults keeper.old (P.states publisher.old) (A.tally hall.old) (A.calls hall.old))
        (side_of D.faults keeper.new (P.states publisher.new) (A.tally hall.new) (A.calls hall.new)) replies.items)
        (λ ended. (ended ≡ Memory) × IsUnanswered (D.state (disk_of keeper.old)) command.now
        (side_of D.faults keeper.old (P.states publisher.old) (A.tally hall.old) (A.calls hall.old))
        (side_of D.faults keeper.new (P.states publisher.new) (A.tally hall.new) (A.calls hall.new))) }
    ensures stops { WhereTold (D.state (disk_of keeper.old)) (λ before.
        KeepsKnown (decided_of keeper.old) keeper.old.desk (held_of keeper.old) before
        → LeavesOnly D.moment D.left_since (disk_of keeper.old) (disk_of keeper.new)
        (StandsBy (Some command.now) before)) }
    ensures kept { WhereTold (D.state (disk_of keeper.old)) (λ before.
        KeepsKnown (decided_of keeper.old) keeper.old.desk (held_of keeper.old) before
        → decided_of keeper.new ≡ true → EndsKept keeper.new.desk (held_of keeper.new) (D.state (disk_of keeper.new))) }
    ensures tells { StillTells (D.state (disk_of keeper.old)) (D.state (disk_of keeper.new)) }
    ensures damaged { IfOk result (λ replies. WhereTold (D.state (disk_of keeper.old)) (λ before.
        TellsDamage keeper.old.desk (D.state (disk_of keeper.new)) replies.items)) }
    ensures behind { last_commit 0 (P.states publisher.new) ≤ keeper.new.desk.commit }
    ensures hangs { HangsOn (P.states publisher.old) (P.states publisher.new) hangs.old hangs.new }
    ensures same_disk { IsSameDisk keeper.old keeper.new }
{
    let shown = publisher.commit();
    match settle(rt, keeper, publisher, hall, hangs) {
        Ok(()) => commit(rt, alloc, keeper, publisher, hall, hangs, command, shown),
        Err(reason) => tell_unsettled(alloc, reason),
    }
}

// What a command is answered that could not be settled.
fn tell_unsettled(alloc: Global, reason: KeeperRefusal) -> Result<Vec<Message>, Ended>
    ensures { MatchResult result (λ replies. AnswersUnsettled reason replies.items) (λ ended. ended ≡ Memory) }
{
    match reason {
        KeeperRefusal::StoreFault => one(alloc, Message::StoreFault),
        KeeperRefusal::Damaged { file, line } => one(alloc, Message::StoreDamaged { file, line }),
        KeeperRefusal::Memory(_) => Err(Ended::Memory),
    }
}

// Does what the command says, from a state that is kept and shown to all: where one was published behind the commit
// that is given, all older connections are hung up.
#[tactic(auto, using(crate::proofs::Hanging::hangs_none))]
fn commit<R: Wait, D: Disk, J: Naming, A: Hall<List = J>, P: KeptPublisher<D, J>>(
    rt: &R,
    alloc: Global,
    keeper: &mut Keeper<'_, D>,
    publisher: &mut P,
    hall: &mut A,
    hangs: &mut Front<Event, Events<J>>,
    command: &Command,
    shown: u64,
) -> Result<Vec<Message>, Ended>
    requires decided { decided_of keeper.old ≡ true }
    requires even { last_commit 0 (P.states publisher.old) ≡ keeper.old.desk.commit }
    requires hung { IsHungFor shown (P.states publisher.old) (A.tally hall.old) }
    ensures committed { MatchResult result
        (λ replies. Commits command.now
        (side_of D.faults keeper.old (P.states publisher.old) (A.tally hall.old) (A.calls hall.old))
        (side_of D.faults keeper.new (P.states publisher.new) (A.tally hall.new) (A.calls hall.new)) replies.items)
        (λ ended. (ended ≡ Memory) × LacksMemory command.now
        (side_of D.faults keeper.old (P.states publisher.old) (A.tally hall.old) (A.calls hall.old))
        (side_of D.faults keeper.new (P.states publisher.new) (A.tally hall.new) (A.calls hall.new))) }
    ensures stops { WhereTold (D.state (disk_of keeper.old))
        (λ before. IsKept keeper.old.desk (held_of keeper.old) before
        → LeavesOnly D.moment D.left_since (disk_of keeper.old) (disk_of keeper.new)
        (IsBeforeOrApplied keeper.old.desk command.now)) }
    ensures kept { WhereTold (D.state (disk_of keeper.old))
        (λ before. IsKept keeper.old.desk (held_of keeper.old) before
        → decided_of keeper.new ≡ true → EndsKept keeper.new.desk (held_of keeper.new) (D.state (disk_of keeper.new))) }
    ensures tells { StillTells (D.state (disk_of keeper.old)) (D.state (disk_of keeper.new)) }
    ensures behind { last_commit 0 (P.states publisher.new) ≤ keeper.new.desk.commit }
    ensures hangs { HangsOn (P.states publisher.old) (P.states publisher.new) hangs.old hangs.new }
    ensures same_disk { IsSameDisk keeper.old keeper.new }
{
    match keeper.prepare(command) {
        Ok(prepared) => commit_prepared(rt, alloc, keeper, publisher, hall, hangs, prepared),
        Err(refusal) => tell_refusal(alloc, refusal),
    }
}

// What a command is answered that a rule refuses.
fn tell_refusal(alloc: Global, refusal: Refusal) -> Result<Vec<Message>, Ended>
    ensures { MatchResult result
        (λ replies. IsByRule refusal × (replies.items ≡ Message.Refused refusal ∷ [])) (λ ended. ended ≡ Memory) }
{
    match refusal {
        Refusal::Memory(_) => Err(Ended::Memory),
        refusal => one(alloc, Message::Refused { refusal }),
    }
}

// Commits what was prepared, and then shows it to all. All memory but that of the publication is taken before the
// commit.
#[tactic(auto, using(crate::proofs::Hanging::hangs_none, crate::proofs::Hanging::hangs_same, crate::proofs::Hanging::hangs_from))]
fn commit_prepared<R: Wait, D: Disk, J: Naming, A: Hall<List = J>, P: KeptPublisher<D, J>>(
    rt: &R,
    alloc: Global,
    keeper: &mut Keeper<'_, D>,
    publisher: &mut P,
    hall: &mut A,
    hangs: &mut Front<Event, Events<J>>,
    prepared: PreparedCommit,
) -> Result<Vec<Message>, Ended>
    requires decided { decided_of keeper.old ≡ true }
    requires prepared { prepared.save.gone ≡ gone_names (held_of keeper.old) prepared.save.set }
    requires newer { last_commit 0 (P.states publisher.old) < prepared.desk.commit }
    requires behind { last_commit 0 (P.states publisher.old) ≤ keeper.old.desk.commit }
    ensures shown { MatchResult result
        (λ replies. Shows prepared.desk prepared.erased
        (side_of D.faults keeper.old (P.states publisher.old) (A.tally hall.old) (A.calls hall.old))
        (side_of D.faults keeper.new (P.states publisher.new) (A.tally hall.new) (A.calls hall.new)) replies.items)
        (λ ended. (ended ≡ Memory) × IsUnshown prepared.desk
        (side_of D.faults keeper.old (P.states publisher.old) (A.tally hall.old) (A.calls hall.old))
        (side_of D.faults keeper.new (P.states publisher.new) (A.tally hall.new) (A.calls hall.new))) }
    ensures stops { WhereTold (D.state (disk_of keeper.old))
        (λ before. IsKept keeper.old.desk (held_of keeper.old) before
        → LeavesOnly D.moment D.left_since (disk_of keeper.old) (disk_of keeper.new)
        (IsBeforeOrAfter keeper.old.desk prepared.desk)) }
    ensures kept { WhereTold (D.state (disk_of keeper.old))
        (λ before. IsKept keeper.old.desk (held_of keeper.old) before
        → decided_of keeper.new ≡ true → EndsKept keeper.new.desk (held_of keeper.new) (D.state (disk_of keeper.new))) }
    ensures tells { StillTells (D.state (disk_of keeper.old)) (D.state (disk_of keeper.new)) }
    ensures behind { last_commit 0 (P.states publisher.new) ≤ keeper.new.desk.commit }
    ensures hangs { HangsOn (P.states publisher.old) (P.states publisher.new) hangs.old hangs.new }
    ensures same_disk { IsSameDisk keeper.old keeper.new }
{
    let commit = prepared.desk().commit();
    let erased = prepared.erased();
    let Ok(done) = one(alloc, Message::Done { commit, erased }) else {
        return Err(Ended::Memory);
    };
    let Ok(fault) = one(alloc, Message::StoreFault) else {
        return Err(Ended::Memory);
    };
    let Ok(ready) = publisher.prepare(prepared.desk()) else {
        return Err(Ended::Memory);
    };
    let Ok(_) = keeper.commit(prepared) else {
        return Ok(fault);
    };
    match publisher.show(rt, keeper, hall, hangs, ready) {
        Ok(()) => Ok(done),
        Err(_) => Err(Ended::Memory),
    }
}
