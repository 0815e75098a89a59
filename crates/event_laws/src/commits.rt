// What an administrator's worker does, as events. These functions do nothing; their clauses are the laws.
ghost use Rattle.std.specs.Prelude.{◌≡◌, ◌<◌, ℕ, [], ◌∷◌, Bool, List, Option, Some, true, false};
ghost use mathlib.Core.List.{IsPrefix};
ghost use Rattle.desk_ports.specs.Disk.{DiskState};
ghost use Rattle.desk_state.specs.DeskState.{DeskState};
ghost use Rattle.desk_state.specs.declared.commands.Command as command_of_state;
ghost use Rattle.wire_fields.specs.declared.messages.Message as message_of_wire;
ghost use Rattle.wire_messages.specs.Commands.{command_of};
ghost use Rattle.live_roll.specs.Roll.{RollState, IsRoll, HangsTo};
ghost use Rattle.live_roll.specs.declared.events.Event as roll_event;
ghost use Rattle.live_desk.specs.History.{last_commit};
ghost use Rattle.admin_door.specs.Side.{AdminSide, with_shown};
ghost use Rattle.admin_door.specs.Answering.{IsDone, IsUnpublished, HasFailed};
ghost use Rattle.admin_door.specs.Settling.{IsFound, Settles};
ghost use Rattle.admin_door.specs.Due.{AreDue};
ghost use Rattle.desk_world.specs.World.{World, last, fresh};
ghost use Rattle.desk_world.specs.declared.events.Event as event;
ghost use Rattle.event_laws.specs.Happens.{Happens, HoldsOrHappens};
ghost use Rattle.event_laws.specs.Service.{StandsFor};
ghost use Rattle.event_laws.specs.Store.{IsFoundAs, IsLeftBehind, IsStarted};

use link_ports::HangEnd;

/// A command that is answered as done was committed, and its state then shown: the steps of the laws below.
pub fn a_command_that_is_done_was_stored_and_shown()
    ensures { (command : command_of_state.Command) (settled now : AdminSide) (replies : List message_of_wire.Message)
        → IsDone command settled now replies
        → (between : AdminSide) × IsUnpublished command settled between × (now ≡ with_shown between.desk between) }
{}

/// A commit that the keeper answered with Ok is the event `Stored`, where what was committed before is acknowledged.
pub fn a_commit_is_stored<H: HangEnd>()
    ensures { (link_of : ℕ → ℕ) (roll : RollState H) (side now : AdminSide) (world : World)
        (command : command_of_state.Command)
        → StandsFor H.used link_of roll side world → side.decided ≡ true → world.acknowledged ≡ last world
        → IsUnpublished command side now
        → Happens (event.Event.Stored command) world (StandsFor H.used link_of roll now) }
{}

/// A commit that failed is the event `Undecided`, where what was committed before is acknowledged.
pub fn a_failed_commit_is_undecided<H: HangEnd>()
    ensures { (link_of : ℕ → ℕ) (roll : RollState H) (side now : AdminSide) (world : World)
        (command : command_of_state.Command) (replies : List message_of_wire.Message)
        → StandsFor H.used link_of roll side world → side.decided ≡ true → world.acknowledged ≡ last world
        → HasFailed command side now replies
        → Happens (event.Event.Undecided command) world (StandsFor H.used link_of roll now) }
{}

/// A remount behind a failed commit is the event `Decide`, where it finds the state before that commit or behind it,
/// which is what the keeper's commit leaves.
pub fn a_remount_decides<H: HangEnd>()
    ensures { (link_of : ℕ → ℕ) (roll : RollState H) (old now : AdminSide) (world : World) (told : Option DiskState)
        → StandsFor H.used link_of roll old world → old.decided ≡ false → IsFound told old now
        → IsFoundAs old world now.desk
        → (kept : Bool) × Happens (event.Event.Decide kept) world (StandsFor H.used link_of roll now) }
{}

/// A publication is the event `Publish`: what the publisher was shown behind a commit, or once recovery found it
/// kept.
pub fn a_publication_is_an_event<H: HangEnd>()
    ensures { (link_of : ℕ → ℕ) (roll : RollState H) (side : AdminSide) (world : World)
        → StandsFor H.used link_of roll side world → side.decided ≡ true
        → last_commit 0 side.published < side.desk.commit
        → Happens event.Event.Publish world (StandsFor H.used link_of roll (with_shown side.desk side)) }
{}

/// Where the replies of a command are due that is answered as done, its commit is acknowledged, or the event
/// `Acknowledge` is enabled and acknowledges it: all who entered below it are disconnected by then.
pub fn what_is_answered_as_done_is_acknowledged<H: HangEnd>()
    ensures { (link_of : ℕ → ℕ) (roll : RollState H) (now : AdminSide) (world : World)
        (message : message_of_wire.Message) (hangs : List roll_event.Event) (replies : List message_of_wire.Message)
        (command : command_of_state.Command) (commit erased : ℕ)
        → StandsFor H.used link_of roll now world → IsRoll H.used roll
        → IsPrefix hangs roll.events → AreDue message now hangs replies → command_of message ≡ Some command
        → replies ≡ message_of_wire.Message.Done commit erased ∷ []
        → HoldsOrHappens event.Event.Acknowledge world
        (λ next. (next.acknowledged ≡ commit) × StandsFor H.used link_of roll now next) }
{}

/// Where an earlier command is settled (`Settles`), and all connections are disconnected that entered below what was
/// published last, the last commit is acknowledged, or the event `Acknowledge` is enabled and acknowledges it: so the
/// next command may be committed.
pub fn what_is_settled_is_acknowledged<H: HangEnd>()
    ensures { (link_of : ℕ → ℕ) (roll : RollState H) (old now : AdminSide) (world : World) (told : Option DiskState)
        → StandsFor H.used link_of roll now world → Settles told old now → roll.note ≡ last_commit 0 now.published
        → HoldsOrHappens event.Event.Acknowledge world (λ next.
        (now.decided ≡ true) × (next.acknowledged ≡ last next) × StandsFor H.used link_of roll now next) }
{}

/// So a command that is answered as done is the events `Stored`, `Publish`, `Hang` and `Acknowledge` in turn, where
/// what was committed before is acknowledged and the connections are disconnected behind it. What stands then is what
/// the next command asks for.
pub fn a_command_is_four_events<H: HangEnd>()
    ensures { (link_of : ℕ → ℕ) (roll roll_now : RollState H) (settled now : AdminSide) (world : World)
        (command : command_of_state.Command) (replies : List message_of_wire.Message)
        → StandsFor H.used link_of roll settled world → settled.decided ≡ true → world.acknowledged ≡ last world
        → IsDone command settled now replies → HangsTo H.used (last_commit 0 now.published) roll roll_now
        → Happens (event.Event.Stored command) world (λ stored. Happens event.Event.Publish stored (λ published.
        Happens event.Event.Hang published (λ hung. HoldsOrHappens event.Event.Acknowledge hung (λ next.
        (now.decided ≡ true) × (next.acknowledged ≡ last next) × StandsFor H.used link_of roll_now now next)))) }
{}

/// A service that is started for the first time stands for a fresh world, where that is of its state.
pub fn a_started_service_is_a_fresh_world<H: HangEnd>()
    ensures { (link_of : ℕ → ℕ) (roll : RollState H) (side : AdminSide) (desk : DeskState) (workers : ℕ)
        → IsStarted desk workers roll side → StandsFor H.used link_of roll side (fresh desk) }
{}

/// A crash, and a service that is then started with what is found in the folder, is the event `Stop`: what is found
/// is the last state that is known to be kept, or that of a commit under way.
pub fn a_start_is_behind_a_stop<H: HangEnd>()
    ensures { (link_of : ℕ → ℕ) (roll roll_now : RollState H) (side side_now : AdminSide) (world : World)
        (desk : DeskState) (workers : ℕ) → StandsFor H.used link_of roll side world → IsLeftBehind side world desk
        → IsStarted desk workers roll_now side_now
        → (command : Option command_of_state.Command) × (kept : Bool)
        × Happens (event.Event.Stop command kept) world (StandsFor H.used link_of roll_now side_now) }
{}
