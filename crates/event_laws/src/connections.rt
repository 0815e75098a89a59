// What happens in the registry of connections, as events. These functions do nothing; their clauses are the laws.
ghost use Rattle.std.specs.Prelude.{◌≡◌, ◌≤◌, ℕ, List, None, Some, false, slice_get};
ghost use Rattle.live_roll.specs.Roll.{RollState, with_entry, LeavesPlace, HangsTo, StopsAll};
ghost use Rattle.live_desk.specs.History.{last_commit};
ghost use Rattle.live_desk.specs.Seat.{SeatState, EntersAt};
ghost use Rattle.admin_door.specs.Side.{AdminSide};
ghost use Rattle.desk_world.specs.World.{World};
ghost use Rattle.desk_world.specs.declared.events.Event as event;
ghost use Rattle.desk_world.specs.declared.events.Half.TheVariants.{Enter};
ghost use Rattle.desk_world.specs.declared.links.Link as connection;
ghost use Rattle.event_laws.specs.Happens.{Happens, HoldsOrHappens, AreLost};
ghost use Rattle.event_laws.specs.Service.{StandsFor, entered_in};

use link_ports::HangEnd;

/// `enter_roll` that takes a connection in is the event that it enters (`Connect`), where it is one of this run that
/// has not entered: its `note` and `entered`, and `told` of the seat; its end is not used yet. What the connection
/// has seen by then is not above the seat's note.
pub fn an_entry_is_an_event<H: HangEnd>()
    ensures { (link_of : ℕ → ℕ) (roll : RollState H) (side : AdminSide) (world : World) (link : ℕ)
        (found : connection.Link) (end : H) (note : ℕ) (seat seat_now : SeatState)
        → StandsFor H.used link_of roll side world → slice_get world.links link ≡ Some found
        → found.run ≡ world.run → found.entered ≡ None → H.used end ≡ false
        → note ≡ roll.note → EntersAt note seat seat_now
        → Happens (event.Event.Connect (Enter link)) world (λ next.
        StandsFor H.used (entered_in seat.number link link_of) (with_entry seat.number end roll) side next
        × (slice_get next.links link ≡ Some (record found { entered = Some note; seen = note }))
        × (note ≤ seat_now.note)) }
{}

/// `hang_roll`, which raises the note to the last published commit, is the event `Hang`: its `hung`.
pub fn a_disconnect_is_an_event<H: HangEnd>()
    ensures { (link_of : ℕ → ℕ) (roll roll_now : RollState H) (side : AdminSide) (world : World)
        → StandsFor H.used link_of roll side world
        → HangsTo H.used (last_commit 0 side.published) roll roll_now
        → Happens event.Event.Hang world (StandsFor H.used link_of roll_now side) }
{}

/// `leave_roll` of a connection is the event that it is lost (`Lose`), where that is up still: its `left`. It is
/// closed then.
pub fn who_leaves_is_disconnected<H: HangEnd>()
    ensures { (link_of : ℕ → ℕ) (roll roll_now : RollState H) (side : AdminSide) (world : World) (seat : ℕ)
        (found : connection.Link) → StandsFor H.used link_of roll side world
        → slice_get world.links (link_of seat) ≡ Some found → LeavesPlace H.used seat roll roll_now
        → HoldsOrHappens (event.Event.Lose (link_of seat)) world (λ next.
        (slice_get next.links (link_of seat) ≡ Some (record found { up = false }))
        × StandsFor H.used link_of roll_now side next) }
{}

/// `Roll::stop`, by which all ends are hung up (`StopsAll`), are events `Lose` in turn: each of a connection in the
/// registry that is up still.
pub fn a_stop_disconnects_all<H: HangEnd>()
    ensures { (link_of : ℕ → ℕ) (roll roll_now : RollState H) (side : AdminSide) (world : World)
        → StandsFor H.used link_of roll side world → StopsAll H.used roll roll_now
        → (links : List ℕ) × AreLost links world (StandsFor H.used link_of roll_now side) }
{}
