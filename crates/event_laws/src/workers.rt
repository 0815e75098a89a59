// What a worker of clients does, as events. These functions do nothing; their clauses are the laws.
ghost use Rattle.std.specs.Prelude.{◌≡◌, ◌≤◌, ◌∷◌, ℕ, List, Some, None, true};
ghost use Rattle.desk_state.specs.DeskState.{DeskState};
ghost use Rattle.cynara_keys.specs.declared.results.Kind as kind_of;
ghost use Rattle.live_roll.specs.Roll.{RollState};
ghost use Rattle.admin_door.specs.Side.{AdminSide};
ghost use Rattle.client_door.specs.Answered.{Answered, IsRight, AreReadIn, StandsIn};
ghost use Rattle.client_door.specs.Asking.{ask_made};
ghost use Rattle.client_door.specs.Reading.{reading};
ghost use Rattle.server_hall.specs.Call.{AskResult};
ghost use Rattle.desk_world.specs.World.{World, with_link};
ghost use Rattle.desk_world.specs.declared.events.Event as event;
ghost use Rattle.desk_world.specs.declared.links.Link as connection;
ghost use Rattle.desk_world.specs.declared.links.Reading as read_as;
ghost use Rattle.event_laws.specs.Happens.{Happens};
ghost use Rattle.event_laws.specs.Service.{StandsFor};
ghost use Rattle.event_laws.specs.Worker.{HasCheck, HasOutcome, once_read, once_sent};

use link_ports::HangEnd;

/// A check that a worker answers is read by the event `Read`: `read` of what a worker of clients says of each of its
/// connections, where the state of the check was published by then. The states that the seat has seen may be more.
/// The next check is read no lower.
pub fn a_check_is_read<H: HangEnd>()
    ensures { (link_of : ℕ → ℕ) (roll : RollState H) (side : AdminSide) (world : World) (link ask low : ℕ)
        (found : connection.Link) (seen : List DeskState) (one : Answered) (more : List Answered)
        → StandsFor H.used link_of roll side world → HasCheck world link found ask one.check
        → found.reading ≡ read_as.Reading.Nothing → found.seen ≤ low
        → StandsIn one.desk side.published → AreReadIn seen low (one ∷ more)
        → Happens (event.Event.Read link one.desk.commit) world (λ next.
        (next ≡ with_link link (once_read one.check one.desk found) world)
        × StandsFor H.used link_of roll side next × AreReadIn seen one.desk.commit more) }
{}

/// The reply to a check that the policies decide, or that asks no agent, is sent by the event `Write`, where the
/// connection is up: `right` of what a worker of clients says.
pub fn a_reply_is_written<H: HangEnd>()
    ensures { (link_of : ℕ → ℕ) (roll : RollState H) (side : AdminSide) (world : World) (link ask : ℕ)
        (found : connection.Link) (one : Answered)
        → StandsFor H.used link_of roll side world → HasCheck world link found ask one.check
        → found.reading ≡ reading one.desk one.check → found.up ≡ true
        → IsRight one → one.call ≡ None
        → Happens (event.Event.Write link) world (λ next.
        (next ≡ with_link link (once_sent ask one.reply found) world) × StandsFor H.used link_of roll side next) }
{}

/// So is the reply to a check that asks an agent, where the world has what `ask` gave (`HasOutcome`): an entry of the
/// agents' log that is answered or gone, or that the question was not put.
pub fn what_comes_of_an_agent_is_written<H: HangEnd>()
    ensures { (link_of : ℕ → ℕ) (roll : RollState H) (side : AdminSide) (world : World) (link ask commit : ℕ)
        (kind : kind_of.Kind) (metadata : List ℕ) (found : connection.Link) (one : Answered) (result : AskResult)
        → StandsFor H.used link_of roll side world → HasCheck world link found ask one.check
        → reading one.desk one.check ≡ read_as.Reading.Due commit kind metadata
        → HasOutcome world found commit kind result → found.up ≡ true
        → IsRight one → one.call ≡ Some (ask_made kind one.check.question metadata result)
        → Happens (event.Event.Write link) world (λ next.
        (next ≡ with_link link (once_sent ask one.reply found) world) × StandsFor H.used link_of roll side next) }
{}
