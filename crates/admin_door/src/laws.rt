// What holds of all connections. These functions do nothing; their clauses are the laws.
ghost use Rattle.std.specs.Prelude.{◌≡◌, ◌⊎◌, ◌++◌, ◌∷◌, [], ℕ, List, Option, Some, Ok};
ghost use Rattle.std.specs.List.{AllByRecursion};
ghost use Rattle.desk_ports.specs.FileMap.{FileMap};
ghost use Rattle.desk_ports.specs.Disk.{DiskState};
ghost use Rattle.desk_ports.specs.declared.file_sets.SetFile as file;
ghost use Rattle.desk_state.specs.DeskState.{DeskState};
ghost use Rattle.desk_state.specs.declared.commands.Command as command;
ghost use Rattle.desk_keeper.specs.declared.keeper.Keeper as keeper;
ghost use Rattle.desk_keeper.specs.Keeper.{disk_of, held_of};
ghost use Rattle.desk_keeper.specs.Kept.{Standing, standing};
ghost use Rattle.desk_keeper.specs.Keeping.{IsKept};
ghost use Rattle.wire_messages.specs.Commands.{command_of};
ghost use Rattle.wire_fields.specs.declared.messages.Framed as framed;
ghost use Rattle.wire_fields.specs.declared.messages.Message as message;
ghost use Rattle.wire_fields.specs.declared.messages.Message.TheVariants.{Done};
ghost use Rattle.door_frames.specs.declared.endings.Ended as ended;
ghost use Rattle.door_frames.specs.declared.endings.Ended.TheVariants.{Closed, Stopped, Memory};
ghost use Rattle.admin_door.specs.Side.{AdminSide, decided_of};
ghost use Rattle.admin_door.specs.Stops.{KeepsKnown};
ghost use Rattle.admin_door.specs.Answering.{Answers};
ghost use Rattle.admin_door.specs.Serving.{AdminTalk, Exchange, Serves};
ghost use Rattle.admin_door.specs.Running.{LeadsTo, LeadsWithin, IsReached, RunsOver, StandsSince, HasCommit};
ghost use Rattle.admin_door.specs.Complete.{Stays, Receives, AnswersEach, AnswersFront, IsDecided, FindsDamage};

use desk_ports::Disk;

/// Where the frames of an administrator are right and whole and no call of the link fails, each frame is answered and
/// the connection ends `Closed`, or those up to a stop, and it ends `Stopped`; or memory was wanting.
pub fn each_frame_of_an_administrator_is_answered<D: Disk>()
    ensures { (result : ended.Ended) (start now : AdminTalk) (first last : keeper.Keeper D)
        (frames : List framed.Framed)
        (served : Serves start now result (RunsOver D.state D.moment D.left_since first last))
        → Stays start.faults now.faults
        → Receives frames start now → ((result ≡ Closed) × AnswersEach Closed frames start now)
        ⊎ (((result ≡ Stopped) × AnswersFront Stopped frames start now) ⊎ (served.cause ≡ Memory)) }
{}

/// A command that is answered while no call of the disk fails is done, or refused by a rule, behind what an earlier one
/// left undone; or that could not be settled, since the folder is damaged or stands for an older state.
pub fn a_command_is_decided_where_no_call_fails()
    ensures { (told : Option DiskState) (asked : message.Message) (command : command.Command) (old now : AdminSide)
        (replies : List message.Message) → command_of asked ≡ Some command → Answers told asked old now replies
        → Stays old.faults now.faults → IsDecided told command old now replies ⊎ FindsDamage told old now replies }
{}

/// From some moment on a command is answered that was answered as done (`since` of `KeepsThrough`). A stop from then on
/// leaves a policy state with its commit or a later one.
pub fn an_acknowledged_command_lasts()
    ensures { (before : DiskState) (front back : List Exchange) (exchange : Exchange) (command : command.Command)
        (commit erased : ℕ) (left : FileMap) → command_of exchange.framed.message ≡ Some command
        → exchange.replies ≡ Done commit erased ∷ [] → StandsSince before (front ++ exchange ∷ []) back left
        → HasCommit commit (standing left) }
{}

/// Where it is known at the start that the folder keeps this policy state, a stop leaves what the first few of the
/// frames made of it, each command applied or not, or that with the command then under way.
pub fn a_folder_that_is_known_leads_on()
    ensures { (desk : DeskState) (held : Option (List file.SetFile)) (before : DiskState) (front back : List Exchange)
        (left : FileMap) → IsKept desk held before → StandsSince before front back left
        → (between : Standing) × LeadsTo (Ok desk) front between × LeadsWithin between back (standing left) }
{}

/// Each state that a connection publishes is one that the first few of its frames lead to: from the policy state that
/// was known last, or from what a stop before them may leave.
pub fn each_published_state_is_reached<D: Disk>()
    ensures { (result : ended.Ended) (start now : AdminTalk) (first last : keeper.Keeper D) (before : DiskState)
        (served : Serves start now result (RunsOver D.state D.moment D.left_since first last))
        → D.state (disk_of first) ≡ Some before
        → KeepsKnown (decided_of first) first.desk (held_of first) before
        → (more : List DeskState) × (now.side.published ≡ start.side.published ++ more)
        × AllByRecursion (IsReached before start.side.desk (served.answered ++ served.last)) more }
{}
