// What holds of all connections. These functions do nothing; their clauses are the laws.
ghost use Rattle.std.specs.Prelude.{◌≡◌, ◌⊎◌, List, []};
ghost use Rattle.door_frames.specs.declared.endings.Ended as ended;
ghost use Rattle.door_frames.specs.declared.endings.Ended.TheVariants.{Closed, Memory};
ghost use Rattle.agent_door.specs.Serving.{AgentSide, Serves};
ghost use Rattle.agent_door.specs.Complete.{IsQuiet, Receives, HeedsEach, IsUntold, frames_of};
ghost use Rattle.agent_door.specs.declared.messages.Answer as answer;
ghost use Rattle.agent_door.specs.declared.messages.Registration as registration;

/// Where the frames of an agent are right, whole and in their places, no call of the link fails and the hall is not
/// stopped, each frame is heeded, and the connection ends `Closed`; or those up to a `KindTaken`, up to the last turn
/// of a question that was not answered in time, or until its link was found down; or memory was wanting.
pub fn each_frame_of_an_agent_is_heeded()
    ensures { (result : ended.Ended) (start now : AgentSide) (told : registration.Registration)
        (answers : List answer.Answer)
        → Serves result start now → IsQuiet start now → Receives (frames_of told answers) start now
        → ((result ≡ Closed) × HeedsEach told answers start now) ⊎ (result ≡ Memory) }
{}

/// Where an agent's input ends before any byte, no call of the link fails and the hall is not stopped, nothing is sent,
/// no call is made on the hall, and the connection ends `Closed`; or memory was wanting.
pub fn a_silent_agent_is_told_nothing()
    ensures { (result : ended.Ended) (start now : AgentSide) → Serves result start now → IsQuiet start now
        → Receives [] start now
        → ((result ≡ Closed) × IsUntold start now) ⊎ (result ≡ Memory) }
{}
