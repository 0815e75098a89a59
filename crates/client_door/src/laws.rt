// What holds of all connections. These functions do nothing; their clauses are the laws.
ghost use Rattle.std.specs.Prelude.{◌≡◌, ◌⊎◌, List};
ghost use Rattle.wire_fields.specs.declared.messages.Framed as framed;
ghost use Rattle.door_frames.specs.declared.endings.Ended as ended;
ghost use Rattle.door_frames.specs.declared.endings.Ended.TheVariants.{Closed, Memory};
ghost use Rattle.client_door.specs.Serving.{ClientSide, Serves};
ghost use Rattle.client_door.specs.Complete.{IsQuiet, GivesItsQuestion, Receives, AnswersEach};

/// Where the frames of a client are right and whole, no call of the link fails or finds it down, the hall is not stopped,
/// hangs no connection up and loses no question, and an agent's answer is one to the question that was put, each frame is
/// answered and the connection ends `Closed`; or memory was wanting.
pub fn each_frame_of_a_client_is_answered()
    ensures { (result : ended.Ended) (start now : ClientSide) (frames : List framed.Framed) → Serves result start now
        → IsQuiet start now → GivesItsQuestion now.tally.last_ask → Receives frames start now
        → ((result ≡ Closed) × AnswersEach frames start now) ⊎ (result ≡ Memory) }
{}
