// How far a machine has come.
ghost use Rattle.std.specs.Prelude.{◌≡◌};
ghost use Rattle.client_core.specs.Asking as does;

use crate::ears::Ear;
use crate::wanted::Wanted;
use cynara_keys::{Name, Question};

/// A question that is under way: how many dials or connections may fail, with the one under way, and whether its frame
/// was to be sent before.
#[derive(Drop)]
pub(crate) struct Asking {
    pub session: Name,
    pub question: Question,
    pub simple: bool,
    pub tries: u32,
    pub is_tried: bool,
}

/// How far a client has come with a question.
#[derive(Drop)]
pub(crate) enum Stage {
    /// None is under way.
    Idle,
    /// The caller looks whether the connection is up.
    Looking(Asking),
    /// The caller dials.
    Dialling(Asking),
    /// The frame is sent, and the reply is to come.
    Waiting(Asking, Ear),
}

/// Whether the frame of the question that is under way was to be sent.
pub(crate) fn is_tried(stage: &Stage) -> bool
    ensures { result ≡ does.was_tried stage.now }
{
    match stage {
        Stage::Dialling(asking) => asking.is_tried,
        Stage::Waiting(_, _) => true,
        _ => false,
    }
}

/// A message of an administrator that is under way: what answer it is to have, the sequence number of its frame, and
/// how many rows have come.
#[derive(Clone, Copy)]
pub(crate) struct Exchange {
    pub wanted: Wanted,
    pub sequence: u16,
    pub rows: u32,
}

/// How far an administrator has come with a message.
#[derive(Drop)]
pub(crate) enum AdminStage {
    /// None is under way.
    Idle,
    /// The caller dials.
    Dialling(Exchange),
    /// The frame is sent, and a reply is to come.
    Waiting(Exchange, Ear),
}

/// A question that an agent is asked and has not answered: its number, and the sequence number of its frame.
#[derive(Clone, Copy)]
pub(crate) struct Open {
    pub number: u32,
    pub sequence: u16,
}

/// How far an agent has come.
#[derive(Drop)]
pub(crate) enum AgentStage {
    /// The caller dials.
    Dialling,
    /// The registration is sent, and the reply to it is to come.
    Registering(Ear),
    /// It is registered, and may be asked.
    Listening(Option<Open>, Ear),
}
