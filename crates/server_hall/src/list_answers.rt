// What a `ListHall` is to answer to one call.
use crate::{AskRefusal, NextRefusal};
use agent_table::{AnswerRefusal, Asked, RegisterRefusal, Taken};

/// What a `ListHall` is to answer to one call.
#[derive(Drop)]
pub enum HallAnswer {
    Ask(Result<(u32, Taken), AskRefusal>),
    Join(Result<(), RegisterRefusal>),
    Next(Result<Asked, NextRefusal>),
    Answer(Result<(), AnswerRefusal>),
    Look(bool),
}
