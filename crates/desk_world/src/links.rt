use crate::replies::Reply;
use cynara_keys::{Kind, Question, Short};

/// A question that a client asked.
#[derive(Drop)]
pub struct Asked {
    pub client: u32,
    pub question: Question,
    pub simple: bool,
    /// No reply may be older: the greatest commit that was acknowledged, or that the client was told, when it asked.
    pub floor: u64,
}

/// A connection of a client, with its worker's part.
#[derive(Clone, Copy)]
pub struct Link {
    pub client: u32,
    /// The run of the service in which it was dialled.
    pub run: u32,
    /// The roll's note when the worker entered it, or none before.
    pub entered: Option<u64>,
    /// The last commit that its worker read, or entered with.
    pub seen: u64,
    pub up: bool,
    /// The ask whose question was sent and not answered.
    pub question: Option<u32>,
    pub reading: Reading,
    /// The reply that was sent and not received.
    pub reply: Option<Transit>,
}

/// What the worker of a link made of its question.
#[derive(Clone, Copy, Debug, PartialEq, Eq)]
pub enum Reading {
    Nothing,
    Ready(Reply),
    /// An agent of the kind decides, and is to be asked.
    Due {
        commit: u64,
        kind: Kind,
        metadata: Short,
    },
    /// The agent of the kind was asked, under this number.
    Waiting {
        commit: u64,
        kind: Kind,
        number: u32,
    },
}

/// A reply on its way, with the ask that it answers.
#[derive(Clone, Copy, Debug, PartialEq, Eq)]
pub struct Transit {
    pub ask: u32,
    pub reply: Reply,
}
