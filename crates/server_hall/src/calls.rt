// Calls that were made. Texts and results stand in them for contracts alone, so that to keep one takes no memory.
ghost use Rattle.std.specs.Prelude.{◌≡◌};

use crate::{AskRefusal, NextRefusal};
use agent_table::{AnswerRefusal, Asked, RegisterRefusal, Taken};
use cynara_keys::{Kind, Metadata, Question};
use std::marker::Model;
use std::snapshot::Snapshot;

/// A question was put to the agent of the kind, and this was answered.
#[derive(Drop)]
pub struct AskCall {
    kind: Kind,
    question: Snapshot<Question>,
    metadata: Snapshot<Metadata>,
    result: Snapshot<Result<(u32, Taken), AskRefusal>>,
}

impl Model for AskCall {
    ghost use Rattle.server_hall.specs.Call.{AskMade};

    ghost Value = { AskMade };

    ghost view = { λ call. record {
      kind = call.kind;
      question = call.question.value;
      metadata = call.metadata.value;
      result = call.result.value;
    } };
}

impl AskCall {
    /// The call with these arguments and this result.
    pub fn of(
        kind: Kind,
        question: Snapshot<Question>,
        metadata: Snapshot<Metadata>,
        outcome: &Result<(u32, Taken), AskRefusal>,
    ) -> AskCall
        ensures { result ≡ record {
          kind = kind;
          question = question.value;
          metadata = metadata.value;
          result = outcome.now;
        } }
    {
        AskCall {
            kind,
            question,
            metadata,
            result: Snapshot::of(outcome),
        }
    }

    /// The kind whose agent was asked.
    pub fn kind(&self) -> Kind
        ensures { result ≡ self.now.kind }
    {
        self.kind
    }
}

/// An agent came for the kind, and this was answered.
#[derive(Drop)]
pub struct JoinCall {
    kind: Kind,
    result: Snapshot<Result<(), RegisterRefusal>>,
}

impl Model for JoinCall {
    ghost use Rattle.server_hall.specs.Call.{JoinMade};

    ghost Value = { JoinMade };

    ghost view = { λ call. record { kind = call.kind; result = call.result.value } };
}

impl JoinCall {
    /// The call with this argument and this result.
    pub fn of(kind: Kind, outcome: &Result<(), RegisterRefusal>) -> JoinCall
        ensures { result ≡ record { kind = kind; result = outcome.now } }
    {
        JoinCall {
            kind,
            result: Snapshot::of(outcome),
        }
    }

    /// The kind for which the agent came.
    pub fn kind(&self) -> Kind
        ensures { result ≡ self.now.kind }
    {
        self.kind
    }
}

/// The agent of the kind asked for its next question, and this was answered.
#[derive(Drop)]
pub struct NextCall {
    kind: Kind,
    result: Snapshot<Result<Asked, NextRefusal>>,
}

impl Model for NextCall {
    ghost use Rattle.server_hall.specs.Call.{NextMade};

    ghost Value = { NextMade };

    ghost view = { λ call. record { kind = call.kind; result = call.result.value } };
}

impl NextCall {
    /// The call with this argument and this result.
    pub fn of(kind: Kind, outcome: &Result<Asked, NextRefusal>) -> NextCall
        ensures { result ≡ record { kind = kind; result = outcome.now } }
    {
        NextCall {
            kind,
            result: Snapshot::of(outcome),
        }
    }

    /// The kind whose agent asked.
    pub fn kind(&self) -> Kind
        ensures { result ≡ self.now.kind }
    {
        self.kind
    }
}

/// The agent of the kind answered the question of the number, and this was answered.
#[derive(Drop)]
pub struct AnswerCall {
    kind: Kind,
    number: u32,
    allowed: bool,
    result: Snapshot<Result<(), AnswerRefusal>>,
}

impl Model for AnswerCall {
    ghost use Rattle.server_hall.specs.Call.{AnswerMade};

    ghost Value = { AnswerMade };

    ghost view = { λ call. record {
      kind = call.kind;
      number = call.number;
      allowed = call.allowed;
      result = call.result.value;
    } };
}

impl AnswerCall {
    /// The call with these arguments and this result.
    pub fn of(
        kind: Kind,
        number: u32,
        allowed: bool,
        outcome: &Result<(), AnswerRefusal>,
    ) -> AnswerCall
        ensures { result ≡ record { kind = kind; number = number; allowed = allowed; result = outcome.now } }
    {
        AnswerCall {
            kind,
            number,
            allowed,
            result: Snapshot::of(outcome),
        }
    }

    /// The kind whose agent answered.
    pub fn kind(&self) -> Kind
        ensures { result ≡ self.now.kind }
    {
        self.kind
    }

    /// The number of the question.
    pub fn number(&self) -> u32
        ensures { result ≡ self.now.number }
    {
        self.number
    }

    /// Whether the agent allows it.
    pub fn allowed(&self) -> bool
        ensures { result ≡ self.now.allowed }
    {
        self.allowed
    }
}

/// The agent of the kind left, when so many calls of `next` and of `answer` had been made.
#[derive(Clone, Copy, Debug, PartialEq, Eq)]
pub struct PartCall {
    pub kind: Kind,
    pub nexts: u64,
    pub answers: u64,
}

/// It was asked whether the question of the number still waits for its answer, and this was told.
#[derive(Clone, Copy, Debug, PartialEq, Eq)]
pub struct LookCall {
    pub number: u32,
    pub open: bool,
}

/// A call that was made on a hall.
#[derive(Drop)]
pub enum HallCall {
    Ask(AskCall),
    Join(JoinCall),
    Next(NextCall),
    Answer(AnswerCall),
    Look { number: u32, open: bool },
}
