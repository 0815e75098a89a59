ghost use Rattle.std.specs.Prelude.{◌≡◌, ◌≤◌, [], true, None, length, OnOk, OnErr};
ghost use Rattle.wire_reading.specs.Frame.{spelling, body, with_sequence};
ghost use Rattle.client_core.specs.Listening.{is_fit};
ghost use Rattle.client_core.specs.Agent as does;
ghost use Rattle.client_core.specs.Agent.{fresh, cut, listening};
ghost use Rattle.wire_fields.specs.Operation.{number_of};
ghost use Rattle.wire_fields.specs.Message.{operation};
ghost use Rattle.wire_fields.specs.declared.messages.Message.TheVariants.{AgentAnswer};
ghost use Rattle.client_core.specs.declared.steps.Step.TheVariants as step;
ghost use Rattle.client_core.specs.declared.steps.Fault.TheVariants as fault;
ghost use Rattle.client_core.specs.declared.stages.AgentStage.TheVariants as stage_is;

use crate::ears::{Ear, Piece};
use crate::faults::fault_by;
use crate::stages::{AgentStage, Open};
use crate::steps::{Fault, Step};
use cynara_keys::Kind;
use desk_ports::Bytes;
use std::alloc::{AllocError, Global};
use std::marker::Model;
use std::mem;
use wire_messages::{EncodeRefusal, Framed, Heard, Message, encode_message_into};

/// An agent's side: it registers, and answers each question that it is asked, once.
#[derive(Drop)]
pub struct AgentMachine {
    alloc: Global,
    kind: Kind,
    frame: Bytes,
    stage: AgentStage,
}

impl Model for AgentMachine {
    ghost use Rattle.client_core.specs.Agent.{Agent};

    ghost Value = { Agent };

    ghost view = { λ agent. record { kind = agent.kind; frame = agent.frame; stage = agent.stage } };
}

impl AgentMachine {
    /// An agent of this kind, before it is registered. The service is to be dialled. Takes no memory.
    pub fn new(alloc: Global, kind: Kind) -> AgentMachine
        ensures { result ≡ fresh kind }
    {
        AgentMachine {
            alloc,
            kind,
            frame: Bytes::new(alloc),
            stage: AgentStage::Dialling,
        }
    }

    /// The frame that was to be sent last.
    pub fn frame(&self) -> &[u8]
        ensures { result.now ≡ self.now.frame }
    {
        self.frame.as_slice()
    }

    /// How many bytes may come next, at most; 0 where no connection is there.
    pub fn wanted(&self) -> usize
        ensures { result ≡ does.wanted_at self.now.stage }
    {
        match &self.stage {
            AgentStage::Registering(ear) => ear.wanted(),
            AgentStage::Listening(_, ear) => ear.wanted(),
            AgentStage::Dialling => 0,
        }
    }

    /// The service was dialled: the registration is to be sent.
    pub fn dialled(&mut self) -> Step
        ensures { does.Dialled result self.old self.new }
    {
        match mem::replace(&mut self.stage, AgentStage::Dialling) {
            AgentStage::Dialling => self.register(),
            other => self.not_now(other),
        }
    }

    /// The connection ended, or could not be made. No question is to be answered any more.
    pub fn down(&mut self) -> Step
        ensures { does.Falls result self.old self.new }
    {
        self.stage = AgentStage::Dialling;
        Step::Over(Fault::Unavailable)
    }

    /// The caller gave the connection up.
    pub fn leave(&mut self)
        ensures { self.new ≡ cut self.old }
    {
        self.stage = AgentStage::Dialling;
    }

    /// Answers the question of this number. `WrongNumber` where it is not the one that was asked last, or was answered
    /// or withdrawn.
    pub fn answer(&mut self, number: u32, allowed: bool) -> Step
        ensures { does.Answers number allowed result self.old self.new }
    {
        match mem::replace(&mut self.stage, AgentStage::Dialling) {
            AgentStage::Listening(Some(question), ear) => {
                if question.number != number {
                    self.stage = AgentStage::Listening(Some(question), ear);
                    return Step::WrongNumber;
                }
                self.send_answer(question, allowed, ear)
            }
            AgentStage::Listening(None, ear) => {
                self.stage = AgentStage::Listening(None, ear);
                Step::WrongNumber
            }
            other => self.not_now(other),
        }
    }

    /// These bytes came: some, and no more than are wanted. `Wait` where the message is not whole with them; `Reply`
    /// with the message, which first says that the agent is registered or that the kind is taken, and then asks, or
    /// says that a question is withdrawn, which is to be answered no more, or that a number is unknown; or `Over`.
    /// Where the kind is taken the connection is to be closed.
    pub fn came(&mut self, piece: &[u8]) -> Step
        ensures { does.Comes piece.now result self.old self.new }
    {
        match mem::replace(&mut self.stage, AgentStage::Dialling) {
            AgentStage::Registering(ear) => {
                if !ear.takes(piece) {
                    self.stage = AgentStage::Registering(ear);
                    return Step::BadCount;
                }
                self.hear_first(ear, piece)
            }
            AgentStage::Listening(asked, ear) => {
                if !ear.takes(piece) {
                    self.stage = AgentStage::Listening(asked, ear);
                    return Step::BadCount;
                }
                self.hear_next(asked, ear, piece)
            }
            AgentStage::Dialling => Step::NotNow,
        }
    }

    fn not_now(&mut self, stage: AgentStage) -> Step
        ensures answer { result ≡ step.NotNow }
        ensures back { self.new ≡ record self.old { stage = stage } }
    {
        self.stage = stage;
        Step::NotNow
    }

    fn register(&mut self) -> Step
        requires { self.old.stage ≡ stage_is.Dialling }
        ensures { does.Dialled result self.old self.new }
    {
        let message = Message::Register { kind: self.kind };
        let spelled = spell(&mut self.frame, 0, &message);
        drop(message);
        match spelled {
            Ok(()) => {
                self.stage = AgentStage::Registering(Ear::new(self.alloc, Heard::AgentReplies));
                Step::Send
            }
            Err(error) => Step::Over(Fault::Memory(error)),
        }
    }

    fn send_answer(&mut self, question: Open, allowed: bool, ear: Ear) -> Step
        requires { self.old.stage ≡ stage_is.Dialling }
        ensures { does.Spells question.sequence (AgentAnswer question.number allowed)
            (stage_is.Listening None ear) result self.old self.new }
    {
        let message = Message::AgentAnswer {
            number: question.number,
            allowed,
        };
        let spelled = spell(&mut self.frame, question.sequence, &message);
        drop(message);
        match spelled {
            Ok(()) => {
                self.stage = AgentStage::Listening(None, ear);
                Step::Send
            }
            Err(error) => Step::Over(Fault::Memory(error)),
        }
    }

    fn hear_first(&mut self, ear: Ear, piece: &[u8]) -> Step
        requires cut { self.old.stage ≡ stage_is.Dialling }
        requires fits { is_fit ear.bytes piece.now ≡ true }
        ensures { does.HearsFirst ear piece.now result self.old self.new }
    {
        match ear.hear(piece) {
            Piece::More(ear) => {
                self.stage = AgentStage::Registering(ear);
                Step::Wait
            }
            Piece::Whole(framed) => self.begin(framed),
            Piece::Wrong(refusal) => Step::Over(fault_by(refusal)),
        }
    }

    fn hear_next(&mut self, asked: Option<Open>, ear: Ear, piece: &[u8]) -> Step
        requires cut { self.old.stage ≡ stage_is.Dialling }
        requires fits { is_fit ear.bytes piece.now ≡ true }
        ensures { does.HearsNext asked ear piece.now result self.old self.new }
    {
        match ear.hear(piece) {
            Piece::More(ear) => {
                self.stage = AgentStage::Listening(asked, ear);
                Step::Wait
            }
            Piece::Whole(framed) => self.turn(asked, framed),
            Piece::Wrong(refusal) => Step::Over(fault_by(refusal)),
        }
    }

    // The first message is whole.
    fn begin(&mut self, framed: Framed) -> Step
        requires { self.old.stage ≡ stage_is.Dialling }
        ensures { does.Begins framed.message result self.old self.new }
    {
        match &framed.message {
            Message::Registered { .. } => {
                self.listen(None);
                Step::Reply(framed.message)
            }
            Message::KindTaken { .. } => Step::Reply(framed.message),
            _ => out_of_place(framed),
        }
    }

    // A further message is whole.
    fn turn(&mut self, asked: Option<Open>, framed: Framed) -> Step
        requires { self.old.stage ≡ stage_is.Dialling }
        ensures { does.Turns framed asked result self.old self.new }
    {
        match &framed.message {
            Message::AgentQuestion { number, .. } => {
                self.listen(Some(Open {
                    number: *number,
                    sequence: framed.sequence,
                }));
                Step::Reply(framed.message)
            }
            Message::AgentWithdrawn { number } => {
                self.listen(still_open(*number, asked));
                Step::Reply(framed.message)
            }
            Message::UnknownNumber { .. } => {
                self.listen(asked);
                Step::Reply(framed.message)
            }
            _ => out_of_place(framed),
        }
    }

    fn listen(&mut self, asked: Option<Open>)
        ensures { self.new ≡ record self.old { stage = listening asked } }
    {
        self.stage = AgentStage::Listening(asked, Ear::new(self.alloc, Heard::AgentReplies));
    }
}

// The question that is to be answered, once that of this number is to be answered no more.
fn still_open(number: u32, asked: Option<Open>) -> Option<Open>
    ensures { result ≡ does.still_open number asked }
{
    match asked {
        Some(question) => {
            if question.number == number {
                return None;
            }
            Some(question)
        }
        None => None,
    }
}

fn out_of_place(framed: Framed) -> Step
    ensures { result ≡ step.Over (fault.Operation (number_of (operation framed.message))) }
{
    let operation = framed.message.operation();
    drop(framed);
    Step::Over(Fault::Operation(operation))
}

fn spell(frame: &mut Bytes, sequence: u16, message: &Message) -> Result<(), AllocError>
    requires { length (body (with_sequence sequence message.now)) ≤ 1048576 }
    ensures spelled { OnOk result (frame.new ≡ spelling (with_sequence sequence message.now)) }
    ensures emptied { OnErr result (frame.new ≡ []) }
{
    match encode_message_into(frame, sequence, message) {
        Ok(()) => Ok(()),
        Err(EncodeRefusal::TooLong(_)) => unreachable!(),
        Err(EncodeRefusal::Memory(error)) => Err(error),
    }
}
