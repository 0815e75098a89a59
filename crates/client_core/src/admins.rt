ghost use Rattle.std.specs.Prelude.{◌≡◌, true};
ghost use Rattle.client_core.specs.Listening.{is_fit};
ghost use Rattle.client_core.specs.Admin as does;
ghost use Rattle.client_core.specs.Admin.{fresh, cut, sent, exchange_of};
ghost use Rattle.client_core.specs.declared.steps.Step.TheVariants as step;
ghost use Rattle.client_core.specs.declared.stages.AdminStage.TheVariants as stage_is;

use crate::ears::{Ear, Piece};
use crate::faults::fault_by;
use crate::raw_messages::{MOST_FIELDS, read_raw};
use crate::stages::{AdminStage, Exchange};
use crate::steps::{Fault, Step};
use crate::wanted::{Next, next_of, wanted_of};
use desk_ports::Bytes;
use std::alloc::Global;
use std::marker::Model;
use std::mem;
use wire_messages::{EncodeRefusal, Framed, Heard, Message, WireRefusal, encode_message_into};

/// An administrator's side: a message is sent once, and the replies to it are heard.
#[derive(Drop)]
pub struct AdminMachine {
    alloc: Global,
    sequence: u16,
    frame: Bytes,
    is_linked: bool,
    stage: AdminStage,
}

impl Model for AdminMachine {
    ghost use Rattle.client_core.specs.Admin.{Admin};

    ghost Value = { Admin };

    ghost view = { λ admin. record {
      sequence = admin.sequence;
      frame = admin.frame;
      is_linked = admin.is_linked;
      stage = admin.stage;
    } };
}

impl AdminMachine {
    /// An administrator without a connection. Takes no memory.
    pub fn new(alloc: Global) -> AdminMachine
        ensures { result ≡ fresh }
    {
        AdminMachine {
            alloc,
            sequence: 0,
            frame: Bytes::new(alloc),
            is_linked: false,
            stage: AdminStage::Idle,
        }
    }

    /// The frame of the message that was to be sent last.
    pub fn frame(&self) -> &[u8]
        ensures { result.now ≡ self.now.frame }
    {
        self.frame.as_slice()
    }

    /// How many bytes may come next, at most; 0 where none is waited for.
    pub fn wanted(&self) -> usize
        ensures { result ≡ does.wanted_at self.now.stage }
    {
        match &self.stage {
            AdminStage::Waiting(_, ear) => ear.wanted(),
            _ => 0,
        }
    }

    /// Takes a message, by the number of its operation and the bytes of its fields, as they stand in a frame. `Send`
    /// where a connection is there, and else `Dial`. Refuses, in this order, `NotNow`, `TooLong`, and `Unfit` with the
    /// first fault where the service would refuse the frame.
    pub fn send(&mut self, operation: u8, fields: &[u8]) -> Step
        ensures { does.Sends operation fields.now result self.old self.new }
    {
        if !matches!(self.stage, AdminStage::Idle) {
            return Step::NotNow;
        }
        if fields.len() > MOST_FIELDS {
            return Step::TooLong;
        }
        match read_raw(
            self.alloc,
            &mut self.frame,
            self.sequence,
            operation,
            fields,
        ) {
            Ok(framed) => self.begin_read(framed),
            Err(WireRefusal::Memory(error)) => {
                self.is_linked = false;
                Step::Over(Fault::Memory(error))
            }
            Err(refusal) => Step::Unfit(refusal),
        }
    }

    /// Takes a message by itself. `Send` where a connection is there, and else `Dial`. Refuses `NotNow`; and with the
    /// length that the frame would have, where that is above 1,048,576: then nothing is to be sent.
    pub fn say(&mut self, message: &Message) -> Result<Step, u64>
        ensures { does.Says message.now result self.old self.new }
    {
        if !matches!(self.stage, AdminStage::Idle) {
            return Ok(Step::NotNow);
        }
        match encode_message_into(&mut self.frame, self.sequence, message) {
            Ok(()) => {
                let step = self.begin(Exchange {
                    wanted: wanted_of(message),
                    sequence: self.sequence,
                    rows: 0,
                });
                Ok(step)
            }
            Err(EncodeRefusal::TooLong(length)) => Err(length),
            Err(EncodeRefusal::Memory(error)) => {
                self.is_linked = false;
                Ok(Step::Over(Fault::Memory(error)))
            }
        }
    }

    /// The service was dialled: the frame is to be sent.
    pub fn dialled(&mut self) -> Step
        ensures { does.Dialled result self.old self.new }
    {
        match mem::replace(&mut self.stage, AdminStage::Idle) {
            AdminStage::Dialling(exchange) => {
                self.is_linked = true;
                self.await_reply(exchange)
            }
            other => self.not_now(other),
        }
    }

    /// The connection ended, or could not be made. Nothing is known of whether a command that is under way was
    /// accepted.
    pub fn down(&mut self) -> Step
        ensures { does.Falls result self.old self.new }
    {
        self.is_linked = false;
        match mem::replace(&mut self.stage, AdminStage::Idle) {
            AdminStage::Idle => Step::Idle,
            _ => Step::Over(Fault::Unavailable),
        }
    }

    /// The caller gave the connection up, and a message that was under way is over.
    pub fn leave(&mut self)
        ensures { self.new ≡ cut self.old }
    {
        self.is_linked = false;
        self.stage = AdminStage::Idle;
    }

    /// These bytes came: some, and no more than are wanted. `Wait` where the reply is not whole with them; `Row` with
    /// one policy of a list, part of a policy state, or agent that is there; `Reply` with the last reply to the
    /// message; or `Over`.
    pub fn came(&mut self, piece: &[u8]) -> Step
        ensures { does.Comes piece.now result self.old self.new }
    {
        match mem::replace(&mut self.stage, AdminStage::Idle) {
            AdminStage::Waiting(exchange, ear) => {
                if !ear.takes(piece) {
                    self.stage = AdminStage::Waiting(exchange, ear);
                    return Step::BadCount;
                }
                self.hear(exchange, ear, piece)
            }
            other => self.not_now(other),
        }
    }

    fn not_now(&mut self, stage: AdminStage) -> Step
        ensures answer { result ≡ step.NotNow }
        ensures back { self.new ≡ record self.old { stage = stage } }
    {
        self.stage = stage;
        Step::NotNow
    }

    fn begin_read(&mut self, framed: Framed) -> Step
        requires { self.old.stage ≡ stage_is.Idle }
        ensures { does.begins self.old.is_linked (exchange_of framed) result self.old self.new }
    {
        let exchange = Exchange {
            wanted: wanted_of(&framed.message),
            sequence: framed.sequence,
            rows: 0,
        };
        drop(framed);
        self.begin(exchange)
    }

    fn begin(&mut self, exchange: Exchange) -> Step
        requires { self.old.stage ≡ stage_is.Idle }
        ensures { does.begins self.old.is_linked exchange result self.old self.new }
    {
        if self.is_linked {
            return self.await_reply(exchange);
        }
        self.stage = AdminStage::Dialling(exchange);
        Step::Dial
    }

    fn await_reply(&mut self, exchange: Exchange) -> Step
        ensures answer { result ≡ step.Send }
        ensures waits { self.new ≡ record (sent exchange self.old) { is_linked = self.old.is_linked } }
    {
        self.sequence = exchange.sequence.wrapping_add(1);
        self.stage = AdminStage::Waiting(exchange, Ear::new(self.alloc, Heard::Replies));
        Step::Send
    }

    fn hear(&mut self, exchange: Exchange, ear: Ear, piece: &[u8]) -> Step
        requires idle { self.old.stage ≡ stage_is.Idle }
        requires fits { is_fit ear.bytes piece.now ≡ true }
        ensures { does.HearsReply exchange ear piece.now result self.old self.new }
    {
        match ear.hear(piece) {
            Piece::More(ear) => {
                self.stage = AdminStage::Waiting(exchange, ear);
                Step::Wait
            }
            Piece::Whole(framed) => self.conclude(exchange, framed),
            Piece::Wrong(refusal) => {
                self.is_linked = false;
                Step::Over(fault_by(refusal))
            }
        }
    }

    // A reply is whole.
    fn conclude(&mut self, exchange: Exchange, framed: Framed) -> Step
        requires { self.old.stage ≡ stage_is.Idle }
        ensures { does.Concludes exchange framed result self.old self.new }
    {
        match next_of(exchange.wanted, exchange.sequence, exchange.rows, &framed) {
            Next::More => {
                let further = Exchange {
                    wanted: exchange.wanted,
                    sequence: exchange.sequence,
                    rows: exchange.rows + 1,
                };
                self.stage = AdminStage::Waiting(further, Ear::new(self.alloc, Heard::Replies));
                Step::Row(framed.message)
            }
            Next::Whole => Step::Reply(framed.message),
            Next::Wrong(fault) => {
                drop(framed);
                self.is_linked = false;
                Step::Over(fault)
            }
        }
    }
}
