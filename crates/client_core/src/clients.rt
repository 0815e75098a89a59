ghost use Rattle.std.specs.Prelude.{◌≡◌, ◌<◌, ◌≤◌, [], IfOk};
ghost use Rattle.std.specs.Prelude.{OnOk, OnErr, true};
ghost use Rattle.std.specs.Option.{option_copied};
ghost use Rattle.answer_cache.specs.Cache.{asked_in, newest};
ghost use Rattle.answer_cache.specs.Limits.{most_entries};
ghost use Rattle.client_core.specs.Listening.{is_fit};
ghost use Rattle.client_core.specs.Client.{fresh, forgotten, raised, asked_by, frame_of, waiting};
ghost use Rattle.client_core.specs.Asking as does;
ghost use Rattle.client_core.specs.declared.steps.Step.TheVariants as step;
ghost use Rattle.client_core.specs.declared.stages.Stage.TheVariants as stage_is;

use crate::ears::{Ear, Piece};
use crate::faults::{fault_by, fault_in};
use crate::stages::{Asking, Stage, is_tried};
use crate::steps::{Fault, Step};
use answer_cache::AnswerCache;
use cynara_keys::{Name, Question};
use desk_ports::Bytes;
use std::alloc::{AllocError, Global};
use std::marker::Model;
use std::mem;
use wire_messages::{Framed, Heard, Message, PackedVerdict, encode_check_into};

/// Dials or connections that may fail in one question.
const MOST_TRIES: u32 = 3;

/// A launcher's or a daemon's side: it asks, and keeps what it was answered while the connection lasts.
#[derive(Drop)]
pub struct ClientMachine {
    alloc: Global,
    cache: AnswerCache,
    sequence: u16,
    frame: Bytes,
    is_linked: bool,
    stage: Stage,
}

impl Model for ClientMachine {
    ghost use Rattle.client_core.specs.Client.{Client};

    ghost Value = { Client };

    ghost view = { λ client. record {
      cache = client.cache;
      sequence = client.sequence;
      frame = client.frame;
      is_linked = client.is_linked;
      stage = client.stage;
    } };
}

impl ClientMachine {
    /// A client without a connection that keeps at most so many answers, 1 to 4,096, and was told of nothing.
    pub fn new(alloc: Global, entries: u32) -> Result<ClientMachine, AllocError>
        requires some { 0 < entries }
        requires most { entries ≤ most_entries }
        ensures { IfOk result (λ client. client ≡ fresh entries) }
    {
        let cache = AnswerCache::new(alloc, entries)?;
        Ok(ClientMachine {
            alloc,
            cache,
            sequence: 0,
            frame: Bytes::new(alloc),
            is_linked: false,
            stage: Stage::Idle,
        })
    }

    /// The commit was acknowledged: no answer is below it from now on.
    pub fn tell(&mut self, commit: u64)
        ensures { self.new ≡ does.told_of commit self.old }
    {
        self.cache.tell(commit);
    }

    /// The greatest commit that the client was told of, 0 before any.
    pub fn told(&self) -> u64
        ensures { result ≡ self.now.cache.told }
    {
        self.cache.told()
    }

    /// The frame of the question that was asked last.
    pub fn frame(&self) -> &[u8]
        ensures { result.now ≡ self.now.frame }
    {
        self.frame.as_slice()
    }

    /// How many bytes may come next, at most; 0 where none is waited for.
    pub fn wanted(&self) -> usize
        ensures { result ≡ does.wanted_at self.now.stage }
    {
        match &self.stage {
            Stage::Waiting(_, ear) => ear.wanted(),
            _ => 0,
        }
    }

    /// Asks whether the use of a privilege is granted; with `simple` no agent is asked. `Look` where a connection is
    /// there, and else `Dial`.
    pub fn ask(&mut self, session: Name, question: Question, simple: bool) -> Step
        ensures { does.Asks session question simple result self.old self.new }
    {
        if !matches!(self.stage, Stage::Idle) {
            return Step::NotNow;
        }
        let asking = Asking {
            session,
            question,
            simple,
            tries: MOST_TRIES,
            is_tried: false,
        };
        if self.is_linked {
            self.stage = Stage::Looking(asking);
            return Step::Look;
        }
        self.dial_first(asking)
    }

    /// The caller just looked, and the connection is up: whether what is kept under this text is the answer. The text
    /// is a session, a client, a user and a privilege, with a space between each two; one that is not made so has no
    /// answer. It does what `ask` and then `looked` do where they come to `Kept`, and nothing else; takes no memory,
    /// copies nothing.
    pub fn recall(&mut self, text: &[u8]) -> bool
        ensures { does.Recalls result text.now self.old self.new }
    {
        if !self.is_ready() {
            return false;
        }
        self.cache.recall(text)
    }

    /// The same for a question in its session, by their names.
    pub fn reuse(&mut self, session: &Name, question: &Question) -> bool
        ensures { does.Reuses result (asked_in session.now question.now) self.old self.new }
    {
        if !self.is_ready() {
            return false;
        }
        self.cache.has_answer(session, question)
    }

    // Whether it may answer from what is kept, once the connection was looked at.
    fn is_ready(&self) -> bool
        ensures { result ≡ does.is_ready self.now }
    {
        if !self.is_linked {
            return false;
        }
        matches!(self.stage, Stage::Idle)
    }

    /// The verdict that was kept or used last: behind `Kept`, and where `recall` found one, it is the answer. None
    /// where nothing is kept.
    pub fn newest(&self) -> Option<&PackedVerdict>
        ensures { option_copied result ≡ newest self.now.cache }
    {
        self.cache.newest()
    }

    /// The caller looked whether the connection is up. Where it is, a kept answer is `Kept`, and else the frame is to
    /// be sent: `Send`. Where it is down, no entry is kept, and it counts as one that failed: `Dial`.
    pub fn looked(&mut self, is_up: bool) -> Step
        ensures { does.Looks is_up result self.old self.new }
    {
        match mem::replace(&mut self.stage, Stage::Idle) {
            Stage::Looking(asking) => {
                if is_up {
                    self.find(asking)
                } else {
                    self.dial_anew(asking)
                }
            }
            other => self.not_now(other),
        }
    }

    /// The service was dialled: the frame is to be sent.
    pub fn dialled(&mut self) -> Step
        ensures { does.Dialled result self.old self.new }
    {
        match mem::replace(&mut self.stage, Stage::Idle) {
            Stage::Dialling(asking) => {
                self.is_linked = true;
                self.send(asking)
            }
            other => self.not_now(other),
        }
    }

    /// The connection ended, or could not be made. No entry is kept. A question that is under way goes on by `Dial`,
    /// until three dials or connections have failed: `Over` with `Unavailable`.
    pub fn down(&mut self) -> Step
        ensures { does.Falls result self.old self.new }
    {
        match mem::replace(&mut self.stage, Stage::Idle) {
            Stage::Idle => {
                self.forget();
                Step::Idle
            }
            Stage::Looking(asking) => self.dial_anew(asking),
            Stage::Dialling(asking) => self.try_again(asking),
            Stage::Waiting(asking, _) => self.try_again(asking),
        }
    }

    /// The caller gave the connection up. No entry is kept, and a question that was under way is over.
    pub fn leave(&mut self)
        ensures { self.new ≡ does.left self.old }
    {
        let stage = mem::replace(&mut self.stage, Stage::Idle);
        if is_tried(&stage) {
            self.raise();
        }
        self.forget();
    }

    /// These bytes came: some, and no more than are wanted. `Wait` where the reply is not whole with them, and else
    /// `Reply` with the answer or the refusal of the service, or `Over`.
    pub fn came(&mut self, piece: &[u8]) -> Step
        ensures { does.Comes piece.now result self.old self.new }
    {
        match mem::replace(&mut self.stage, Stage::Idle) {
            Stage::Waiting(asking, ear) => {
                if !ear.takes(piece) {
                    self.stage = Stage::Waiting(asking, ear);
                    return Step::BadCount;
                }
                self.hear(asking, ear, piece)
            }
            other => self.not_now(other),
        }
    }

    fn not_now(&mut self, stage: Stage) -> Step
        ensures answer { result ≡ step.NotNow }
        ensures back { self.new ≡ record self.old { stage = stage } }
    {
        self.stage = stage;
        Step::NotNow
    }

    // No connection is there.
    fn forget(&mut self)
        ensures { self.new ≡ record (forgotten self.old) { stage = self.old.stage } }
    {
        self.cache.clear();
        self.is_linked = false;
    }

    // The next frame has another number.
    fn raise(&mut self)
        ensures { self.new ≡ raised true self.old }
    {
        self.sequence = self.sequence.wrapping_add(1);
    }

    // Spells the question.
    fn spell(&mut self, asking: &Asking) -> Result<(), AllocError>
        ensures spelled { OnOk result (self.new ≡ record self.old { frame = frame_of self.old.sequence asking.now }) }
        ensures emptied { OnErr result (self.new ≡ record self.old { frame = [] }) }
    {
        encode_check_into(
            &mut self.frame,
            self.sequence,
            asking.simple,
            &asking.question,
        )
    }

    // There is no connection.
    fn dial_first(&mut self, asking: Asking) -> Step
        requires { self.old.stage ≡ stage_is.Idle }
        ensures { does.Dials asking result self.old self.new }
    {
        self.forget();
        match self.spell(&asking) {
            Ok(()) => {
                self.stage = Stage::Dialling(asking);
                Step::Dial
            }
            Err(error) => Step::Over(Fault::Memory(error)),
        }
    }

    // The connection was found to be down, which costs one try.
    fn dial_anew(&mut self, asking: Asking) -> Step
        requires { self.old.stage ≡ stage_is.Idle }
        ensures { does.Redials asking result self.old self.new }
    {
        let mut asking = asking;
        asking.tries = MOST_TRIES - 1;
        self.dial_first(asking)
    }

    // A dial or a connection failed.
    fn try_again(&mut self, asking: Asking) -> Step
        requires { self.old.stage ≡ stage_is.Idle }
        ensures { does.Retries asking result self.old self.new }
    {
        self.forget();
        if asking.tries <= 1 {
            if asking.is_tried {
                self.raise();
            }
            return Step::Over(Fault::Unavailable);
        }
        let mut asking = asking;
        asking.tries -= 1;
        self.stage = Stage::Dialling(asking);
        Step::Dial
    }

    // The connection is up: a kept answer is at hand, or the frame is to be sent.
    fn find(&mut self, asking: Asking) -> Step
        requires { self.old.stage ≡ stage_is.Idle }
        ensures { does.Finds asking result self.old self.new }
    {
        if self.cache.has_answer(&asking.session, &asking.question) {
            return Step::Kept;
        }
        match self.spell(&asking) {
            Ok(()) => self.send(asking),
            Err(error) => {
                self.forget();
                Step::Over(Fault::Memory(error))
            }
        }
    }

    fn send(&mut self, asking: Asking) -> Step
        ensures answer { result ≡ step.Send }
        ensures waits { self.new ≡ record self.old { stage = waiting asking } }
    {
        let mut asking = asking;
        asking.is_tried = true;
        self.stage = Stage::Waiting(asking, Ear::new(self.alloc, Heard::Replies));
        Step::Send
    }

    fn hear(&mut self, asking: Asking, ear: Ear, piece: &[u8]) -> Step
        requires idle { self.old.stage ≡ stage_is.Idle }
        requires fits { is_fit ear.bytes piece.now ≡ true }
        ensures { does.HearsReply asking ear piece.now result self.old self.new }
    {
        match ear.hear(piece) {
            Piece::More(ear) => {
                self.stage = Stage::Waiting(asking, ear);
                Step::Wait
            }
            Piece::Whole(framed) => self.conclude(asking, framed),
            Piece::Wrong(refusal) => {
                self.forget();
                self.raise();
                Step::Over(fault_by(refusal))
            }
        }
    }

    // The reply is whole.
    fn conclude(&mut self, asking: Asking, framed: Framed) -> Step
        requires { self.old.stage ≡ stage_is.Idle }
        ensures { does.Concludes asking framed result self.old self.new }
    {
        let fault = fault_in(self.sequence, self.cache.told(), &framed);
        self.raise();
        match fault {
            Some(fault) => {
                drop(framed);
                self.forget();
                Step::Over(fault)
            }
            None => {
                self.keep(&asking, &framed.message);
                Step::Reply(framed.message)
            }
        }
    }

    // Keeps a verdict of the policies. One that an agent has to give is not kept.
    fn keep(&mut self, asking: &Asking, message: &Message)
        ensures rest { self.new ≡ record self.old { cache = self.new.cache } }
        ensures kept { does.IsKept (asked_by asking.now) message.now self.old.cache self.new.cache }
    {
        match message {
            Message::Judged { verdict } => {
                if verdict.kind().is_agent() {
                    return;
                }
                self.cache.keep(&asking.session, &asking.question, verdict);
            }
            _ => {}
        }
    }
}
