// Those that talk with the service.
use crate::answers::{check_text, said};
use crate::gates::HoldingGate;
use admin_runs::run_admin;
use cases_outside::NamedLinks;
use cases_words::{Failure, fails, first_number, first_word, put_word};
use cynara_client::Client;
use cynara_keys::{Name, Question};
use desk_ports::{Bytes, MemSink, MemSource};
use link_ports::{Dial, DoorKind};
use std::alloc::{AllocError, Global};
use std::sync::Wait;
use std::time::Clock;

/// Links, a client that keeps its answers, and what was answered.
#[derive(Drop)]
pub struct People<N: Dial> {
    alloc: Global,
    net: N,
    client: Client<N>,
    links: NamedLinks<N::Link>,
    told: String,
}

// How many entries the client keeps.
const ENTRIES: u32 = 8;

impl<N: Dial + Drop> People<N> {
    /// People who dial `net` for links of their own, with a client that dials its own net. Fails only for want of
    /// memory.
    pub fn new(alloc: Global, net: N, client: N) -> Result<People<N>, AllocError> {
        let client = Client::new(alloc, client, ENTRIES)?;
        Ok(People {
            alloc,
            net,
            client,
            links: NamedLinks::new(alloc),
            told: String::new(alloc),
        })
    }

    /// Does these steps.
    pub fn do_steps<W: Wait + Clock + Copy + Drop>(
        &mut self,
        gate: &HoldingGate<W>,
        steps: &str,
    ) -> Result<(), Failure> {
        for step in steps.split(';') {
            self.do_step(gate, step.trim())?;
        }
        Ok(())
    }

    /// Lets all links go, and stops the service, where that was not done.
    pub fn leave(&mut self) {
        self.links.clear();
        let _ = self.command("stop");
    }

    /// What was answered.
    pub fn told(&self) -> &str {
        self.told.as_str()
    }

    fn do_step<W: Wait + Clock + Copy + Drop>(
        &mut self,
        gate: &HoldingGate<W>,
        step: &str,
    ) -> Result<(), Failure> {
        let alloc = self.alloc;
        let (word, rest) = first_word(step);
        match word {
            "" => Ok(()),
            "client" => self.dial(DoorKind::Client, rest),
            "admin" => self.dial(DoorKind::Admin, rest),
            "agent" => self.dial(DoorKind::Agent, rest),
            "check" => self.check(false, rest),
            "simple" => self.check(true, rest),
            "tell" => Ok(self.client.tell(u64::from(first_number(rest)?.0))),
            "do" => self.put_command(rest),
            "answered" => gate.answered.wait_for(first_number(rest)?.0),
            "heard" => gate.heard.wait_for(first_number(rest)?.0),
            _ => self.links.speak(alloc, word, rest, &mut self.told),
        }
    }

    fn dial(&mut self, kind: DoorKind, name: &str) -> Result<(), Failure> {
        let alloc = self.alloc;
        let link = self.net.dial(kind)?;
        self.links.put(alloc, name, link)
    }

    fn check(&mut self, simple: bool, word: &str) -> Result<(), Failure> {
        let alloc = self.alloc;
        let session = Name::read(alloc, b"s")?;
        let question = question_of(alloc, word)?;
        let answer = if simple {
            self.client.simple_check(&session, &question)
        } else {
            self.client.check(&session, &question)
        };
        let text = check_text(alloc, &answer)?;
        Ok(put_word(&mut self.told, text.as_str())?)
    }

    fn put_command(&mut self, line: &str) -> Result<(), Failure> {
        let text = self.command(line)?;
        Ok(put_word(&mut self.told, text.as_str())?)
    }

    // Has the command `admin` run with a script of this line.
    fn command(&mut self, line: &str) -> Result<String, Failure> {
        let alloc = self.alloc;
        let mut script = Bytes::new(alloc);
        script.append(line.as_bytes())?;
        let mut source = MemSource::new(script, fails(alloc, "-")?)?;
        let mut sink = MemSink::new(Bytes::new(alloc), fails(alloc, "-")?)?;
        let ending = run_admin(alloc, &mut source, &mut sink, &mut self.net);
        Ok(said(alloc, ending, &mut sink)?)
    }
}

// The question of three letters.
fn question_of(alloc: Global, word: &str) -> Result<Question, Failure> {
    let [client, user, privilege] = word.as_bytes() else {
        return Err(Failure::Words);
    };
    let client = Name::read(alloc, &[*client])?;
    let user = Name::read(alloc, &[*user])?;
    let privilege = Name::read(alloc, &[*privilege])?;
    Ok(Question::of(
        alloc,
        client.as_slice(),
        user.as_slice(),
        privilege.as_slice(),
    )?)
}
