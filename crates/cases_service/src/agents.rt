// An agent's run over the service.
use crate::answers::said;
use crate::gates::HoldingGate;
use agent_runs::agent_client;
use cases_words::{Failure, fails, first_number};
use cynara_keys::Kind;
use desk_ports::{Bytes, Failed, MemSink, PortFault};
use link_ports::{Dial, DoorKind, Link};
use std::alloc::Global;
use std::sync::Wait;
use std::time::Clock;

/// A link that tells a gate each time that something came over it.
#[derive(Drop)]
pub struct HeardLink<'a, W: Wait + Clock + Copy + Drop, L: Link> {
    link: L,
    gate: &'a HoldingGate<W>,
}

impl<'a, W: Wait + Clock + Copy + Drop, L: Link> Link for HeardLink<'a, W, L> {
    type End = L::End;

    ghost faults = { λ heard. L.faults heard.link };

    ghost marks = { λ heard. L.marks heard.link };

    ghost traffic = { λ heard. L.traffic heard.link };

    ghost content = { λ heard. L.content heard.link };

    fn send(&mut self, from: &[u8]) -> Result<(), Failed> {
        self.link.send(from)
    }

    fn receive(&mut self, into: &mut [u8]) -> Result<usize, Failed> {
        let received = self.link.receive(into);
        self.gate.heard.raise();
        received
    }

    fn is_up(&mut self) -> bool {
        self.link.is_up()
    }

    fn has_come(&mut self) -> bool {
        self.link.has_come()
    }

    fn hang_end(&mut self) -> Result<L::End, PortFault> {
        self.link.hang_end()
    }
}

/// Runs an agent by the words `KIND ANSWER`, once it is called, until its link ends: how it ended, and what it wrote.
/// Nothing where there are no words.
pub fn run<R: Wait, W: Wait + Clock + Copy + Drop, N: Dial>(
    rt: &R,
    alloc: Global,
    gate: &HoldingGate<W>,
    net: &mut N,
    words: &str,
) -> Result<String, Failure> {
    if words.is_empty() {
        return Ok(String::new(alloc));
    }
    let (kind, answer) = first_number(words)?;
    let Ok(kind) = u16::try_from(kind) else {
        return Err(Failure::Words);
    };
    gate.called.wait_for(1)?;
    let mut sink = MemSink::new(Bytes::new(alloc), fails(alloc, "-")?)?;
    let link = net.dial(DoorKind::Agent)?;
    let mut link = HeardLink { link, gate };
    let ending = agent_client(
        rt,
        alloc,
        Kind(kind),
        answer == "allow",
        &mut link,
        &mut sink,
    );
    Ok(said(alloc, ending, &mut sink)?)
}
