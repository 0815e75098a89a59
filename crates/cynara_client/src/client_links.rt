ghost use Rattle.std.specs.Prelude.{◌≡◌, ◌<◌, ◌≤◌, true, false, max, IfOk, None};
ghost use Rattle.answer_cache.specs.Limits.{most_entries};
ghost use Rattle.answer_cache.specs.Cache.{asked_in, empty_cache};
ghost use Rattle.cynara_client.specs.State.{with_dial};
ghost use Rattle.cynara_client.specs.Checking.{Checks, Leaves};

use crate::asking::ask;
use crate::{Checked, ClientRefusal};
use client_core::ClientMachine;
use cynara_keys::{Name, Question};
use link_ports::Dial;
use std::alloc::{AllocError, Global};
use std::marker::Model;

/// What a client keeps between its checks: its link, if there is one, its answers, and the number of the next frame.
/// The dialler is lent to each call, always the same one.
#[derive(Drop)]
pub struct ClientLink<N: Dial> {
    link: Option<N::Link>,
    machine: ClientMachine,
}

impl<N: Dial> Model for ClientLink<N> {
    ghost use Rattle.std.specs.Prelude.{◌≡◌};
    ghost use Rattle.std.specs.Option.{ForSome};
    ghost use Rattle.cynara_client.specs.State.{Kept};
    ghost use Rattle.cynara_client.specs.parts.States.{IsAtRest};

    ghost Value = { Kept N.Link };

    ghost view = { λ kept. record {
      link = kept.link;
      cache = kept.machine.cache;
      sequence = kept.machine.sequence;
    } };

    // Nothing is under way, and nobody but the service can hang up the link.
    ghost invariant = { λ kept. IsAtRest kept.link kept.machine
        × ForSome kept.link (λ link. (N.Link.marks link).ends ≡ 0) };
}

impl<N: Dial> ClientLink<N> {
    /// Without a link; it keeps at most so many answers, 1 to 4,096, and was told of nothing.
    pub fn new(alloc: Global, entries: u32) -> Result<ClientLink<N>, AllocError>
        requires some { 0 < entries }
        requires most { entries ≤ most_entries }
        ensures { IfOk result (λ kept. kept ≡ record { link = None; cache = empty_cache entries; sequence = 0 }) }
    {
        let machine = ClientMachine::new(alloc, entries)?;
        Ok(ClientLink {
            link: None,
            machine,
        })
    }

    /// The commit was acknowledged: no answer is below it from now on.
    pub fn tell(&mut self, commit: u64)
        ensures { self.new ≡ record self.old {
          cache = record self.old.cache
              { told = max self.old.cache.told commit };
        } }
    {
        self.machine.tell(commit);
    }

    /// The greatest commit that it was told of, 0 before any.
    pub fn told(&self) -> u64
        ensures { result ≡ self.now.cache.told }
    {
        self.machine.told()
    }

    /// Asks whether the use of a privilege is granted; an agent may be asked. It may wait.
    pub fn check(
        &mut self,
        dial: &mut N,
        session: &Name,
        question: &Question,
    ) -> Result<Checked, ClientRefusal>
        ensures { Checks N.Link.faults N.Link.marks N.Link.traffic N.Link.content N.faults N.dials N.given_back
            (asked_in session.now question.now) false result
            (with_dial dial.old self.old) (with_dial dial.new self.new) }
    {
        let ended = ask(
            &mut self.machine,
            dial,
            self.link.take(),
            session,
            question,
            false,
        );
        self.link = ended.link;
        ended.answer
    }

    /// Asks the same, and no agent is asked. It may wait.
    pub fn simple_check(
        &mut self,
        dial: &mut N,
        session: &Name,
        question: &Question,
    ) -> Result<Checked, ClientRefusal>
        ensures { Checks N.Link.faults N.Link.marks N.Link.traffic N.Link.content N.faults N.dials N.given_back
            (asked_in session.now question.now) true result
            (with_dial dial.old self.old) (with_dial dial.new self.new) }
    {
        let ended = ask(
            &mut self.machine,
            dial,
            self.link.take(),
            session,
            question,
            true,
        );
        self.link = ended.link;
        ended.answer
    }

    /// Gives the link back, if there is one. No entry is kept.
    pub fn leave(&mut self, dial: &mut N)
        ensures { Leaves N.Link.faults N.Link.marks N.faults N.dials N.given_back
            (with_dial dial.old self.old) (with_dial dial.new self.new) }
    {
        self.machine.leave();
        let Some(link) = self.link.take() else {
            return;
        };
        dial.give_back(link);
    }
}
