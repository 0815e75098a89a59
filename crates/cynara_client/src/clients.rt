ghost use Rattle.std.specs.Prelude.{◌≡◌, ◌<◌, ◌≤◌, true, false, max, IfOk, None};
ghost use Rattle.answer_cache.specs.Limits.{most_entries};
ghost use Rattle.answer_cache.specs.Cache.{asked_in, empty_cache};
ghost use Rattle.cynara_client.specs.Checking.{Checks};

use crate::{Checked, ClientLink, ClientRefusal};
use cynara_keys::{Name, Question};
use link_ports::Dial;
use std::alloc::{AllocError, Global};
use std::marker::Model;

/// A client of the service that keeps what it was answered. It dials a link when it needs one, and keeps it.
#[derive(Drop)]
pub struct Client<N: Dial> {
    dial: N,
    kept: ClientLink<N>,
}

impl<N: Dial> Model for Client<N> {
    ghost use Rattle.cynara_client.specs.State.{State, with_dial};

    ghost Value = { State N N.Link };

    ghost view = { λ client. with_dial client.dial client.kept };
}

impl<N: Dial> Client<N> {
    /// A client without a link that keeps at most so many answers, 1 to 4,096, and was told of nothing.
    pub fn new(alloc: Global, dial: N, entries: u32) -> Result<Client<N>, AllocError>
    where
        N: Drop,
        requires some { 0 < entries }
        requires most { entries ≤ most_entries }
        ensures { IfOk result (λ client. client ≡ record {
          dial = dial;
          link = None;
          cache = empty_cache entries;
          sequence = 0;
        }) }
    {
        let kept = ClientLink::new(alloc, entries)?;
        Ok(Client { dial, kept })
    }

    /// The commit was acknowledged: no answer is below it from now on.
    pub fn tell(&mut self, commit: u64)
        ensures { self.new ≡ record self.old {
          cache = record self.old.cache
              { told = max self.old.cache.told commit };
        } }
    {
        self.kept.tell(commit);
    }

    /// The greatest commit that the client was told of, 0 before any.
    pub fn told(&self) -> u64
        ensures { result ≡ self.now.cache.told }
    {
        self.kept.told()
    }

    /// Asks whether the use of a privilege is granted; an agent may be asked. It may wait.
    pub fn check(&mut self, session: &Name, question: &Question) -> Result<Checked, ClientRefusal>
        ensures { Checks N.Link.faults N.Link.marks N.Link.traffic N.Link.content N.faults N.dials N.given_back
            (asked_in session.now question.now) false result self.old self.new }
    {
        self.kept.check(&mut self.dial, session, question)
    }

    /// Asks the same, and no agent is asked. It may wait.
    pub fn simple_check(
        &mut self,
        session: &Name,
        question: &Question,
    ) -> Result<Checked, ClientRefusal>
        ensures { Checks N.Link.faults N.Link.marks N.Link.traffic N.Link.content N.faults N.dials N.given_back
            (asked_in session.now question.now) true result self.old self.new }
    {
        self.kept.simple_check(&mut self.dial, session, question)
    }
}
