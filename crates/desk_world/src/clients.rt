ghost use Rattle.std.specs.Prelude.{◌≡◌, [], ◌∷◌, ◌++◌, max, slice_get, Some, None, IfOk, MatchOption};
ghost use Rattle.desk_world.specs.Client.{unnamed};
ghost use Rattle.desk_world.specs.Clients.{kept};

use crate::known::Known;
use crate::replies::Reply;
use cynara_keys::Question;
use std::alloc::{AllocError, Global};
use std::marker::Model;

// A client, with its cache.
#[derive(Drop)]
pub struct Client {
    pub told: u64,
    pub link: Option<u32>,
    pub log: Vec<Known>,
    pub asking: Option<u32>,
}

impl Model for Client {
    ghost use Rattle.desk_world.specs.Client.{Client as Content};

    ghost Value = { Content };

    ghost view = { λ client. record {
      told = client.told;
      link = client.link;
      log = client.log.items;
      asking = client.asking;
    } };
}

// A client that an event has named, with its number.
#[derive(Drop)]
pub struct Slot {
    pub number: u32,
    pub client: Client,
}

impl Client {
    /// A client that no event has named.
    pub fn unnamed(alloc: Global) -> Client
        ensures { result ≡ unnamed }
    {
        Client {
            told: 0,
            link: None,
            log: Vec::new(alloc),
            asking: None,
        }
    }

    /// The verdict of this entry in the cache.
    pub fn known(&self, entry: u32) -> Option<&Known>
        ensures { MatchOption result (slice_get self.now.log entry ≡ None)
            (λ known. slice_get self.now.log entry ≡ Some known.now) }
    {
        self.log.get(entry as usize)
    }

    /// With another link, or none, and an empty cache.
    pub fn linked(mut self, link: Option<u32>) -> Client
        ensures { result ≡ record { told = self.told; link = link; log = []; asking = self.asking } }
    {
        self.log.clear();
        self.link = link;
        self
    }

    /// With this open ask, or none.
    pub fn asking(mut self, asking: Option<u32>) -> Client
        ensures { result ≡ record { told = self.told; link = self.link; log = self.log; asking = asking } }
    {
        self.asking = asking;
        self
    }

    /// With this told number, if it is the greater one.
    pub fn told(mut self, commit: u64) -> Client
        ensures { result ≡ record {
          told = max self.told commit;
          link = self.link;
          log = self.log;
          asking = self.asking;
        } }
    {
        self.told = self.told.max(commit);
        self
    }

    /// With one more verdict in its cache.
    pub fn keeping(mut self, known: Known) -> Result<Client, AllocError>
        ensures { IfOk result (λ client. client ≡ record {
          told = self.told;
          link = self.link;
          log = self.log ++ known ∷ [];
          asking = self.asking;
        }) }
    {
        self.log.push(known)?;
        Ok(self)
    }

    /// With the reply in its cache, if it is a verdict.
    pub fn receiving(self, question: Question, reply: &Reply) -> Result<Client, AllocError>
        ensures { IfOk result (λ client. client ≡ record {
          told = self.told;
          link = self.link;
          log = kept question reply.now self.log;
          asking = self.asking;
        }) }
    {
        match reply {
            Reply::Judged(verdict) => self.keeping(Known {
                question,
                verdict: *verdict,
            }),
            Reply::FromAgent { .. }
            | Reply::NotResolved { .. }
            | Reply::NoAgent { .. }
            | Reply::AgentGone { .. }
            | Reply::AgentFull { .. } => Ok(self),
        }
    }
}
