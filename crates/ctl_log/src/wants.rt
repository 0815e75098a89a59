// Which checks are wanted.
ghost use Rattle.std.specs.Prelude.{◌≡◌};
ghost use Rattle.ctl_log.specs.Wanting as word;

use crate::entries::Entry;
use crate::times::is_since;

/// Which checks are wanted: those that have each of these that is given.
#[derive(Clone, Copy)]
pub struct Wanted<'a> {
    pub client: Option<&'a [u8]>,
    pub user: Option<&'a [u8]>,
    pub privilege: Option<&'a [u8]>,
    pub result: Option<&'a [u8]>,
    /// From this time on, or from its front. A check whose time is not known is not wanted then.
    pub since: Option<&'a [u8]>,
}

impl Wanted<'_> {
    /// Whether the check is wanted.
    pub(crate) fn takes(&self, entry: &Entry<'_>) -> bool
        ensures { result ≡ word.takes self.now entry.now }
    {
        let decision = &entry.decision;
        is_it(self.client, decision.client)
            && is_it(self.user, decision.user)
            && is_it(self.privilege, decision.privilege)
            && is_it(self.result, decision.result)
            && self.takes_time(entry)
    }

    fn takes_time(&self, entry: &Entry<'_>) -> bool
        ensures { result ≡ word.is_in_time self.now.since entry.now.decider }
    {
        let Some(since) = self.since else {
            return true;
        };
        match &entry.decider {
            Some(decider) => is_since(decider.time, since),
            None => false,
        }
    }
}

// Whether the text is the one that is wanted, where one is.
fn is_it(wanted: Option<&[u8]>, text: &[u8]) -> bool
    ensures { result ≡ word.is_it wanted.entry text.now }
{
    match wanted {
        Some(wanted) => wanted == text,
        None => true,
    }
}
