// Whether a folder's names are those of a store.
ghost use Rattle.std.specs.Prelude.{◌≡◌, ◌&&◌, ◌||◌, not, true, false, is_some};
ghost use Rattle.desk_ports.specs.FileName.{IsFileName};
ghost use Rattle.folder_disk.specs.StoreNames as own;

use arrayvec::ArrayString;

const LIST: &[u8] = b"list";

const GUARD: &[u8] = b"guard";

const STAMP: &[u8] = b"stamp";

const BUCKETS: &[u8] = b"buckets";

const USERS: &[u8] = b"users";

const APPS: &[u8] = b"apps";

const TEMPLATE: &[u8] = b"template";

const BUCKET: &[u8] = b"_";

const RULES: &[u8] = b"r.";

const TILDE: &[u8] = b"~";

/// A name, for a person to read.
type ShownName = ArrayString<255>;

/// Two names and the word between them.
pub type ShownNames = ArrayString<515>;

/// What was seen of a folder's names: whether one is that of the list or the guard, and the two least that are those of
/// a policy state's files.
#[derive(Drop)]
pub struct StoreSigns {
    marked: bool,
    least: Option<ShownName>,
    next: Option<ShownName>,
}

impl StoreSigns {
    /// The signs of a folder of which no name was seen yet.
    pub fn none() -> StoreSigns
        ensures marked { result.marked ≡ false }
        ensures least { is_some result.least ≡ false }
    {
        StoreSigns {
            marked: false,
            least: None,
            next: None,
        }
    }

    /// Whether there are files of a policy state, and neither the list nor the guard.
    pub fn are_of_no_store(&self) -> bool
        ensures { result ≡ (not self.now.marked && is_some self.now.least) }
    {
        !self.marked && self.least.is_some()
    }

    /// Notes one more name.
    pub fn note(&mut self, name: &[u8])
        requires { IsFileName name.now }
        ensures marked { self.new.marked ≡ (self.old.marked || own.is_mark name.now) }
        ensures least { is_some self.new.least ≡ (is_some self.old.least || own.is_primary name.now) }
    {
        if is_mark(name) {
            self.marked = true;
        }
        if is_primary(name) {
            self.keep(shown_name(name));
        }
    }

    fn keep(&mut self, name: ShownName)
        ensures marked { self.new.marked ≡ self.old.marked }
        ensures least { is_some self.new.least ≡ true }
    {
        match self.least {
            None => self.least = Some(name),
            Some(least) => {
                self.next = Some(self.next_of(least.max(name)));
                self.least = Some(least.min(name));
            }
        }
    }

    // The lesser of this name and the one that was the next.
    fn next_of(&self, name: ShownName) -> ShownName {
        match self.next {
            None => name,
            Some(next) => next.min(name),
        }
    }

    /// The two least names of files of a policy state, or the one that there is, for a person to read.
    pub fn shown(&self) -> Option<ShownNames> {
        let mut text = ShownNames::new();
        text.try_push_str(self.least.as_ref()?.as_str()).ok()?;
        let Some(next) = &self.next else {
            return Some(text);
        };
        text.try_push_str(" and ").ok()?;
        text.try_push_str(next.as_str()).ok()?;
        Some(text)
    }
}

// The name as a text.
fn shown_name(name: &[u8]) -> ShownName
    requires { IsFileName name.now }
{
    match str::from_utf8(name) {
        Ok(text) => ShownName::from(text).unwrap_or_default(),
        Err(_) => ShownName::new(),
    }
}

#[tactic(auto, unfolding(crate::specs::StoreNames::is_mark))]
fn is_mark(name: &[u8]) -> bool
    ensures { result ≡ own.is_mark name.now }
{
    name == LIST || name == GUARD
}

#[tactic(auto, unfolding(crate::specs::StoreNames::is_primary))]
fn is_primary(name: &[u8]) -> bool
    ensures { result ≡ own.is_primary name.now }
{
    ((name == STAMP || name == BUCKETS || name == USERS || name == APPS || name == TEMPLATE)
        || (name.starts_with(BUCKET) || name.starts_with(RULES)))
        && !name.ends_with(TILDE)
}
