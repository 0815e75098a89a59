// Which names a store has of its own in its folder.
ghost use Rattle.std.specs.Prelude.{◌≡◌};
ghost use Rattle.std.specs.List.{list_all};
ghost use Rattle.std.specs.Str.{bytes_eq};
ghost use Rattle.desk_ports.specs.FileName.{is_file_name_byte};
ghost use Rattle.guard_files.specs.OwnName as own;

const GUARD: &[u8] = b"guard";

const LIST: &[u8] = b"list";

const STAMP: &[u8] = b"stamp";

const BUCKETS: &[u8] = b"buckets";

const USERS: &[u8] = b"users";

const APPS: &[u8] = b"apps";

const TEMPLATE: &[u8] = b"template";

const BUCKET: &[u8] = b"_";

const RULES: &[u8] = b"r.";

const TILDE: &[u8] = b"~";

const MOST_LISTABLE: usize = 254;

/// Whether the name is the guard's.
pub fn is_guard(name: &[u8]) -> bool
    ensures { result ≡ bytes_eq name.now own.guard_name }
{
    name == GUARD
}

/// Whether the name is the list's.
pub fn is_list(name: &[u8]) -> bool
    ensures { result ≡ bytes_eq name.now own.list_name }
{
    name == LIST
}

#[tactic(auto, unfolding(crate::specs::OwnName::is_backup))]
/// Whether the name is that of a backup: it ends with `~`.
pub fn is_backup(name: &[u8]) -> bool
    ensures { result ≡ own.is_backup name.now }
{
    name.ends_with(TILDE)
}

#[tactic(auto, unfolding(crate::specs::OwnName::is_desk_name))]
fn is_desk_name(name: &[u8]) -> bool
    ensures { result ≡ own.is_desk_name name.now }
{
    (name == STAMP || name == BUCKETS || name == USERS || name == APPS || name == TEMPLATE)
        || (name.starts_with(BUCKET) || name.starts_with(RULES))
}

#[tactic(auto, unfolding(crate::specs::OwnName::is_primary))]
fn is_primary(name: &[u8]) -> bool
    ensures { result ≡ own.is_primary name.now }
{
    is_guard(name) || is_list(name) || is_desk_name(name)
}

/// Whether the name is an own name of the store.
#[tactic(auto, unfolding(crate::specs::OwnName::is_own))]
pub fn is_own(name: &[u8]) -> bool
    ensures { result ≡ own.is_own name.now }
{
    is_primary(name) || (is_backup(name) && is_primary(&name[..name.len().saturating_sub(1)]))
}

fn is_name_byte(byte: u8) -> bool
    ensures { result ≡ is_file_name_byte byte }
{
    matches!(byte, b'a'..=b'z' | b'A'..=b'Z' | b'0'..=b'9' | b'.' | b'_' | b'-' | b'~')
}

fn are_name_bytes(bytes: &[u8]) -> bool
    ensures { result ≡ list_all is_file_name_byte bytes.now }
{
    bytes.iter().all(|byte| is_name_byte(*byte))
}

/// Whether a list of a set's files may have this name: a file name of at most 254 bytes and an own name, but not the
/// guard's, not the list's and not that of a backup.
#[tactic(auto, unfolding(crate::specs::OwnName::is_listable))]
pub fn is_listable(name: &[u8]) -> bool
    ensures { result ≡ own.is_listable name.now }
{
    (!name.is_empty() && name.len() <= MOST_LISTABLE && are_name_bytes(name))
        && (!is_guard(name) && !is_list(name) && !is_backup(name) && is_own(name))
}
