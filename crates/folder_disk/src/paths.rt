// Paths of a folder's files, and of the folder that it stands in. None asks for memory: those of files have a room that
// is made once, the others lie in their value.
ghost use Rattle.std.specs.Prelude.{◌≡◌, ◌≤◌, ◌<◌, ◌+◌, [], ◌∷◌, ◌++◌, length, true, false, IfSome, IfNone, IfOk};
ghost use Rattle.desk_ports.specs.FileName.{IsFileName};
ghost use Rattle.folder_disk.specs.Paths.{file_path as path_of_file, parent_path as path_of_parent};
ghost use Rattle.folder_disk.specs.Paths.{names_path as path_of_names, partner_name};

use crate::file_name_bytes::is_file_name;
use arrayvec::ArrayString;
use std::alloc::{AllocError, Global};
use std::marker::Model;

/// The most bytes of a path that the machine takes.
pub const MOST_PATH_BYTES: usize = 4_095;

/// A path that the machine takes, if nothing else is wrong with it.
pub type Path = ArrayString<MOST_PATH_BYTES>;

/// Room for the path of one file of the folder after the other. The longest path that the machine takes fits, so that
/// none asks for memory.
#[derive(Drop)]
pub struct PathRoom {
    text: String,
}

impl Model for PathRoom {
    ghost use Rattle.std.specs.Prelude.{◌≤◌, List, ℕ, string_bytes, string_capacity};

    ghost Value = { List ℕ };

    ghost view = { λ room. string_bytes room.text };

    ghost invariant = { λ room. 4_095 ≤ string_capacity room.text };
}

impl PathRoom {
    /// Room in which no path stands yet.
    pub fn new(alloc: Global) -> Result<PathRoom, AllocError>
        ensures { IfOk result (λ room. room ≡ []) }
    {
        let text = String::with_capacity(alloc, MOST_PATH_BYTES)?;
        Ok(PathRoom { text })
    }

    /// The path that stands in it.
    pub fn as_str(&self) -> &str
        ensures { result.now ≡ self.now }
    {
        self.text.as_str()
    }

    /// Has the path of a file in the folder stand in it. Whether that is no longer than the machine takes.
    pub fn set_file(&mut self, folder: &str, name: &[u8]) -> bool
        requires { IsFileName name.now }
        ensures path { result ≡ true → self.new ≡ path_of_file folder.now name.now }
        ensures long { result ≡ false → 4_095 < length (path_of_file folder.now name.now) }
    {
        self.set(folder, name_text(name))
    }

    /// Has the path of a file's backup stand in it, or of the file that this one is a backup of. Whether that is a file
    /// name, and no longer than the machine takes.
    pub fn set_partner(&mut self, folder: &str, name: &[u8]) -> bool
        requires { IsFileName name.now }
        ensures { result ≡ true → self.new ≡ path_of_file folder.now (partner_name name.now) }
    {
        if !name.ends_with(b"~".as_slice()) {
            return self.set_backup(folder, name);
        }
        let front = &name[..name.len().saturating_sub(1)];
        if is_file_name(front) {
            self.set_file(folder, front)
        } else {
            false
        }
    }

    fn set_backup(&mut self, folder: &str, name: &[u8]) -> bool
        requires { IsFileName name.now }
        ensures { result ≡ true → self.new ≡ path_of_file folder.now (name.now ++ 126 ∷ []) }
    {
        if !self.set_file(folder, name) {
            return false;
        }
        if self.text.len() >= MOST_PATH_BYTES {
            return false;
        }
        self.append("~");
        true
    }

    fn set(&mut self, folder: &str, name: &str) -> bool
        ensures path { result ≡ true → self.new ≡ path_of_file folder.now name.now }
        ensures long { result ≡ false → 4_095 < length (path_of_file folder.now name.now) }
    {
        // The slash takes one byte of what the folder leaves.
        if name.len() >= MOST_PATH_BYTES.saturating_sub(folder.len()) {
            return false;
        }
        self.text.clear();
        self.append(folder);
        self.append("/");
        self.append(name);
        true
    }

    fn append(&mut self, text: &str)
        requires { length self.old + length text.now ≤ 4_095 }
        ensures { self.new ≡ self.old ++ text.now }
    {
        let Ok(()) = self.text.push_str(text) else {
            unreachable!()
        };
    }
}

// The name as a text: its bytes are ASCII.
fn name_text(name: &[u8]) -> &str
    requires { IsFileName name.now }
    ensures { result.now ≡ name.now }
{
    match str::from_utf8(name) {
        Ok(text) => text,
        Err(_) => unreachable!(),
    }
}

/// The path of the folder that the folder stands in. The machine follows it, so it holds for every path of a folder.
pub fn parent_path(folder: &str) -> Option<Path>
    ensures path { IfSome result (λ path. path.bytes ≡ path_of_parent folder.now) }
    ensures long { IfNone result (4_095 < length (path_of_parent folder.now)) }
{
    joined(folder, "/..")
}

/// The path by which the folder's names are listed: a link in place of the folder is followed where a slash stands
/// behind it.
pub fn names_path(folder: &str) -> Option<Path>
    ensures path { IfSome result (λ path. path.bytes ≡ path_of_names folder.now) }
    ensures long { IfNone result (4_095 < length (path_of_names folder.now)) }
{
    joined(folder, "/")
}

fn joined(folder: &str, end: &str) -> Option<Path>
    ensures path { IfSome result (λ path. path.bytes ≡ folder.now ++ end.now) }
    ensures long { IfNone result (4_095 < length (folder.now ++ end.now)) }
{
    let mut path = Path::from(folder).ok()?;
    path.try_push_str(end).ok()?;
    Some(path)
}
