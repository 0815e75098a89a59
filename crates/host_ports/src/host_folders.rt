// The directory of the folder and of the sockets.
ghost use Rattle.std.specs.Prelude.{◌≡◌, IfOk, option_map, string_bytes};
ghost use Rattle.host_ports.specs.HostFolder.{folder_in, folder_of};

use std::alloc::{AllocError, Global};
use std::env::{Env, FillError};

/// The longest path that the machine takes.
pub const MOST_PATH_BYTES: usize = 4_096;

/// The variable that names the directory of the folder and of the sockets.
pub const DIRECTORY: &str = "PRIVILEGE_DIR";

/// The path in place of a directory's that can't be one: no socket has such a path.
const NO_DIRECTORY: &str = "\0";

/// The directory that the variable names. It is the empty text, which stands for the working directory, where the
/// variable is empty or not set, and there is none where the variable is no UTF-8 or longer than a path may be.
pub fn directory_path<E: Env>(env: &E, alloc: Global) -> Result<Option<String>, AllocError> {
    let mut buffer = [0; MOST_PATH_BYTES];
    let length = match env.var(DIRECTORY, &mut buffer) {
        Ok(length) => length,
        Err(FillError::NotPresent) => 0,
        Err(FillError::TooLong) => return Ok(None),
    };
    match str::from_utf8(&buffer[..length]) {
        Ok(directory) => Ok(Some(String::from_str(alloc, directory)?)),
        Err(_) => Ok(None),
    }
}

/// The path of the folder. It is empty where there is no directory: no folder has that path.
pub fn folder_path(alloc: Global, directory: &Option<String>) -> Result<String, AllocError>
    ensures { IfOk result (λ path. string_bytes path ≡ folder_of (option_map string_bytes directory.now)) }
{
    match directory {
        Some(directory) => folder_in(alloc, directory.as_str()),
        None => Ok(String::new(alloc)),
    }
}

/// The path of the directory of the sockets.
pub fn sockets_path(directory: &Option<String>) -> &str {
    match directory {
        Some(directory) => directory.as_str(),
        None => NO_DIRECTORY,
    }
}

// The path of the folder `store` in this directory, or in the working directory where the path is empty.
fn folder_in(alloc: Global, directory: &str) -> Result<String, AllocError>
    ensures { IfOk result (λ path. string_bytes path ≡ folder_in directory.now) }
{
    let mut path = String::from_str(alloc, directory)?;
    if !directory.is_empty() {
        path.push('/')?;
    }
    path.push_str("store")?;
    Ok(path)
}
