// Names of buckets.
use ctl_text::{put, put_number};
use cynara_keys::is_bucket_name;
use desk_ports::Bytes;
use std::alloc::{AllocError, Global};

/// What a name begins with that an import gives.
const FRONT: &str = "cynara_";

/// The names that the layout of a device keeps for itself.
const RESERVED: [&[u8]; 7] = [
    b"MAIN",
    b"MANIFESTS",
    b"ADMIN",
    b"USER_TYPE_SYSTEM",
    b"USER_TYPE_ADMIN",
    b"USER_TYPE_NORMAL",
    b"USER_TYPE_GUEST",
];

/// Whether a bucket of a script may have the name. The root's is empty.
pub(crate) fn is_free(name: &[u8]) -> bool {
    if name.is_empty() {
        return true;
    }
    is_bucket_name(name) && !RESERVED.contains(&name)
}

/// `cynara_` and the name.
pub(crate) fn with_name(alloc: Global, name: &[u8]) -> Result<Bytes, AllocError> {
    let mut given = Bytes::new(alloc);
    put(&mut given, FRONT)?;
    given.append(name)?;
    Ok(given)
}

/// `cynara_` and the number.
pub(crate) fn with_number(alloc: Global, number: u64) -> Result<Bytes, AllocError> {
    let mut given = Bytes::new(alloc);
    put(&mut given, FRONT)?;
    put_number(&mut given, number)?;
    Ok(given)
}
