// Names that are there, and that may be meant by one that is not.

use crate::shown::shown;
use app_registry::{Install, install_client};
use desk_state::Desk;
use line_reasons::is_near;
use std::alloc::{AllocError, Global};

/// The front of the labels of packages.
pub const PACKAGE_FRONT: &[u8] = b"User::Pkg::";

/// A bucket with a name that is near.
pub fn near_bucket(alloc: Global, desk: &Desk, name: &[u8]) -> Result<Option<String>, AllocError> {
    let buckets = desk.database().buckets();
    match buckets
        .iter()
        .find(|bucket| is_near_name(name, bucket.name().as_slice()))
    {
        Some(bucket) => Ok(Some(shown(alloc, bucket.name().as_slice())?)),
        None => Ok(None),
    }
}

/// An application with a name that is near.
pub fn near_app(alloc: Global, desk: &Desk, name: &[u8]) -> Result<Option<String>, AllocError> {
    let installs = desk.registry().installs();
    match installs
        .iter()
        .find(|install| is_near_name(name, install.app.as_slice()))
    {
        Some(install) => Ok(Some(shown(alloc, install.app.as_slice())?)),
        None => Ok(None),
    }
}

/// The label of an install that is meant by a name: that of its package or application, also behind the front of
/// labels, or one that is near.
pub fn near_label(alloc: Global, desk: &Desk, name: &[u8]) -> Result<Option<String>, AllocError> {
    let wanted = package_in(name);
    let installs = desk.registry().installs();
    let found = match installs.iter().find(|install| is_named(wanted, install)) {
        Some(install) => Some(install),
        None => installs
            .iter()
            .find(|install| is_near_install(wanted, install)),
    };
    match found {
        Some(install) => {
            let label = install_client(alloc, install)?;
            Ok(Some(shown(alloc, label.as_slice())?))
        }
        None => Ok(None),
    }
}

/// The package that a label names, or all of a name that is no label of a package.
pub fn package_in(label: &[u8]) -> &[u8] {
    let Some(behind) = label.strip_prefix(PACKAGE_FRONT) else {
        return label;
    };
    match behind.iter().position(|byte| *byte == b':') {
        Some(at) => match behind.split_at_checked(at) {
            Some((front, _)) => front,
            None => behind,
        },
        None => behind,
    }
}

// Whether the package or the application of the install has this name.
fn is_named(name: &[u8], install: &Install) -> bool {
    name == install.package.as_slice() || name == install.app.as_slice()
}

fn is_near_install(name: &[u8], install: &Install) -> bool {
    is_near_name(name, install.package.as_slice()) || is_near_name(name, install.app.as_slice())
}

fn is_near_name(name: &[u8], known: &[u8]) -> bool {
    !known.is_empty() && is_near(name, known)
}
