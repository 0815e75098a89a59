//! Why a change of a registry is refused, and the limits.

use crate::Ident;
use cynara_keys::Counted;
use std::alloc::AllocError;
use thiserror::Error;

/// The most users of a registry.
pub const USER_LIMIT: usize = 64;

/// The most packages of a registry.
pub const PACKAGE_LIMIT: usize = 1024;

/// The most installs of a registry.
pub const INSTALL_LIMIT: usize = 8192;

/// The most privileges of all installs of a registry together.
pub const GRANT_LIMIT: usize = 65536;

/// Why a change is refused: the first of these that stands against it.
#[derive(Debug, Drop, PartialEq, Eq, Error)]
pub enum RegistryRefusal {
    /// The user of this number is not there.
    #[error("user {0} is not known")]
    UnknownUser(u32),
    /// The application is installed in this other package.
    #[error("the application is installed in another package")]
    OtherPackage(Ident),
    /// The package is installed by this other author, or by none.
    #[error("the package is installed by another author")]
    OtherAuthor(Option<Ident>),
    /// The package is hybrid, where this is true, or plain, and the install is of the other kind.
    #[error("the package is of the other kind, hybrid or plain")]
    OtherHybrid(bool),
    #[error("there is no such install")]
    NotInstalled,
    /// There would be more of what is counted than this.
    #[error("there is room for {1} of them")]
    Limit(Counted, u64),
    #[error("out of memory")]
    Memory(AllocError),
}
