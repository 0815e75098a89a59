use app_registry::UserType;
use std::alloc::AllocError;
use thiserror::Error;

/// Why a request for a level is refused: the first of these that stands against it, in this order, but that
/// `UnknownUser` comes behind `NotAdministrator` for the target.
#[derive(Clone, Copy, Debug, PartialEq, Eq, Error)]
pub enum LevelRefusal {
    #[error("there is no layout yet")]
    NoLayout,
    /// The user of this number, who asks or is asked for, is not registered.
    #[error("user {0} is not known")]
    UnknownUser(u32),
    /// A user of this type sets levels for nobody else.
    #[error("the user is no administrator")]
    NotAdministrator(UserType),
    #[error("out of memory")]
    Memory(AllocError),
}
