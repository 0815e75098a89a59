use app_registry::Ident;
use smack_rules::Label;
use std::alloc::AllocError;
use thiserror::Error;

/// Why a share is not opened or closed: the first of these that stands against it, in this order.
#[derive(Debug, Drop, Error)]
pub enum ShareRefusal {
    /// The owner, or else the target, is not installed.
    #[error("the application is not installed")]
    UnknownApp(Ident),
    /// The owner and the target both have this label.
    #[error("both applications have one label")]
    SameLabel(Label),
    #[error("there is no such share")]
    NotShared,
    /// The most shares that there may be, or the most times that one may be open.
    #[error("there is room for {0} of them")]
    Most(u64),
    #[error("out of memory")]
    Memory(AllocError),
}
