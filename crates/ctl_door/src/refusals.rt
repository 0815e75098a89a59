// Why a service told nothing.
ghost use Rattle.std.specs.Prelude.{◌≡◌};
ghost use Rattle.ctl_door.specs.Replies.{refusal_of, IsDamage};

use admin_client::AdminRefusal;
use client_connection::{Broken, ReplyFault};
use desk_ports::FileName;
use std::alloc::AllocError;
use thiserror::Error;
use wire_messages::WireRefusal;

/// Why a service told nothing.
#[derive(Debug, Drop, Error)]
pub enum DoorRefusal {
    /// The dial failed, or the link before the answer was whole.
    #[error("the service cannot be reached, or did not answer in time")]
    Unavailable,
    /// What came is no answer to what was asked.
    #[error("{0}")]
    BadReply(ReplyFault),
    /// What came as files is not the state of a device at the commit that was told.
    #[error("what the service told is not the state of a device")]
    NoState,
    /// The disk of the service failed.
    #[error("the disk of the service failed")]
    StoreFault,
    /// The store of the service is damaged, at the line of this number, 0 where the file as a whole is.
    #[error("the store of the service is damaged")]
    StoreDamaged { file: FileName, line: u32 },
    /// The service refused what was asked, or it was more than a frame holds.
    #[error("the service refused what was asked")]
    Refused,
    /// The service ended the connection in place of a reply.
    #[error("the service does not know what was asked, and ended the connection")]
    NotKnown,
    #[error("out of memory")]
    Memory(AllocError),
}

/// What it comes to that no frame was read.
pub(crate) fn of_broken(broken: Broken) -> DoorRefusal {
    match broken {
        Broken::Lost => DoorRefusal::Unavailable,
        Broken::Wrong(WireRefusal::Memory(error)) => DoorRefusal::Memory(error),
        Broken::Wrong(fault) => DoorRefusal::BadReply(ReplyFault::Frame(fault)),
    }
}

/// The same of an administrator's client.
pub(crate) fn of_client(refusal: AdminRefusal) -> DoorRefusal
    ensures { result ≡ refusal_of refusal }
{
    match refusal {
        AdminRefusal::Unavailable => DoorRefusal::Unavailable,
        AdminRefusal::BadReply(fault) => DoorRefusal::BadReply(fault),
        AdminRefusal::TooLong(_) => DoorRefusal::Refused,
        AdminRefusal::Memory(error) => DoorRefusal::Memory(error),
    }
}

/// The store of the service is damaged at this line of the file, for whose name memory may be wanting.
pub(crate) fn damaged(file: &FileName, line: u32) -> DoorRefusal
    ensures { IsDamage file.now line result }
{
    match file.copy() {
        Ok(file) => DoorRefusal::StoreDamaged { file, line },
        Err(error) => DoorRefusal::Memory(error),
    }
}
