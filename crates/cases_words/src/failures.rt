use cynara_keys::{MetadataRefusal, NameRefusal};
use desk_ports::{FileNameRefusal, PortFault};
use std::alloc::{AllocError, AllocFailed};

/// Why a case has no answer.
#[derive(Debug, Drop)]
pub enum Failure {
    /// Its words are no case.
    Words,
    /// What the case takes for right is refused.
    Refused,
    Memory(AllocError),
}

impl From<AllocError> for Failure {
    fn from(error: AllocError) -> Failure {
        Failure::Memory(error)
    }
}

impl<T: Drop> From<AllocFailed<T>> for Failure {
    fn from(failed: AllocFailed<T>) -> Failure {
        Failure::Memory(AllocError::from(failed))
    }
}

impl From<FileNameRefusal> for Failure {
    fn from(refusal: FileNameRefusal) -> Failure {
        match refusal {
            FileNameRefusal::Memory(error) => Failure::Memory(error),
            _ => Failure::Words,
        }
    }
}

impl From<PortFault> for Failure {
    fn from(fault: PortFault) -> Failure {
        match fault {
            PortFault::Memory(error) => Failure::Memory(error),
            PortFault::Failed => Failure::Refused,
        }
    }
}

impl From<NameRefusal> for Failure {
    fn from(refusal: NameRefusal) -> Failure {
        match refusal {
            NameRefusal::Memory(error) => Failure::Memory(error),
            _ => Failure::Words,
        }
    }
}

impl From<MetadataRefusal> for Failure {
    fn from(refusal: MetadataRefusal) -> Failure {
        match refusal {
            MetadataRefusal::Memory(error) => Failure::Memory(error),
            _ => Failure::Words,
        }
    }
}

/// Puts a value behind the others, if there is one. Messages are kept in lists, and put there by these two functions,
/// whatever they are: the proof of each function that has a message as a value of its own takes long.
pub fn put_some<T: Drop>(list: &mut Vec<T>, value: Option<T>) -> Result<(), Failure> {
    match value {
        Some(value) => Ok(list.push(value)?),
        None => Ok(()),
    }
}

/// Puts a value behind the others that a call gave.
pub fn put_ok<T: Drop, E: Drop>(list: &mut Vec<T>, value: Result<T, E>) -> Result<(), Failure> {
    match value {
        Ok(value) => Ok(list.push(value)?),
        Err(_) => Err(Failure::Refused),
    }
}
