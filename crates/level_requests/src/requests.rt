use crate::levels::Level;
use cynara_keys::Name;

/// Who sets a level, and for whom.
#[derive(Clone, Copy, Debug, PartialEq, Eq)]
pub enum Setter {
    /// A user for themselves.
    Own,
    /// An administrator for the user of this number.
    Administrator { target: u32 },
}

/// That a level is set for an application, by its label, and a privilege.
#[derive(Debug, Drop)]
pub struct LevelRequest {
    /// The number of the user who asks.
    pub caller: u32,
    pub by: Setter,
    pub client: Name,
    pub privilege: Name,
    pub level: Level,
}
