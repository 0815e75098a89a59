//! Users.

/// What a user is on the device, from which follow the policies that an administrator gives to all users of a kind.
#[derive(Clone, Copy, Debug, PartialEq, Eq)]
pub enum UserType {
    System,
    Admin,
    Normal,
    Guest,
}

/// A user of the device: the number that the kernel knows, and what the user is.
#[derive(Clone, Copy, Debug, PartialEq, Eq)]
pub struct User {
    pub uid: u32,
    pub kind: UserType,
}
