//! What lines on levels, audits and shares are answered.

use app_registry::UserType;
use level_requests::Level;
use smack_rules::Modes;

/// An answer about levels, or about what a user's applications may do. Texts are borrowed and printed as they are.
#[derive(Clone, Copy)]
pub enum LevelAnswer<'a> {
    /// `level CLIENT PRIVILEGE LEVEL`: a level that is set.
    Set {
        client: &'a [u8],
        privilege: &'a [u8],
        level: Level,
    },
    /// `levels COUNT`: the end of a list of so many levels.
    Levels {
        count: u64,
    },
    /// `allowed CLIENT PRIVILEGE`: an application may use a privilege.
    Allowed {
        client: &'a [u8],
        privilege: &'a [u8],
    },
    /// `pairs COUNT`: the end of a list of so many such pairs.
    Pairs {
        count: u64,
    },
    /// `refused 15 not-administrator TYPE`: a user of this type sets levels for nobody else.
    NotAdministrator {
        kind: UserType,
    },
    /// `refused 16 too-many PRODUCT`: an audit would ask about so many pairs.
    TooMany {
        product: u64,
    },
}

/// An answer about shares. Texts are borrowed and printed as they are.
#[derive(Clone, Copy)]
pub enum ShareAnswer<'a> {
    /// `shared COUNT`: a share is open so often now.
    Shared {
        count: u32,
    },
    /// `rule SUBJECT OBJECT MODES -`: a Smack rule that gives these modes and takes nothing away.
    Rule {
        subject: &'a [u8],
        object: &'a [u8],
        modes: Modes,
    },
    /// `rules COUNT`: the end of a list of so many rules.
    Rules {
        count: u64,
    },
    /// `refused 17 unknown-app APP`: the application is not installed.
    UnknownApp {
        app: &'a [u8],
    },
    /// `refused 18 same-label LABEL`: both applications have this label.
    SameLabel {
        label: &'a [u8],
    },
    /// `refused 19 not-shared`: there is no such share.
    NotShared,
    /// `refused 20 share-limit MOST`: there are so many shares already, or the share is open so often.
    ShareLimit {
        most: u64,
    },
}
