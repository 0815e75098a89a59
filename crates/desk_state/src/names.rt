//! The names of the built-in buckets.

ghost use Rattle.std.specs.Prelude.{◌≡◌};
ghost use Rattle.desk_state.specs.Layout as layout;

use app_registry::UserType;

/// For each user, the bucket of the user's type; for everyone else, the manifests.
pub const MAIN: &[u8] = b"MAIN";

/// What the installs grant.
pub const MANIFESTS: &[u8] = b"MANIFESTS";

/// What the administrator decides for all types.
pub const ADMIN: &[u8] = b"ADMIN";

pub(crate) const SYSTEM: &[u8] = b"USER_TYPE_SYSTEM";

pub(crate) const ADMINS: &[u8] = b"USER_TYPE_ADMIN";

pub(crate) const NORMAL: &[u8] = b"USER_TYPE_NORMAL";

pub(crate) const GUEST: &[u8] = b"USER_TYPE_GUEST";

/// What the administrator decides for a type.
pub fn type_bucket(kind: UserType) -> &'static [u8]
    ensures { result.now ≡ layout.type_bucket kind }
{
    match kind {
        UserType::System => SYSTEM,
        UserType::Admin => ADMINS,
        UserType::Normal => NORMAL,
        UserType::Guest => GUEST,
    }
}

/// The two whose policies no command sets.
pub fn is_managed(name: &[u8]) -> bool
    ensures { result ≡ layout.is_managed name.now }
{
    name == MAIN || name == MANIFESTS
}

/// The seven that a layout makes.
pub fn is_built_in(name: &[u8]) -> bool
    ensures { result ≡ layout.is_built_in name.now }
{
    name == MAIN
        || name == MANIFESTS
        || name == ADMIN
        || name == SYSTEM
        || name == ADMINS
        || name == NORMAL
        || name == GUEST
}
