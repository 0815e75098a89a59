//! Users, packages and installs, as security-manager keeps them, and what they grant.
//!
//! That an installer names a package, its author, an application and its privileges, and that the label of a package
//! is `User::Pkg::` with its name, is security-manager's. The limits, the order of the lists and the order of the
//! refusals are this project's profile.
#![tactic(auto)]

mod idents;
mod install_lists;
mod installs;
mod labels;
mod limits;
mod lists;
mod look_ups;
mod manifests;
mod name_sets;
mod refusals;
mod registry;
mod users;

pub use idents::{IDENT_LIMIT, Ident, IdentRefusal};
pub use installs::{Install, Scope};
pub use labels::{install_client, install_label, package_label, user_name};
pub use manifests::{grant, scope_field};
pub use name_sets::NameSet;
pub use refusals::{GRANT_LIMIT, INSTALL_LIMIT, PACKAGE_LIMIT, RegistryRefusal, USER_LIMIT};
pub use registry::Registry;
pub use users::{User, UserType};
