// Whether there is room for what a changed registry would hold.
ghost use Rattle.std.specs.Prelude.{◌≡◌, length, nat_lt};
ghost use Rattle.app_registry.specs.Refusal.{over, installs_limit};
ghost use Rattle.app_registry.specs.Registry.{packages, grant_count};
ghost use Rattle.app_registry.specs.Limits.{most_grants, most_packages, most_users};
ghost use Rattle.cynara_keys.specs.declared.limits.Counted.TheVariants.{Users};

use crate::{
    GRANT_LIMIT, INSTALL_LIMIT, Install, PACKAGE_LIMIT, RegistryRefusal, USER_LIMIT, User,
};
use cynara_keys::Counted;

/// The refusal of more users than there is room for.
pub fn users_limit(users: &[User]) -> Option<RegistryRefusal>
    ensures { result ≡ over Users most_users (length users.now) }
{
    if users.len() > USER_LIMIT {
        return Some(RegistryRefusal::Limit(Counted::Users, USER_LIMIT as u64));
    }
    None
}

/// The first refusal of more packages, installs or privileges than there is room for.
pub fn installs_limit(installs: &[Install]) -> Option<RegistryRefusal>
    ensures { result ≡ installs_limit installs.now }
{
    if has_too_many_packages(installs) {
        return Some(RegistryRefusal::Limit(Counted::Packages, PACKAGE_LIMIT as u64));
    }
    if installs.len() > INSTALL_LIMIT {
        return Some(RegistryRefusal::Limit(Counted::Installs, INSTALL_LIMIT as u64));
    }
    if has_too_many_grants(installs) {
        return Some(RegistryRefusal::Limit(Counted::Grants, GRANT_LIMIT as u64));
    }
    None
}

/// Whether there are more packages than there is room for. No count is needed where there are not even as many
/// installs.
pub fn has_too_many_packages(installs: &[Install]) -> bool
    ensures { result ≡ nat_lt most_packages (length (packages installs.now)) }
{
    if installs.len() <= PACKAGE_LIMIT {
        return false;
    }
    package_count(installs) > PACKAGE_LIMIT
}

// How many packages there are: a package's installs stand together.
fn package_count(installs: &[Install]) -> usize
    ensures { result ≡ length (packages installs.now) }
{
    let Some((first, rest)) = installs.split_first() else {
        return 0;
    };
    let mut count = 1;
    let mut last = &first.package;
    for install in rest {
        if install.package != *last {
            count += 1;
            last = &install.package;
        }
    }
    count
}

fn has_too_many_grants(installs: &[Install]) -> bool
    ensures { result ≡ nat_lt most_grants (grant_count installs.now) }
{
    let mut count = 0;
    for install in installs {
        let more = install.privileges.as_slice().len();
        if more > GRANT_LIMIT - count {
            return true;
        }
        count += more;
    }
    false
}
