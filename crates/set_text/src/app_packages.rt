//! In which package each application is.

ghost use Rattle.std.specs.Prelude.{◌≡◌, ℕ, List, OnOk};
ghost use Rattle.std.specs.BTreeMap.{get};
ghost use Rattle.cynara_keys.specs.Text.{text_cmp};
ghost use Rattle.set_text.specs.parts.Standing.{is_other_than, noted};

use app_registry::{Ident, Install};
use std::alloc::AllocError;
use std::collections::BTreeMap;

/// Whether the application of an install is there in another package, by the packages of the applications so far.
pub fn is_elsewhere(packages: &BTreeMap<Ident, Ident>, install: &Install) -> bool
    ensures { result ≡ is_other_than install.now.package (get text_cmp packages.now install.now.app) }
{
    match packages.get(&install.app) {
        Some(package) => *package != install.package,
        None => false,
    }
}

/// Notes the package of an install's application, where it is the first install of the application.
pub fn note(packages: &mut BTreeMap<Ident, Ident>, install: &Install) -> Result<(), AllocError>
    ensures { OnOk result ((app : List ℕ)
        → get text_cmp packages.new app ≡ noted install.now app (get text_cmp packages.old app)) }
{
    if packages.contains_key(&install.app) {
        return Ok(());
    }
    packages.insert(install.app.copy()?, install.package.copy()?)?;
    Ok(())
}
