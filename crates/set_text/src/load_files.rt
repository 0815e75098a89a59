//! The load file of a package: a line for each of its rules.

ghost use Rattle.std.specs.Prelude.{◌≡◌, ◌++◌, IsTrue, IfOk, OnOk};
ghost use Rattle.app_registry.specs.Registry as registries;
ghost use Rattle.app_registry.specs.Registry.{has_package};
ghost use Rattle.desk_state.specs.DeskState.{package_rules};
ghost use Rattle.set_text.specs.Template as word;
ghost use Rattle.set_text.specs.Lines.{last_of};
ghost use Rattle.set_text.specs.parts.Parts.{beside};
ghost use Rattle.set_text.specs.parts.Standing.{ends_with, tail_of};

use app_registry::{Ident, Install, Registry};
use rule_templates::{Template, expand};
use smack_rules::Rule;
use std::alloc::{AllocError, Global};

/// The text of the load file of a package that is installed.
pub fn package_text(
    alloc: Global,
    template: &Template,
    registry: &Registry,
    package: &Ident,
) -> Result<Vec<u8>, AllocError>
    requires { IsTrue (has_package registry.now «package».now) }
    ensures { IfOk result (λ text.
        text.items ≡ word.load_text (package_rules (beside registry.now template.now) «package».now)) }
{
    let rules = expand(alloc, template, registry, package)?;
    load_text(alloc, &rules)
}

fn load_text(alloc: Global, rules: &[Rule]) -> Result<Vec<u8>, AllocError>
    ensures { IfOk result (λ text. text.items ≡ word.load_text rules.now) }
{
    let mut text = Vec::new(alloc);
    for rule in rules {
        rule.append_to(&mut text)?;
        text.push(b'\n')?;
    }
    Ok(text)
}

/// The packages of installs that stand in their order, each once.
pub fn packages_of(alloc: Global, installs: &[Install]) -> Result<Vec<Ident>, AllocError>
    ensures { IfOk result (λ packages. packages.items ≡ registries.packages installs.now) }
{
    let mut packages = Vec::new(alloc);
    for install in installs {
        push_package(&mut packages, &install.package)?;
    }
    Ok(packages)
}

// Puts the package behind these, where it is not the last of them.
fn push_package(packages: &mut Vec<Ident>, package: &Ident) -> Result<(), AllocError>
    ensures { OnOk result (packages.new.items ≡ packages.old.items ++ tail_of packages.old.items «package».now) }
{
    if is_last(packages, package) {
        return Ok(());
    }
    packages.push(package.copy()?)?;
    Ok(())
}

// Whether the package is the last of these.
fn is_last(packages: &[Ident], package: &Ident) -> bool
    ensures { result ≡ ends_with (last_of packages.now) «package».now }
{
    match packages.last() {
        Some(last) => *last == *package,
        None => false,
    }
}
