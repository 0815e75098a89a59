//! The Smack labels of packages and of their applications.

ghost use Rattle.std.specs.Prelude.{IfOk, None, decimal, ◌≡◌};
ghost use Rattle.cynara_keys.specs.Name.{name_fault};
ghost use Rattle.smack_rules.specs.Label.{label_fault};
ghost use Rattle.app_registry.specs.Label.{package_label, app_label, install_label};

use crate::{Ident, Install};
use cynara_keys::{Name, NameRefusal};
use itoa::Buffer;
use smack_rules::Label;
use std::alloc::{AllocError, Global};

const FRONT: &[u8] = b"User::Pkg::";

const APP: &[u8] = b"::App::";

/// The label of all that belongs to the package, `User::Pkg::` and its name, as in security-manager.
pub fn package_label(alloc: Global, package: &Ident) -> Result<Label, AllocError>
    ensures { IfOk result (λ label. label ≡ package_label «package».now) }
{
    let text = package_text(alloc, package)?;
    Label::of(alloc, &text)
}

/// The label with which an installed application runs: in a hybrid package `User::Pkg::`, its package, `::App::` and
/// its own name, else that of its package.
pub fn install_label(alloc: Global, install: &Install) -> Result<Label, AllocError>
    ensures { IfOk result (λ label. label ≡ install_label install.now) }
{
    let text = install_text(alloc, install)?;
    Label::of(alloc, &text)
}

/// The label of an install, as the client of its keys. Fails only for lack of memory.
pub fn install_client(alloc: Global, install: &Install) -> Result<Name, AllocError>
    ensures { IfOk result (λ name. name ≡ install_label install.now) }
{
    let text = install_text(alloc, install)?;
    known_name(alloc, &text)
}

/// The number of a user in decimal, as the user of keys.
pub fn user_name(alloc: Global, uid: u32) -> Result<Name, AllocError>
    ensures { IfOk result (λ name. name ≡ decimal uid) }
{
    known_name(alloc, Buffer::new().format(uid).as_bytes())
}

// The text of the label of an install, which is made here alone.
fn install_text(alloc: Global, install: &Install) -> Result<Vec<u8>, AllocError>
    ensures text { IfOk result (λ text. text.items ≡ install_label install.now) }
    ensures label { IfOk result (λ text. label_fault text.items ≡ None) }
    ensures name { IfOk result (λ text. name_fault text.items ≡ None) }
{
    if install.hybrid {
        app_text(alloc, &install.package, &install.app)
    } else {
        package_text(alloc, &install.package)
    }
}

// The text of the label of the application's own.
fn app_text(alloc: Global, package: &Ident, app: &Ident) -> Result<Vec<u8>, AllocError>
    ensures text { IfOk result (λ text. text.items ≡ app_label «package».now app.now) }
    ensures label { IfOk result (λ text. label_fault text.items ≡ None) }
    ensures name { IfOk result (λ text. name_fault text.items ≡ None) }
{
    let name = package.as_slice();
    let own = app.as_slice();
    let mut text = Vec::with_capacity(alloc, FRONT.len() + name.len() + APP.len() + own.len())?;
    text.extend_from_slice(FRONT)?;
    text.extend_from_slice(name)?;
    text.extend_from_slice(APP)?;
    text.extend_from_slice(own)?;
    Ok(text)
}

// The text of the label of the package.
fn package_text(alloc: Global, package: &Ident) -> Result<Vec<u8>, AllocError>
    ensures text { IfOk result (λ text. text.items ≡ package_label «package».now) }
    ensures label { IfOk result (λ text. label_fault text.items ≡ None) }
    ensures name { IfOk result (λ text. name_fault text.items ≡ None) }
{
    let name = package.as_slice();
    let mut text = Vec::with_capacity(alloc, FRONT.len() + name.len())?;
    text.extend_from_slice(FRONT)?;
    text.extend_from_slice(name)?;
    Ok(text)
}

// The name with these bytes, which have no fault.
fn known_name(alloc: Global, bytes: &[u8]) -> Result<Name, AllocError>
    requires { name_fault bytes.now ≡ None }
    ensures { IfOk result (λ name. name ≡ bytes.now) }
{
    match Name::read(alloc, bytes) {
        Ok(name) => Ok(name),
        Err(NameRefusal::Memory(error)) => Err(error),
        Err(_) => unreachable!(),
    }
}
