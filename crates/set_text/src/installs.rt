//! The file `apps`: a line for each install.

ghost use Rattle.std.specs.Prelude.{◌≡◌, ◌++◌, ◌∷◌, [], Some, None, if◌then◌else◌, IfOk, IfErr, OnOk, IsTrue};
ghost use Rattle.std.specs.Prelude.{MatchResult};
ghost use Rattle.std.specs.List.{AllByRecursion, flat_map};
ghost use Rattle.cynara_keys.specs.Name.{is_name};
ghost use Rattle.cynara_keys.specs.Text.{text_cmp};
ghost use Rattle.set_text.specs.IsSpelt.{IsAuthor, IsScope, IsInstall};
ghost use Rattle.set_text.specs.Lines.{fields_of, rises_above};
ghost use Rattle.set_text.specs.Registry as word;
ghost use Rattle.set_text.specs.parts.Reads.{ReadsLine, RefusesLine};
ghost use Rattle.set_text.specs.parts.Rights as right;

use crate::lines::{LineFault, cut_field};
use crate::users::uid_of;
use app_registry::{Ident, IdentRefusal, Install, NameSet, Scope};
use cynara_keys::{Name, NameRefusal};
use itoa::Buffer;
use std::alloc::{AllocError, Global};

// The last fields of a line: for whom the application is installed, and the privileges.
#[derive(Drop)]
struct Rights {
    scope: Scope,
    privileges: NameSet,
}

/// The text of `apps`.
pub fn apps_text(alloc: Global, installs: &[Install]) -> Result<Vec<u8>, AllocError>
    ensures text { IfOk result (λ text. text.items ≡ word.apps_text installs.now) }
    ensures spelt { OnOk result (AllByRecursion IsInstall installs.now) }
{
    let mut text = Vec::new(alloc);
    for install in installs {
        append_install(install, &mut text)?;
    }
    Ok(text)
}

fn append_install(install: &Install, text: &mut Vec<u8>) -> Result<(), AllocError>
    ensures text { OnOk result (text.new.items ≡ text.old.items ++ (word.install_line install.now ++ 10 ∷ [])) }
    ensures spelt { OnOk result (IsInstall install.now) }
{
    append_names(install, text)?;
    append_scope(install.scope, text)?;
    append_privileges(install.privileges.as_slice(), text)?;
    text.push(b'\n')?;
    Ok(())
}

// Appends the package with its kind, the author and the application, with a semicolon behind each.
fn append_names(install: &Install, text: &mut Vec<u8>) -> Result<(), AllocError>
    ensures text { OnOk result
        (text.new.items ≡ text.old.items ++ (word.package_text install.now.hybrid install.now.package
        ++ (59 ∷ (word.author_text install.now.author ++ (59 ∷ (install.now.app ++ 59 ∷ [])))))) }
    ensures package_spelt { OnOk result (IsTrue (word.is_ident install.now.package)) }
    ensures author_spelt { OnOk result (IsAuthor install.now.author) }
    ensures app_spelt { OnOk result (IsTrue (word.is_ident install.now.app)) }
{
    append_package(install.hybrid, &install.package, text)?;
    text.push(b';')?;
    append_author(&install.author, text)?;
    text.push(b';')?;
    text.extend_from_slice(install.app.as_slice())?;
    text.push(b';')?;
    Ok(())
}

// Appends the package, with `+` before it where it is hybrid.
fn append_package(hybrid: bool, package: &Ident, text: &mut Vec<u8>) -> Result<(), AllocError>
    ensures text { OnOk result (text.new.items ≡ text.old.items ++ word.package_text hybrid «package».now) }
    ensures spelt { OnOk result (IsTrue (word.is_ident «package».now)) }
{
    if hybrid {
        text.push(b'+')?;
    }
    text.extend_from_slice(package.as_slice())
}

fn append_author(author: &Option<Ident>, text: &mut Vec<u8>) -> Result<(), AllocError>
    ensures text { OnOk result (text.new.items ≡ text.old.items ++ word.author_text author.now) }
    ensures spelt { OnOk result (IsAuthor author.now) }
{
    match author {
        Some(author) => text.extend_from_slice(author.as_slice()),
        None => Ok(()),
    }
}

fn append_scope(scope: Scope, text: &mut Vec<u8>) -> Result<(), AllocError>
    ensures text { OnOk result (text.new.items ≡ text.old.items ++ word.scope_text scope) }
    ensures spelt { OnOk result (IsScope scope) }
{
    match scope {
        Scope::Everyone => {
            text.push(b'*')?;
            Ok(())
        }
        Scope::One(uid) => text.extend_from_slice(Buffer::new().format(uid).as_bytes()),
    }
}

// Appends each privilege, with a semicolon before it.
fn append_privileges(privileges: &[Name], text: &mut Vec<u8>) -> Result<(), AllocError>
    ensures text { OnOk result (text.new.items ≡ text.old.items ++ flat_map (λ name. 59 ∷ name) privileges.now) }
    ensures spelt { OnOk result (AllByRecursion (λ name. IsTrue (is_name name)) privileges.now) }
{
    for privilege in privileges {
        append_privilege(privilege, text)?;
    }
    Ok(())
}

fn append_privilege(privilege: &Name, text: &mut Vec<u8>) -> Result<(), AllocError>
    ensures text { OnOk result (text.new.items ≡ text.old.items ++ 59 ∷ privilege.now) }
    ensures spelt { OnOk result (IsTrue (is_name privilege.now)) }
{
    text.push(b';')?;
    text.extend_from_slice(privilege.as_slice())
}

/// The install in a line of `apps`.
pub fn install_of(alloc: Global, line: &[u8]) -> Result<Install, LineFault>
    ensures { ReadsLine result (word.install_of line.now) }
{
    let Some((package, rest)) = cut_field(line) else {
        return Err(LineFault::Wrong);
    };
    let Some((author, rest)) = cut_field(rest) else {
        return Err(LineFault::Wrong);
    };
    let Some((app, rest)) = cut_field(rest) else {
        return Err(LineFault::Wrong);
    };
    let hybrid = is_marked(package);
    let package = match ident_of(alloc, name_in(package)) {
        Ok(package) => package,
        Err(fault) => return Err(fault),
    };
    let author = match author_of(alloc, author) {
        Ok(author) => author,
        Err(fault) => return Err(fault),
    };
    let app = match ident_of(alloc, app) {
        Ok(app) => app,
        Err(fault) => return Err(fault),
    };
    let rights = match rights_of(alloc, rest) {
        Ok(rights) => rights,
        Err(fault) => return Err(fault),
    };
    Ok(Install {
        package,
        author,
        app,
        scope: rights.scope,
        privileges: rights.privileges,
        hybrid,
    })
}

// Whether the text of a package says that it is hybrid.
fn is_marked(text: &[u8]) -> bool
    ensures { result ≡ word.is_marked text.now }
{
    matches!(text, [b'+', ..])
}

// The name in the text of a package.
fn name_in(text: &[u8]) -> &[u8]
    ensures { result.now ≡ word.name_in text.now }
{
    match text {
        [b'+', name @ ..] => name,
        _ => text,
    }
}

fn ident_of(alloc: Global, text: &[u8]) -> Result<Ident, LineFault>
    ensures { ReadsLine result (if word.is_ident text.now then Some text.now else None) }
{
    match Ident::read(alloc, text) {
        Ok(ident) => Ok(ident),
        Err(IdentRefusal::Memory(error)) => Err(LineFault::Memory(error)),
        Err(_) => Err(LineFault::Wrong),
    }
}

// No author is an empty text.
fn author_of(alloc: Global, text: &[u8]) -> Result<Option<Ident>, LineFault>
    ensures { ReadsLine result (if word.is_author text.now then Some (word.author_of text.now) else None) }
{
    if text.is_empty() {
        return Ok(None);
    }
    match ident_of(alloc, text) {
        Ok(author) => Ok(Some(author)),
        Err(fault) => Err(fault),
    }
}

// The scope, and the privileges behind it, if there are any.
fn rights_of(alloc: Global, text: &[u8]) -> Result<Rights, LineFault>
    ensures { ReadsLine result (right.rights_of (fields_of text.now)) }
{
    let Some((scope, privileges)) = cut_field(text) else {
        return with_privileges(text, Vec::new(alloc));
    };
    match names_of(alloc, privileges) {
        Ok(names) => with_privileges(scope, names),
        Err(fault) => Err(fault),
    }
}

// The scope in a field, with these privileges.
fn with_privileges(scope: &[u8], names: Vec<Name>) -> Result<Rights, LineFault>
    requires { IsTrue (word.are_privileges names.items) }
    ensures { ReadsLine result (right.rights_with names.items (word.scope_of scope.now)) }
{
    let Some(scope) = scope_of(scope) else {
        return Err(LineFault::Wrong);
    };
    match NameSet::of(names) {
        Ok(privileges) => Ok(Rights { scope, privileges }),
        Err(error) => Err(LineFault::Memory(error)),
    }
}

// `*`, or the number of a user.
fn scope_of(text: &[u8]) -> Option<Scope>
    ensures { result ≡ word.scope_of text.now }
{
    if text == b"*".as_slice() {
        return Some(Scope::Everyone);
    }
    match uid_of(text) {
        Some(uid) => Some(Scope::One(uid)),
        None => None,
    }
}

// The privileges in these fields, each before the next.
fn names_of(alloc: Global, text: &[u8]) -> Result<Vec<Name>, LineFault>
    ensures { MatchResult result (λ names. right.privileges_of (fields_of text.now) ≡ Some names.items)
        (λ fault. RefusesLine fault (right.privileges_of (fields_of text.now))) }
{
    let mut names = Vec::new(alloc);
    let mut rest = text;
    while let Some((field, after)) = cut_field(rest) {
        match push_name(alloc, &mut names, field) {
            Ok(()) => rest = after,
            Err(fault) => return Err(fault),
        }
    }
    match push_name(alloc, &mut names, rest) {
        Ok(()) => Ok(names),
        Err(fault) => Err(fault),
    }
}

// Reads a privilege and puts it behind these, where it rises above the last one.
fn push_name(alloc: Global, names: &mut Vec<Name>, text: &[u8]) -> Result<(), LineFault>
    ensures pushed { OnOk result (names.new.items ≡ names.old.items ++ text.now ∷ []) }
    ensures fits { OnOk result (IsTrue (right.privilege_fits names.old.items text.now)) }
    ensures wrong { IfErr result (λ fault. RefusesLine fault
        (if right.privilege_fits names.old.items text.now then Some text.now else None)) }
{
    let name = match Name::read(alloc, text) {
        Ok(name) => name,
        Err(NameRefusal::Memory(error)) => return Err(LineFault::Memory(error)),
        Err(_) => return Err(LineFault::Wrong),
    };
    if !rises(names, &name) {
        return Err(LineFault::Wrong);
    }
    match names.push(name) {
        Ok(()) => Ok(()),
        Err(error) => Err(LineFault::Memory(error.into())),
    }
}

fn rises(names: &[Name], name: &Name) -> bool
    ensures { result ≡ rises_above text_cmp names.now name.now }
{
    match names.last() {
        Some(last) => last.cmp(name).is_lt(),
        None => true,
    }
}
