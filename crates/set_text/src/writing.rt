//! Writing a set of files.

ghost use Rattle.std.specs.Prelude.{◌≡◌, ◌≤◌, ◌++◌, ◌∷◌, [], Ok, map, IsTrue, IfOk, OnOk};
ghost use Rattle.std.specs.List.{AllByRecursion};
ghost use Rattle.app_registry.specs.Registry.{has_package};
ghost use Rattle.desk_ports.specs.FileName.{IsFileName};
ghost use Rattle.desk_state.specs.IsDesk.{IsDesk};
ghost use Rattle.rule_templates.specs.Template.{template_text};
ghost use Rattle.set_text.specs.Buckets.{buckets_text};
ghost use Rattle.set_text.specs.FileNames as name;
ghost use Rattle.set_text.specs.Files as word;
ghost use Rattle.set_text.specs.IsSpelt.{IsHeading, IsPolicy, IsInstall, IsSpelt};
ghost use Rattle.set_text.specs.Reading.{read_of};
ghost use Rattle.set_text.specs.Registry.{last_uid, users_text, apps_text};
ghost use Rattle.set_text.specs.Stamp.{stamp_text};

use crate::file_names::{
    APPS, BUCKETS, STAMP, TEMPLATE, USERS, bucket_file, known_name, load_file,
};
use crate::headings::buckets_text;
use crate::installs::apps_text;
use crate::load_files::{package_text, packages_of};
use crate::policies::bucket_text;
use crate::stamps::stamp_text;
use crate::users::users_text;
use app_registry::Ident;
use bucket_store::Bucket;
use desk_ports::{Bytes, FileName, FileSet, SetFile};
use desk_state::Desk;
use std::alloc::{AllocError, Global};

/// The files of a policy state, each in its one spelling. They read back as this state.
pub fn write(alloc: Global, desk: &Desk) -> Result<FileSet, AllocError>
    ensures files { IfOk result (λ set. set ≡ word.files desk.now) }
    ensures again { IfOk result (λ set. read_of set ≡ Ok desk.now) }
{
    let files = all_files(alloc, desk)?;
    Ok(FileSet::of(files))
}

/// The load files of all packages, in the order of their names: the Smack rules of each package, one a line.
pub fn write_loads(alloc: Global, desk: &Desk) -> Result<Vec<SetFile>, AllocError>
    ensures { IfOk result (λ files. files.items ≡ word.load_files desk.now) }
{
    let mut files = Vec::new(alloc);
    push_load_files(alloc, desk, &mut files)?;
    Ok(files)
}

// All files, in the order of their names. Writing each name and number shows that it is spelt as its type keeps it.
fn all_files(alloc: Global, desk: &Desk) -> Result<Vec<SetFile>, AllocError>
    ensures files { IfOk result (λ files. files.items ≡ word.files desk.now) }
    ensures desk { OnOk result (IsDesk desk.now) }
    ensures spelt { OnOk result (IsSpelt desk.now) }
{
    let mut files = Vec::new(alloc);
    push_bucket_files(alloc, desk, &mut files)?;
    push_lists(alloc, desk, &mut files)?;
    push_load_files(alloc, desk, &mut files)?;
    push_last(alloc, desk, &mut files)?;
    Ok(files)
}

// Puts a file of a fixed name behind these.
fn push(
    alloc: Global,
    name: &[u8],
    text: Vec<u8>,
    files: &mut Vec<SetFile>,
) -> Result<(), AllocError>
    requires { IsFileName name.now }
    ensures { OnOk result (files.new.items ≡ files.old.items ++ word.file name.now text.items ∷ []) }
{
    push_file(known_name(alloc, name)?, text, files)
}

fn push_file(name: FileName, text: Vec<u8>, files: &mut Vec<SetFile>) -> Result<(), AllocError>
    ensures { OnOk result (files.new.items ≡ files.old.items ++ word.file name text.items ∷ []) }
{
    files.push(SetFile {
        name,
        bytes: Bytes::of(text),
    })?;
    Ok(())
}

// Puts the file of each bucket behind these.
fn push_bucket_files(alloc: Global, desk: &Desk, files: &mut Vec<SetFile>) -> Result<(), AllocError>
    ensures files { OnOk result (files.new.items ≡ files.old.items ++ word.bucket_files desk.now) }
    ensures spelt { OnOk result (AllByRecursion (λ placed. IsPolicy placed.policy) desk.now.database.policies) }
{
    push_buckets(alloc, desk.database().buckets(), files)?;
    Ok(())
}

fn push_buckets(
    alloc: Global,
    buckets: &[Bucket],
    files: &mut Vec<SetFile>,
) -> Result<(), AllocError>
    ensures files { OnOk result (files.new.items ≡ files.old.items ++ map word.file_of buckets.now) }
    ensures spelt { OnOk result (AllByRecursion (λ bucket. AllByRecursion IsPolicy bucket.policies) buckets.now) }
{
    for bucket in buckets {
        push_bucket(alloc, bucket, files)?;
    }
    Ok(())
}

fn push_bucket(alloc: Global, bucket: &Bucket, files: &mut Vec<SetFile>) -> Result<(), AllocError>
    ensures files { OnOk result (files.new.items ≡ files.old.items ++ word.file_of bucket.now ∷ []) }
    ensures spelt { OnOk result (AllByRecursion IsPolicy bucket.now.policies) }
{
    let text = bucket_text(alloc, bucket.policies())?;
    push_file(bucket_file(alloc, bucket.name())?, text, files)
}

// Puts `apps` and `buckets` behind these.
fn push_lists(alloc: Global, desk: &Desk, files: &mut Vec<SetFile>) -> Result<(), AllocError>
    ensures files { OnOk result (files.new.items ≡ files.old.items
        ++ (word.file name.apps (apps_text desk.now.registry.installs)
        ∷ word.file name.buckets (buckets_text desk.now.database.buckets) ∷ [])) }
    ensures desk { OnOk result (IsDesk desk.now) }
    ensures installs { OnOk result (AllByRecursion IsInstall desk.now.registry.installs) }
    ensures headings { OnOk result (AllByRecursion IsHeading desk.now.database.buckets) }
{
    let apps = apps_text(alloc, desk.registry().installs())?;
    push(alloc, APPS, apps, files)?;
    let buckets = buckets_text(alloc, desk.database().buckets())?;
    push(alloc, BUCKETS, buckets, files)?;
    Ok(())
}

// Puts the load file of each package behind these.
fn push_load_files(alloc: Global, desk: &Desk, files: &mut Vec<SetFile>) -> Result<(), AllocError>
    ensures { OnOk result (files.new.items ≡ files.old.items ++ word.load_files desk.now) }
{
    let packages = packages_of(alloc, desk.registry().installs())?;
    push_loads(alloc, desk, &packages, files)?;
    Ok(())
}

fn push_loads(
    alloc: Global,
    desk: &Desk,
    packages: &[Ident],
    files: &mut Vec<SetFile>,
) -> Result<(), AllocError>
    requires { AllByRecursion (λ name. IsTrue (has_package desk.now.registry name)) packages.now }
    ensures { OnOk result (files.new.items ≡ files.old.items ++ map (word.load_of desk.now) packages.now) }
{
    for package in packages {
        push_load(alloc, desk, package, files)?;
    }
    Ok(())
}

fn push_load(
    alloc: Global,
    desk: &Desk,
    package: &Ident,
    files: &mut Vec<SetFile>,
) -> Result<(), AllocError>
    requires { IsTrue (has_package desk.now.registry «package».now) }
    ensures { OnOk result (files.new.items ≡ files.old.items ++ word.load_of desk.now «package».now ∷ []) }
{
    let text = package_text(alloc, desk.template(), desk.registry(), package)?;
    push_file(load_file(alloc, package)?, text, files)
}

// Puts `stamp`, `template` and `users` behind these.
fn push_last(alloc: Global, desk: &Desk, files: &mut Vec<SetFile>) -> Result<(), AllocError>
    ensures files { OnOk result (files.new.items ≡ files.old.items
        ++ (word.file name.stamp (stamp_text desk.now.commit)
        ∷ word.file name.template (template_text desk.now.template)
        ∷ word.file name.users (users_text desk.now.registry.users) ∷ [])) }
    ensures users { OnOk result (AllByRecursion (λ user. user.uid ≤ last_uid) desk.now.registry.users) }
{
    let stamp = stamp_text(alloc, desk.commit())?;
    push(alloc, STAMP, stamp, files)?;
    let template = desk.template().text()?;
    push(alloc, TEMPLATE, template, files)?;
    let users = users_text(alloc, desk.registry().users())?;
    push(alloc, USERS, users, files)?;
    Ok(())
}
