//! The names of the files.

ghost use Rattle.std.specs.Prelude.{◌≡◌, IfOk};
ghost use Rattle.desk_ports.specs.FileName.{IsFileName};
ghost use Rattle.cynara_keys.specs.BucketName.{is_bucket_name};
ghost use Rattle.set_text.specs.FileNames as word;
ghost use Rattle.set_text.specs.Registry.{is_ident};
ghost use Rattle.set_text.specs.parts.Sorts.{is_of};

use app_registry::{Ident, IdentRefusal};
use cynara_keys::{BucketName, BucketNameRefusal};
use desk_ports::{FileName, FileNameRefusal};
use std::alloc::{AllocError, Global};

/// The file of the installs.
pub const APPS: &[u8] = b"apps";

/// The file of the buckets and their fallbacks.
pub const BUCKETS: &[u8] = b"buckets";

/// The file of the commit number.
pub const STAMP: &[u8] = b"stamp";

/// The file of the rule template.
pub const TEMPLATE: &[u8] = b"template";

/// The file of the users.
pub const USERS: &[u8] = b"users";

/// The sorts of files.
#[derive(Clone, Copy)]
pub enum Sort {
    /// The file of a bucket.
    Bucket,
    /// The load file of a package.
    Load,
    /// Any other file.
    Other,
}

/// Whether the file of this name is of a sort.
pub fn is_of(alloc: Global, name: &FileName, sort: Sort) -> bool
    ensures { result ≡ is_of sort name.now }
{
    let name = name.as_slice();
    match sort {
        Sort::Bucket => is_bucket_file(alloc, name),
        Sort::Load => is_load_file(alloc, name),
        Sort::Other => !is_bucket_file(alloc, name) && !is_load_file(alloc, name),
    }
}

fn is_bucket_file(alloc: Global, name: &[u8]) -> bool
    ensures { result ≡ word.is_bucket_file name.now }
{
    match name {
        [b'_', bucket @ ..] => is_bucket_name(alloc, bucket),
        _ => false,
    }
}

fn is_load_file(alloc: Global, name: &[u8]) -> bool
    ensures { result ≡ word.is_load_file name.now }
{
    match name {
        [b'r', b'.', package @ ..] => is_ident(alloc, package),
        _ => false,
    }
}

fn is_bucket_name(alloc: Global, bytes: &[u8]) -> bool
    ensures { result ≡ is_bucket_name bytes.now }
{
    match BucketName::read(alloc, bytes) {
        Ok(_) => true,
        Err(BucketNameRefusal::Memory(_)) => true,
        Err(_) => false,
    }
}

fn is_ident(alloc: Global, bytes: &[u8]) -> bool
    ensures { result ≡ is_ident bytes.now }
{
    match Ident::read(alloc, bytes) {
        Ok(_) => true,
        Err(IdentRefusal::Memory(_)) => true,
        Err(_) => false,
    }
}

/// The name with these bytes.
pub fn known_name(alloc: Global, bytes: &[u8]) -> Result<FileName, AllocError>
    requires { IsFileName bytes.now }
    ensures { IfOk result (λ name. name ≡ bytes.now) }
{
    match FileName::read(alloc, bytes) {
        Ok(name) => Ok(name),
        Err(FileNameRefusal::Memory(error)) => Err(error),
        Err(_) => unreachable!(),
    }
}

/// The names of the files that every set has, in order.
pub fn fixed_files(alloc: Global) -> Result<Vec<FileName>, AllocError>
    ensures { IfOk result (λ names. names.items ≡ word.fixed_files) }
{
    let mut names = Vec::new(alloc);
    names.push(known_name(alloc, APPS)?)?;
    names.push(known_name(alloc, BUCKETS)?)?;
    names.push(known_name(alloc, STAMP)?)?;
    names.push(known_name(alloc, TEMPLATE)?)?;
    names.push(known_name(alloc, USERS)?)?;
    Ok(names)
}

/// The name of the file of a bucket.
pub fn bucket_file(alloc: Global, bucket: &BucketName) -> Result<FileName, AllocError>
    ensures { IfOk result (λ name. name ≡ word.bucket_file bucket.now) }
{
    let mut name = Vec::new(alloc);
    name.push(b'_')?;
    name.extend_from_slice(bucket.as_slice())?;
    known_name(alloc, &name)
}

/// The name of the load file of a package.
pub fn load_file(alloc: Global, package: &Ident) -> Result<FileName, AllocError>
    ensures { IfOk result (λ name. name ≡ word.load_file «package».now) }
{
    let mut name = Vec::new(alloc);
    name.extend_from_slice(b"r.")?;
    name.extend_from_slice(package.as_slice())?;
    known_name(alloc, &name)
}
