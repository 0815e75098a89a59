use app_registry::{Ident, Install, Scope, UserType};
use bucket_store::Changes;
use cynara_keys::{BucketName, Filter, PolicyResult};
use rule_templates::Template;
use std::alloc::{AllocError, Global};

/// What an administrator or an installer asks for.
#[derive(Debug, Drop)]
pub enum Command {
    /// The bucket is there with this fallback: it is made, or its fallback changed.
    SetBucket {
        bucket: BucketName,
        fallback: PolicyResult,
    },
    /// The bucket is not there, nor the policies that point to it.
    RemoveBucket {
        bucket: BucketName,
    },
    /// Policies are set and deleted, in the order of the changes; all of them or none.
    SetPolicies {
        changes: Changes,
    },
    /// The policies of the bucket whose keys the filter admits are not there.
    Erase {
        bucket: BucketName,
        filter: Filter,
    },
    /// The buckets for users and packages are there, and linked.
    Layout,
    /// Packages get their Smack rules from this template.
    SetTemplate {
        template: Template,
    },
    /// The user is there, and of this type.
    UserSet {
        uid: u32,
        kind: UserType,
    },
    /// The user is not there, nor what is installed for this user alone.
    UserRemove {
        uid: u32,
    },
    /// An application of a package is installed for a scope, with these privileges.
    Install {
        install: Install,
    },
    /// The application is not installed for the scope.
    Uninstall {
        app: Ident,
        scope: Scope,
    },
    /// The package is hybrid, each of its applications with a label of its own, or it is plain.
    Convert {
        package: Ident,
        hybrid: bool,
    },
}

ghost use Rattle.std.specs.Prelude.{◌≡◌, IfOk};

impl Command {
    /// An equal command, which shares the names' bytes.
    pub fn copy(&self, alloc: Global) -> Result<Command, AllocError>
        ensures { IfOk result (λ copy. copy ≡ self.now) }
    {
        match self {
            Command::SetBucket { bucket, fallback } => Ok(Command::SetBucket {
                bucket: bucket.copy()?,
                fallback: fallback.copy()?,
            }),
            Command::RemoveBucket { bucket } => Ok(Command::RemoveBucket {
                bucket: bucket.copy()?,
            }),
            Command::SetPolicies { changes } => Ok(Command::SetPolicies {
                changes: changes_copy(alloc, changes)?,
            }),
            Command::Erase { bucket, filter } => Ok(Command::Erase {
                bucket: bucket.copy()?,
                filter: filter.copy()?,
            }),
            Command::Layout => Ok(Command::Layout),
            Command::SetTemplate { template } => Ok(Command::SetTemplate {
                template: template.copy()?,
            }),
            Command::UserSet { uid, kind } => Ok(Command::UserSet {
                uid: *uid,
                kind: *kind,
            }),
            Command::UserRemove { uid } => Ok(Command::UserRemove { uid: *uid }),
            Command::Install { install } => Ok(Command::Install {
                install: install.copy()?,
            }),
            Command::Uninstall { app, scope } => Ok(Command::Uninstall {
                app: app.copy()?,
                scope: *scope,
            }),
            Command::Convert { package, hybrid } => Ok(Command::Convert {
                package: package.copy()?,
                hybrid: *hybrid,
            }),
        }
    }
}

fn changes_copy(alloc: Global, changes: &Changes) -> Result<Changes, AllocError>
    ensures { IfOk result (λ copy. copy ≡ changes.now) }
{
    let list = changes.as_slice();
    let mut copies = Vec::with_capacity(alloc, list.len())?;
    for change in list {
        copies.push(change.copy()?)?;
    }
    Ok(Changes::of(copies))
}
