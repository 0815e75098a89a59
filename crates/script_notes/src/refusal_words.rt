// Which rule a refusal says is broken, and what keeps it.

use crate::shown::shown;
use app_registry::{Ident, UserType};
use cynara_keys::{BucketName, Counted, Kind};
use desk_state::Refusal;
use policy_levels::LevelRefusal;
use private_sharing::ShareRefusal;
use std::alloc::{AllocError, Global};

/// How often a share may be open.
const MOST_OPENINGS: u64 = 4_294_967_295;

/// The buckets that `layout` makes.
const BUILT_IN: [&[u8]; 7] = [
    b"MAIN",
    b"MANIFESTS",
    b"ADMIN",
    b"USER_TYPE_SYSTEM",
    b"USER_TYPE_ADMIN",
    b"USER_TYPE_NORMAL",
    b"USER_TYPE_GUEST",
];

/// What a command's refusal says.
pub fn refusal_words(alloc: Global, refusal: &Refusal) -> Result<String, AllocError> {
    match refusal {
        Refusal::Reserved(bucket) => reserved_words(alloc, bucket),
        Refusal::NoBucket(bucket) => bucket_words(alloc, bucket),
        Refusal::UnknownUser(uid) => user_words(alloc, *uid),
        Refusal::OtherPackage(package) => package_words(alloc, package),
        Refusal::OtherAuthor(author) => author_words(alloc, author),
        Refusal::Limit(counted, most) => limit_words(alloc, *counted, *most),
        Refusal::Cycle(bucket) => cycle_words(alloc, bucket),
        _ => {
            let words = fixed_words(refusal);
            format!(in alloc; "{words}")
        }
    }
}

// The words of a refusal that are the same whatever the names.
fn fixed_words(refusal: &Refusal) -> &'static str {
    match refusal {
        Refusal::LayoutThere => "the layout is there already, and is made once",
        Refusal::NoLayout => "there is no layout yet; 'layout' makes it",
        Refusal::RootBucket => "the root bucket stays; 'erase . # # #' takes its policies out",
        Refusal::BadKind(Kind::NONE) => "the fallback of the root bucket is not none",
        Refusal::BadKind(_) => "a fallback does not point to a bucket",
        Refusal::OtherHybrid(true) =>
            "the package is hybrid: 'hybrid' installs for it, and 'convert' makes it plain",
        Refusal::OtherHybrid(false) =>
            "the package is plain: 'install' installs for it, and 'convert' makes it hybrid",
        Refusal::NotInstalled =>
            "that is not installed: the application for this scope, or any of the package",
        _ => "a rule is broken",
    }
}

fn reserved_words(alloc: Global, bucket: &BucketName) -> Result<String, AllocError> {
    let name = bucket.as_slice();
    let shown = shown(alloc, name)?;
    if name == b"MAIN".as_slice() || name == b"MANIFESTS".as_slice() {
        return format!(in alloc;
            "the bucket {shown} is the layout's: users and installs decide it"
        );
    }
    format!(in alloc; "the bucket {shown} is the layout's, which makes and keeps it")
}

/// That a bucket is not there.
pub fn bucket_words(alloc: Global, bucket: &BucketName) -> Result<String, AllocError> {
    let name = bucket.as_slice();
    let shown = shown(alloc, name)?;
    if BUILT_IN.iter().any(|known| name == *known) {
        return format!(in alloc; "no bucket {shown}; 'layout' makes it");
    }
    format!(in alloc; "no bucket {shown}; buckets are made by 'bucket'")
}

/// That a user is not there.
pub fn user_words(alloc: Global, uid: u32) -> Result<String, AllocError> {
    format!(in alloc; "no user {uid}; users are added by 'user'")
}

fn package_words(alloc: Global, package: &Ident) -> Result<String, AllocError> {
    let shown = shown(alloc, package.as_slice())?;
    format!(in alloc; "the application is one of the package {shown}, and of no other")
}

fn author_words(alloc: Global, author: &Option<Ident>) -> Result<String, AllocError> {
    match author {
        Some(author) => {
            let shown = shown(alloc, author.as_slice())?;
            format!(in alloc; "the package is by the author {shown}, for all of its installs")
        }
        None => format!(in alloc;
            "the package is by no author, written -, for all of its installs"
        ),
    }
}

fn limit_words(alloc: Global, counted: Counted, most: u64) -> Result<String, AllocError> {
    let what = counted_word(counted);
    format!(in alloc; "at most {most} {what} may be there")
}

fn counted_word(counted: Counted) -> &'static str {
    match counted {
        Counted::Commits => "accepted commands",
        Counted::Users => "users",
        Counted::Packages => "packages",
        Counted::Installs => "installs",
        Counted::Grants => "privileges of all installs",
        Counted::Buckets => "buckets",
        Counted::Policies => "policies over all buckets",
    }
}

fn cycle_words(alloc: Global, bucket: &BucketName) -> Result<String, AllocError> {
    let name = bucket.as_slice();
    if name.is_empty() {
        return format!(in alloc; "the root bucket would lead back to itself");
    }
    let shown = shown(alloc, name)?;
    format!(in alloc; "the bucket {shown} would lead back to itself")
}

/// What the refusal of a request for a level says.
pub fn level_words(alloc: Global, refusal: LevelRefusal) -> Result<String, AllocError> {
    match refusal {
        LevelRefusal::UnknownUser(uid) => user_words(alloc, uid),
        LevelRefusal::NotAdministrator(kind) => {
            let kind = type_word(kind);
            format!(in alloc;
                "a user of type {kind} sets levels for nobody else; those of type system and admin do"
            )
        }
        _ => format!(in alloc; "there is no layout yet; 'layout' makes it"),
    }
}

fn type_word(kind: UserType) -> &'static str {
    match kind {
        UserType::System => "system",
        UserType::Admin => "admin",
        UserType::Normal => "normal",
        UserType::Guest => "guest",
    }
}

/// That an application is not installed.
pub fn app_words(alloc: Global, app: &Ident) -> Result<String, AllocError> {
    let shown = shown(alloc, app.as_slice())?;
    format!(in alloc; "no application {shown} is installed; 'install' and 'hybrid' do that")
}

/// What the refusal of a share says.
pub fn share_words(alloc: Global, refusal: &ShareRefusal) -> Result<String, AllocError> {
    match refusal {
        ShareRefusal::UnknownApp(app) => app_words(alloc, app),
        ShareRefusal::SameLabel(label) => {
            let shown = shown(alloc, label.as_slice())?;
            format!(in alloc; "both applications run with the label {shown}, so they share all")
        }
        ShareRefusal::Most(MOST_OPENINGS) => {
            format!(in alloc; "a share is opened at most {MOST_OPENINGS} times")
        }
        ShareRefusal::Most(most) => format!(in alloc; "at most {most} shares are open"),
        _ => format!(in alloc;
            "there is no such share; 'shares' lists the rules of those that are open"
        ),
    }
}
