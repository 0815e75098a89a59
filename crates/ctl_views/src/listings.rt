// Listings, a line each.
use app_registry::{Install, User};
use ctl_text::{put, put_bucket, put_number, put_result, put_scope, put_user_type};
use desk_ports::Bytes;
use desk_state::Desk;
use std::alloc::{AllocError, Global};

/// The users: `UID TYPE INSTALLS`, the last how many installs are for this user alone.
pub fn list_users(alloc: Global, desk: &Desk) -> Result<Bytes, AllocError> {
    let mut out = Bytes::new(alloc);
    let installs = desk.registry().installs();
    for user in desk.registry().users() {
        put_user(&mut out, *user, installs)?;
    }
    Ok(out)
}

fn put_user(out: &mut Bytes, user: User, installs: &[Install]) -> Result<(), AllocError> {
    put_number(out, u64::from(user.uid))?;
    put(out, " ")?;
    put_user_type(out, user.kind)?;
    put(out, " ")?;
    put_number(out, installs_for(user.uid, installs))?;
    put(out, "\n")
}

// How many installs are for this user alone.
fn installs_for(uid: u32, installs: &[Install]) -> u64 {
    let mut count = 0u64;
    for install in installs {
        if install.scope == app_registry::Scope::One(uid) {
            count = count.saturating_add(1);
        }
    }
    count
}

/// The packages: `PACKAGE KIND AUTHOR INSTALLS`, the kind `plain` or `hybrid`, and `-` for no author.
pub fn list_packages(alloc: Global, desk: &Desk) -> Result<Bytes, AllocError> {
    let mut out = Bytes::new(alloc);
    let mut last: Option<&Install> = None;
    for install in desk.registry().installs() {
        let is_new = match last {
            Some(before) => before.package != install.package,
            None => true,
        };
        if is_new {
            let own = desk.registry().installs_of(&install.package);
            put_package(&mut out, install, own.len() as u64)?;
        }
        last = Some(install);
    }
    Ok(out)
}

fn put_package(out: &mut Bytes, install: &Install, count: u64) -> Result<(), AllocError> {
    out.append(install.package.as_slice())?;
    put(
        out,
        if install.hybrid {
            " hybrid "
        } else {
            " plain "
        },
    )?;
    put_author(out, install)?;
    put(out, " ")?;
    put_number(out, count)?;
    put(out, "\n")
}

fn put_author(out: &mut Bytes, install: &Install) -> Result<(), AllocError> {
    match &install.author {
        Some(author) => out.append(author.as_slice()),
        None => put(out, "-"),
    }
}

/// The installs: `APP PACKAGE SCOPE PRIVILEGE..`.
pub fn list_apps(alloc: Global, desk: &Desk) -> Result<Bytes, AllocError> {
    let mut out = Bytes::new(alloc);
    for install in desk.registry().installs() {
        put_app(&mut out, install)?;
    }
    Ok(out)
}

fn put_app(out: &mut Bytes, install: &Install) -> Result<(), AllocError> {
    out.append(install.app.as_slice())?;
    put(out, " ")?;
    out.append(install.package.as_slice())?;
    put(out, " ")?;
    put_scope(out, install.scope)?;
    for privilege in install.privileges.as_slice() {
        put(out, " ")?;
        out.append(privilege.as_slice())?;
    }
    put(out, "\n")
}

/// The buckets: `BUCKET FALLBACK POLICIES`, the last how many there are.
pub fn list_buckets(alloc: Global, desk: &Desk) -> Result<Bytes, AllocError> {
    let mut out = Bytes::new(alloc);
    for bucket in desk.database().buckets() {
        put_bucket(&mut out, bucket.name().as_slice())?;
        put(&mut out, " ")?;
        put_result(&mut out, bucket.fallback())?;
        put(&mut out, " ")?;
        put_number(&mut out, bucket.policies().len() as u64)?;
        put(&mut out, "\n")?;
    }
    Ok(out)
}
