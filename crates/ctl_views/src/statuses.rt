// What there is of each.
use app_registry::Install;
use bucket_store::Bucket;
use ctl_text::{put, put_number};
use cynara_keys::Kind;
use desk_ports::Bytes;
use desk_state::Desk;
use std::alloc::{AllocError, Global};

/// The commit, and how many users, packages, installs, buckets and policies there are: a line each, `NAME NUMBER`.
pub fn list_status(alloc: Global, desk: &Desk) -> Result<Bytes, AllocError> {
    let mut out = Bytes::new(alloc);
    let registry = desk.registry();
    let buckets = desk.database().buckets();
    put_count(&mut out, "commit ", desk.commit())?;
    put_count(&mut out, "users ", registry.users().len() as u64)?;
    put_count(&mut out, "packages ", count_packages(registry.installs()))?;
    put_count(&mut out, "installs ", registry.installs().len() as u64)?;
    put_count(&mut out, "buckets ", buckets.len() as u64)?;
    put_count(&mut out, "policies ", count_policies(buckets))?;
    Ok(out)
}

/// The kinds of the agents that are there, and how many of the workers of clients serve a connection: a line each.
pub fn list_service(
    alloc: Global,
    kinds: &[Kind],
    workers: u32,
    served: u32,
) -> Result<Bytes, AllocError> {
    let mut out = Bytes::new(alloc);
    put(&mut out, "agents: ")?;
    put_kinds(&mut out, kinds)?;
    put(&mut out, "\nclient workers: ")?;
    put_number(&mut out, u64::from(served))?;
    put(&mut out, " of ")?;
    put_number(&mut out, u64::from(workers))?;
    put(&mut out, " serve a connection\n")?;
    Ok(out)
}

// The numbers of the kinds, or `none`.
fn put_kinds(out: &mut Bytes, kinds: &[Kind]) -> Result<(), AllocError> {
    if kinds.is_empty() {
        return put(out, "none");
    }
    let mut is_first = true;
    for kind in kinds {
        if !is_first {
            put(out, ", ")?;
        }
        is_first = false;
        put_number(out, u64::from(kind.0))?;
    }
    Ok(())
}

fn put_count(out: &mut Bytes, name: &str, count: u64) -> Result<(), AllocError> {
    put(out, name)?;
    put_number(out, count)?;
    put(out, "\n")
}

// Installs of a package stand together.
fn count_packages(installs: &[Install]) -> u64 {
    let mut count = 0u64;
    let mut last: Option<&Install> = None;
    for install in installs {
        let is_new = match last {
            Some(before) => before.package != install.package,
            None => true,
        };
        if is_new {
            count = count.saturating_add(1);
        }
        last = Some(install);
    }
    count
}

fn count_policies(buckets: &[Bucket]) -> u64 {
    let mut count = 0u64;
    for bucket in buckets {
        count = count.saturating_add(bucket.policies().len() as u64);
    }
    count
}
