// That an audit would ask about more pairs than one may.

use app_registry::Install;
use desk_state::Desk;
use effective_audit::MOST_PAIRS;
use std::alloc::{AllocError, Global};

/// Why an audit is refused, in a person's words. `None` where it is not.
pub fn audit_words(alloc: Global, desk: &Desk) -> Result<Option<String>, AllocError> {
    let installs = desk.registry().installs();
    let clients = count_clients(installs);
    if clients.saturating_mul(count_granted(installs)) <= MOST_PAIRS {
        return Ok(None);
    }
    let pairs = clients.saturating_mul(count_privileges(alloc, installs)?);
    if pairs <= MOST_PAIRS {
        return Ok(None);
    }
    Ok(Some(format!(in alloc;
        "there are {pairs} pairs of an application and a privilege, and an audit asks about {MOST_PAIRS} at most; 'check' asks about one"
    )?))
}

// How many labels the installs with a privilege run with. Those of one label stand together.
fn count_clients(installs: &[Install]) -> u64 {
    let mut count: u64 = 0;
    let mut last: Option<&Install> = None;
    for install in installs {
        if !install.privileges.as_slice().is_empty() && !has_label_of(install, last) {
            count = count.saturating_add(1);
            last = Some(install);
        }
    }
    count
}

fn has_label_of(install: &Install, other: Option<&Install>) -> bool {
    let Some(other) = other else {
        return false;
    };
    install.package == other.package && (!install.hybrid || install.app == other.app)
}

// How many privileges the installs have, each as often as it is named.
fn count_granted(installs: &[Install]) -> u64 {
    let mut count: u64 = 0;
    for install in installs {
        count = count.saturating_add(install.privileges.as_slice().len() as u64);
    }
    count
}

// How many privileges the installs name.
fn count_privileges(alloc: Global, installs: &[Install]) -> Result<u64, AllocError> {
    let mut names: Vec<&[u8]> = Vec::new(alloc);
    for install in installs {
        for name in install.privileges.as_slice() {
            names.push(name.as_slice())?;
        }
    }
    names.sort_unstable();
    names.dedup();
    Ok(names.len() as u64)
}
