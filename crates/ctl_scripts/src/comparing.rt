// Two states, asked the same.

use app_registry::{Registry, user_name};
use bucket_eval::{Index, Scratch};
use bucket_store::Database;
use ctl_text::{put, put_result};
use cynara_keys::{BorrowedQuestion, Name};
use desk_ports::Bytes;
use std::alloc::{AllocError, Global};

/// An application, by its label, and a privilege that an install of it asks for.
#[derive(Drop)]
pub(crate) struct Grant {
    client: Name,
    privilege: Name,
}

/// Two databases, as they are asked.
#[derive(Drop)]
pub(crate) struct Comparison {
    before: Index,
    after: Index,
    scratch: Scratch,
}

impl Comparison {
    pub(crate) fn of(
        alloc: Global,
        before: &Database,
        after: &Database,
    ) -> Result<Comparison, AllocError> {
        Ok(Comparison {
            before: Index::build(alloc, before)?,
            after: Index::build(alloc, after)?,
            scratch: Scratch::new(alloc)?,
        })
    }

    /// Tells the checks of this user whose result changes, and how many they are.
    pub(crate) fn put_changes(
        &mut self,
        out: &mut Bytes,
        user: &Name,
        grants: &[Grant],
    ) -> Result<u64, AllocError> {
        let mut changed = 0u64;
        for grant in grants {
            if self.put_change(out, user, grant)? {
                changed = changed.saturating_add(1);
            }
        }
        Ok(changed)
    }

    // Tells the check, where its result changes, and whether it does.
    fn put_change(
        &mut self,
        out: &mut Bytes,
        user: &Name,
        grant: &Grant,
    ) -> Result<bool, AllocError> {
        let client = grant.client.as_slice();
        let privilege = grant.privilege.as_slice();
        let question = BorrowedQuestion::of(client, user.as_slice(), privilege);
        let before = self.before.decide(&mut self.scratch, &question);
        let after = self.after.decide(&mut self.scratch, &question);
        if before.result == after.result {
            return Ok(false);
        }
        out.append(client)?;
        put(out, " ")?;
        out.append(user.as_slice())?;
        put(out, " ")?;
        out.append(privilege)?;
        put(out, ": ")?;
        put_result(out, before.result)?;
        put(out, " -> ")?;
        put_result(out, after.result)?;
        put(out, "\n")?;
        Ok(true)
    }
}

/// The users of both, each once.
pub(crate) fn users_asked(
    alloc: Global,
    before: &Registry,
    after: &Registry,
) -> Result<Vec<Name>, AllocError> {
    let mut uids = Vec::new(alloc);
    for user in before.users() {
        uids.push(user.uid)?;
    }
    for user in after.users() {
        uids.push(user.uid)?;
    }
    uids.sort_unstable();
    uids.dedup();
    let mut names = Vec::new(alloc);
    for uid in &uids {
        names.push(user_name(alloc, *uid)?)?;
    }
    Ok(names)
}

/// What installs of both ask for, each once.
pub(crate) fn keys_asked(
    alloc: Global,
    before: &Registry,
    after: &Registry,
) -> Result<Vec<Grant>, AllocError> {
    let mut rows = before.manifest_rows()?;
    let mut later = after.manifest_rows()?;
    rows.append(&mut later)?;
    rows.sort_unstable();
    let mut grants: Vec<Grant> = Vec::new(alloc);
    for row in &rows {
        push_grant(alloc, &mut grants, row.client(), row.privilege())?;
    }
    Ok(grants)
}

// Appends the pair, unless it is there.
fn push_grant(
    alloc: Global,
    grants: &mut Vec<Grant>,
    client: &[u8],
    privilege: &[u8],
) -> Result<(), AllocError> {
    for grant in grants.iter().rev() {
        if grant.client.as_slice() != client {
            break;
        }
        if grant.privilege.as_slice() == privilege {
            return Ok(());
        }
    }
    let Ok(client) = Name::read(alloc, client) else {
        return Ok(());
    };
    let Ok(privilege) = Name::read(alloc, privilege) else {
        return Ok(());
    };
    grants.push(Grant { client, privilege })?;
    Ok(())
}
