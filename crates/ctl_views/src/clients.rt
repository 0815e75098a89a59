// The labels of applications, and the clients that policies name.
use app_registry::{Registry, install_client};
use bucket_store::Database;
use cynara_keys::Name;
use std::alloc::{AllocError, Global};

/// The labels of all installs, each once, in the order of their bytes.
pub(crate) fn client_names(alloc: Global, registry: &Registry) -> Result<Vec<Name>, AllocError> {
    let mut names = Vec::new(alloc);
    for install in registry.installs() {
        names.push(install_client(alloc, install)?)?;
    }
    names.sort_unstable();
    names.dedup();
    Ok(names)
}

/// The clients that policies name and installs do not, each once, in the order of their bytes.
pub(crate) fn named_clients(
    alloc: Global,
    database: &Database,
    labels: &[Name],
) -> Result<Vec<Name>, AllocError> {
    let mut names = Vec::new(alloc);
    for bucket in database.buckets() {
        for policy in bucket.policies() {
            push_other(alloc, &mut names, policy.key.client(), labels)?;
        }
    }
    names.sort_unstable();
    names.dedup();
    Ok(names)
}

// Appends the name, where it is one and no label.
fn push_other(
    alloc: Global,
    names: &mut Vec<Name>,
    client: &[u8],
    labels: &[Name],
) -> Result<(), AllocError> {
    if client == b"*".as_slice() {
        return Ok(());
    }
    if labels.iter().any(|label| label.as_slice() == client) {
        return Ok(());
    }
    if let Ok(name) = Name::read(alloc, client) {
        names.push(name)?;
    }
    Ok(())
}
