// The lines of the script.
use app_registry::{Install, Registry, User};
use bucket_store::{Bucket, Database};
use ctl_text::{put, put_bucket, put_key, put_number, put_result, put_scope, put_user_type};
use cynara_keys::{Kind, Policy, PolicyResult};
use desk_ports::Bytes;
use desk_state::Desk;
use rule_templates::Template;
use std::alloc::{AllocError, Global};

/// The most changes of one command. So many fit into one message to a service.
const MOST_CHANGES: u32 = 500;

/// The script of the state. It has no answer about a state whose lines are longer than a script's may be: run it to
/// see.
pub(crate) fn script_of(alloc: Global, desk: &Desk) -> Result<Bytes, AllocError> {
    let mut out = Bytes::new(alloc);
    put(&mut out, "# the device at commit ")?;
    put_number(&mut out, desk.commit())?;
    put(&mut out, "\n")?;
    put_template(alloc, &mut out, desk.template())?;
    let laid_out = has_layout(desk.database());
    if laid_out {
        put(&mut out, "layout\n")?;
        put_lost_links(&mut out, desk.database())?;
    }
    put_buckets(&mut out, desk.database())?;
    put_users(&mut out, desk.registry().users())?;
    put_installs(&mut out, desk.registry())?;
    for bucket in desk.database().buckets() {
        if !is_managed(bucket) {
            put_policies(&mut out, bucket)?;
        }
    }
    Ok(out)
}

// The template, where it is not the one that a device begins with.
fn put_template(alloc: Global, out: &mut Bytes, template: &Template) -> Result<(), AllocError> {
    let text = template.text()?;
    let usual = Template::usual(alloc)?.text()?;
    if text.as_slice() == usual.as_slice() {
        return Ok(());
    }
    put(out, "template\n")?;
    out.append(&text)?;
    put(out, "end\n")
}

// Whether the built-in buckets are there.
fn has_layout(database: &Database) -> bool {
    database
        .buckets()
        .iter()
        .any(|bucket| bucket.name().as_slice() == b"MAIN".as_slice())
}

// Whether users and installs alone decide the bucket.
fn is_managed(bucket: &Bucket) -> bool {
    let name = bucket.name().as_slice();
    name == b"MAIN".as_slice() || name == b"MANIFESTS".as_slice()
}

// Whether a layout makes the bucket with the fallback `allow`.
fn is_administrators(bucket: &Bucket) -> bool {
    let name = bucket.name().as_slice();
    name == b"ADMIN".as_slice()
        || name == b"USER_TYPE_SYSTEM".as_slice()
        || name == b"USER_TYPE_ADMIN".as_slice()
        || name == b"USER_TYPE_NORMAL".as_slice()
        || name == b"USER_TYPE_GUEST".as_slice()
}

// Takes out the links that a layout puts and this state has not.
fn put_lost_links(out: &mut Bytes, database: &Database) -> Result<(), AllocError> {
    for bucket in database.buckets() {
        if link_of(bucket).is_some() && !has_key_of_all(bucket) {
            put(out, "unset ")?;
            put_bucket(out, bucket.name().as_slice())?;
            put(out, " * * *\n")?;
        }
    }
    Ok(())
}

// Whether a policy of the bucket has the key `* * *`.
fn has_key_of_all(bucket: &Bucket) -> bool {
    bucket.policies().iter().any(|policy| is_of_all(policy))
}

fn is_of_all(policy: &Policy) -> bool {
    let all = b"*".as_slice();
    policy.key.client() == all && policy.key.user() == all && policy.key.privilege() == all
}

// The buckets, but for those that are there with their fallbacks.
fn put_buckets(out: &mut Bytes, database: &Database) -> Result<(), AllocError> {
    for bucket in database.buckets() {
        if !is_made(bucket) {
            put(out, "bucket ")?;
            put_bucket(out, bucket.name().as_slice())?;
            put(out, " ")?;
            put_result(out, bucket.fallback())?;
            put(out, "\n")?;
        }
    }
    Ok(())
}

// Whether the bucket is there so before its line would come.
fn is_made(bucket: &Bucket) -> bool {
    if is_managed(bucket) {
        return true;
    }
    if is_administrators(bucket) {
        return is_plain(bucket.fallback(), Kind::ALLOW);
    }
    bucket.name().as_slice().is_empty() && is_plain(bucket.fallback(), Kind::DENY)
}

fn is_plain(ruling: &PolicyResult, kind: Kind) -> bool {
    ruling.kind() == kind && ruling.metadata().as_slice().is_empty()
}

fn put_users(out: &mut Bytes, users: &[User]) -> Result<(), AllocError> {
    for user in users {
        put(out, "user ")?;
        put_number(out, u64::from(user.uid))?;
        put(out, " ")?;
        put_user_type(out, user.kind)?;
        put(out, "\n")?;
    }
    Ok(())
}

fn put_installs(out: &mut Bytes, registry: &Registry) -> Result<(), AllocError> {
    for install in registry.installs() {
        put_install(out, install)?;
        put_privileges(out, install)?;
        put(out, "\n")?;
    }
    Ok(())
}

fn put_install(out: &mut Bytes, install: &Install) -> Result<(), AllocError> {
    put(
        out,
        if install.hybrid {
            "hybrid "
        } else {
            "install "
        },
    )?;
    out.append(install.package.as_slice())?;
    put(out, " ")?;
    match &install.author {
        Some(author) => out.append(author.as_slice())?,
        None => put(out, "-")?,
    }
    put(out, " ")?;
    out.append(install.app.as_slice())?;
    put(out, " ")?;
    put_scope(out, install.scope)
}

fn put_privileges(out: &mut Bytes, install: &Install) -> Result<(), AllocError> {
    for privilege in install.privileges.as_slice() {
        put(out, " ")?;
        out.append(privilege.as_slice())?;
    }
    Ok(())
}

// The policies of a bucket but those that a layout puts there, so many in one command.
fn put_policies(out: &mut Bytes, bucket: &Bucket) -> Result<(), AllocError> {
    let mut count = 0u32;
    for policy in bucket.policies() {
        if is_laid(bucket, policy) {
            continue;
        }
        if count == 0 {
            put(out, "batch\n")?;
        }
        put_change(out, bucket.name().as_slice(), policy)?;
        count = count.saturating_add(1);
        if count == MOST_CHANGES {
            put(out, "end\n")?;
            count = 0;
        }
    }
    if count > 0 {
        put(out, "end\n")?;
    }
    Ok(())
}

// Whether a layout puts the policy into the bucket.
fn is_laid(bucket: &Bucket, policy: &Policy) -> bool {
    match link_of(bucket) {
        Some(target) => {
            is_of_all(policy)
                && policy.result.kind() == Kind::BUCKET
                && policy.result.metadata().as_slice() == target
        }
        None => false,
    }
}

// The bucket to which a layout sends all questions of this one, by a policy that an administrator may take out.
fn link_of(bucket: &Bucket) -> Option<&'static [u8]> {
    let name = bucket.name().as_slice();
    if name.is_empty() {
        return Some(b"MAIN".as_slice());
    }
    if is_administrators(bucket) && name != b"ADMIN".as_slice() {
        return Some(b"ADMIN".as_slice());
    }
    None
}

fn put_change(out: &mut Bytes, name: &[u8], policy: &Policy) -> Result<(), AllocError> {
    put(out, "set ")?;
    put_bucket(out, name)?;
    put(out, " ")?;
    put_key(out, &policy.key)?;
    put(out, " ")?;
    put_result(out, &policy.result)?;
    put(out, "\n")
}
