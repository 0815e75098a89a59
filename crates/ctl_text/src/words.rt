// Words as scripts write them.
ghost use Rattle.std.specs.Prelude.{◌≡◌, ◌++◌, OnOk};

use app_registry::{Scope, UserType};
use cynara_keys::{BucketName, Key, Kind, PolicyResult};
use desk_ports::Bytes;
use itoa::Buffer;
use std::alloc::AllocError;

/// Appends the text.
pub fn put(out: &mut Bytes, text: &str) -> Result<(), AllocError>
    ensures { OnOk result (out.new ≡ out.old ++ text.now) }
{
    out.append(text.as_bytes())
}

/// Appends the number in decimal.
pub fn put_number(out: &mut Bytes, number: u64) -> Result<(), AllocError> {
    out.append(Buffer::new().format(number).as_bytes())
}

/// Appends the bucket's name, `.` for the root.
pub fn put_bucket(out: &mut Bytes, bucket: &[u8]) -> Result<(), AllocError> {
    if bucket.is_empty() {
        return put(out, ".");
    }
    out.append(bucket)
}

/// Appends the three words of a key, with a space between two.
pub fn put_key(out: &mut Bytes, key: &Key) -> Result<(), AllocError> {
    out.append(key.client())?;
    put(out, " ")?;
    out.append(key.user())?;
    put(out, " ")?;
    out.append(key.privilege())
}

/// Appends the result.
pub fn put_result(out: &mut Bytes, ruling: &PolicyResult) -> Result<(), AllocError> {
    put_outcome(out, ruling.kind(), ruling.metadata().as_slice())
}

/// Appends the result of this kind and metadata.
pub fn put_outcome(out: &mut Bytes, kind: Kind, metadata: &[u8]) -> Result<(), AllocError> {
    if kind == Kind::BUCKET {
        put(out, "bucket:")?;
        return put_bucket(out, metadata);
    }
    put_kind(out, kind)?;
    if kind.is_agent() {
        put(out, ":")?;
        return out.append(metadata);
    }
    Ok(())
}

/// Appends the word of the kind: `deny`, `none`, `allow`, `bucket`, or `agent:` and its number.
pub fn put_kind(out: &mut Bytes, kind: Kind) -> Result<(), AllocError> {
    if kind == Kind::DENY {
        return put(out, "deny");
    }
    if kind == Kind::NONE {
        return put(out, "none");
    }
    if kind == Kind::ALLOW {
        return put(out, "allow");
    }
    if kind == Kind::BUCKET {
        return put(out, "bucket");
    }
    put(out, "agent:")?;
    put_number(out, u64::from(kind.0))
}

/// Appends the type of a user.
pub fn put_user_type(out: &mut Bytes, kind: UserType) -> Result<(), AllocError> {
    match kind {
        UserType::System => put(out, "system"),
        UserType::Admin => put(out, "admin"),
        UserType::Normal => put(out, "normal"),
        UserType::Guest => put(out, "guest"),
    }
}

/// Appends `*` for everyone, or the number of the one user.
pub fn put_scope(out: &mut Bytes, scope: Scope) -> Result<(), AllocError> {
    match scope {
        Scope::Everyone => put(out, "*"),
        Scope::One(uid) => put_number(out, u64::from(uid)),
    }
}
