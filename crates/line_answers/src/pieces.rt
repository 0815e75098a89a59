//! The pieces of an answer's text. Where memory runs out in one, those before it stand.

ghost use Rattle.std.specs.Prelude.{◌≡◌, ◌++◌, decimal, OnOk, OnErr};
ghost use Rattle.line_answers.specs.Answers.{bucket_text, result_text, verdict_text, key_text, counted_text};
ghost use Rattle.line_answers.specs.Answers.{decision_text, ruling};
ghost use Rattle.line_answers.specs.parts.Appending.{Lengthens};

use cynara_keys::{Counted, Kind};
use desk_ports::Bytes;
use itoa::Buffer;
use std::alloc::AllocError;

/// `RESULT COMMIT BUCKET`, which each verdict begins with.
pub(crate) fn append_verdict(
    out: &mut Bytes,
    commit: u64,
    bucket: &[u8],
    kind: Kind,
    metadata: &[u8],
) -> Result<(), AllocError>
    ensures ok { OnOk result (out.new ≡ out.old ++ verdict_text commit bucket.now (ruling kind.0 metadata.now)) }
    ensures err { OnErr result (Lengthens out.old out.new) }
{
    append_result(out, kind, metadata)?;
    out.append(b" ")?;
    append_number(out, commit)?;
    out.append(b" ")?;
    append_bucket(out, bucket)
}

pub(crate) fn append_number(out: &mut Bytes, number: u64) -> Result<(), AllocError>
    ensures ok { OnOk result (out.new ≡ out.old ++ decimal number) }
    ensures err { OnErr result (Lengthens out.old out.new) }
{
    out.append(Buffer::new().format(number).as_bytes())
}

pub(crate) fn append_bucket(out: &mut Bytes, name: &[u8]) -> Result<(), AllocError>
    ensures ok { OnOk result (out.new ≡ out.old ++ bucket_text name.now) }
    ensures err { OnErr result (Lengthens out.old out.new) }
{
    if name.is_empty() {
        out.append(b".")
    } else {
        out.append(name)
    }
}

/// `CLIENT USER PRIVILEGE`.
pub(crate) fn append_key(
    out: &mut Bytes,
    client: &[u8],
    user: &[u8],
    privilege: &[u8],
) -> Result<(), AllocError>
    ensures ok { OnOk result (out.new ≡ out.old ++ key_text client.now user.now privilege.now) }
    ensures err { OnErr result (Lengthens out.old out.new) }
{
    out.append(client)?;
    out.append(b" ")?;
    out.append(user)?;
    out.append(b" ")?;
    out.append(privilege)
}

pub(crate) fn append_result(out: &mut Bytes, kind: Kind, metadata: &[u8]) -> Result<(), AllocError>
    ensures ok { OnOk result (out.new ≡ out.old ++ result_text (ruling kind.0 metadata.now)) }
    ensures err { OnErr result (Lengthens out.old out.new) }
{
    match kind {
        Kind::DENY => out.append(b"deny"),
        Kind::NONE => out.append(b"none"),
        Kind::ALLOW => out.append(b"allow"),
        Kind::BUCKET => {
            out.append(b"bucket:")?;
            append_bucket(out, metadata)
        }
        Kind(agent) => {
            out.append(b"agent:")?;
            append_number(out, u64::from(agent))?;
            out.append(b":")?;
            out.append(metadata)
        }
    }
}

pub(crate) fn append_decision(out: &mut Bytes, allowed: bool) -> Result<(), AllocError>
    ensures ok { OnOk result (out.new ≡ out.old ++ decision_text allowed) }
    ensures err { OnErr result (Lengthens out.old out.new) }
{
    out.append(if allowed {
        b"allow".as_slice()
    } else {
        b"deny".as_slice()
    })
}

pub(crate) fn append_counted(out: &mut Bytes, counted: Counted) -> Result<(), AllocError>
    ensures ok { OnOk result (out.new ≡ out.old ++ counted_text counted) }
    ensures err { OnErr result (Lengthens out.old out.new) }
{
    out.append(match counted {
        Counted::Commits => b"commits".as_slice(),
        Counted::Users => b"users".as_slice(),
        Counted::Packages => b"packages".as_slice(),
        Counted::Installs => b"installs".as_slice(),
        Counted::Grants => b"grants".as_slice(),
        Counted::Buckets => b"buckets".as_slice(),
        Counted::Policies => b"policies".as_slice(),
    })
}
