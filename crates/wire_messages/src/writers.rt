// The fields of messages, appended to a frame in their one spelling.
ghost use Rattle.wire_fields.specs.Field as field;
ghost use Rattle.wire_fields.specs.Appended.{Appended};

use app_registry::{Ident, Scope, UserType};
use byteorder::{BigEndian, ByteOrder};
use cynara_keys::{
    BucketName, Filter, FilterField, Key, Kind, Name, Policy, PolicyResult, Question,
};
use desk_ports::{Bytes, FileName};
use rule_templates::Template;
use std::alloc::AllocError;
use wire_fields::plain_writers::{put_text, put1, put2, put4};

/// Puts the name of a client, a user or a privilege.
pub fn put_name(out: &mut Bytes, name: &Name) -> Result<(), AllocError>
    ensures { Appended result out.old out.new (field.name.spelled name.now) }
{
    put_text(out, name.as_slice())
}

/// Puts the name of a bucket; that of the root is empty.
pub fn put_bucket(out: &mut Bytes, name: &BucketName) -> Result<(), AllocError>
    ensures { Appended result out.old out.new (field.bucket.spelled name.now) }
{
    put_text(out, name.as_slice())
}

/// Puts the identifier of a package or an application.
pub fn put_ident(out: &mut Bytes, name: &Ident) -> Result<(), AllocError>
    ensures { Appended result out.old out.new (field.ident.spelled name.now) }
{
    put_text(out, name.as_slice())
}

/// Puts the name of a file of rules.
pub fn put_file_name(out: &mut Bytes, name: &FileName) -> Result<(), AllocError>
    ensures { Appended result out.old out.new (field.file_name.spelled name.now) }
{
    put_text(out, name.as_slice())
}

/// Puts `#` for any field, `*`, or a name.
pub fn put_filter_field(out: &mut Bytes, part: &FilterField) -> Result<(), AllocError>
    ensures { Appended result out.old out.new (field.filter_field.spelled part.now) }
{
    match part {
        FilterField::Every => put_text(out, b"#"),
        FilterField::Any => put_text(out, b"*"),
        FilterField::Exact(name) => put_name(out, name),
    }
}

/// Puts the names of the client, the user and the privilege: in place, since a check is little more than its question.
#[inline(always)]
pub fn put_question(out: &mut Bytes, question: &Question) -> Result<(), AllocError>
    ensures { Appended result out.old out.new (field.question.spelled question.now) }
{
    put_text(out, question.client())?;
    put_text(out, question.user())?;
    put_text(out, question.privilege())
}

/// Puts the key of a policy: client, user and privilege.
pub fn put_key(out: &mut Bytes, key: &Key) -> Result<(), AllocError>
    ensures { Appended result out.old out.new (field.key.spelled key.now) }
{
    out.append(key.packed())
}

/// Puts a filter of keys: client, user and privilege.
pub fn put_filter(out: &mut Bytes, filter: &Filter) -> Result<(), AllocError>
    ensures { Appended result out.old out.new (field.filter.spelled filter.now) }
{
    put_filter_field(out, &filter.client)?;
    put_filter_field(out, &filter.user)?;
    put_filter_field(out, &filter.privilege)
}

/// Puts a kind and the metadata that it may have.
pub fn put_ruling(out: &mut Bytes, ruling: &PolicyResult) -> Result<(), AllocError>
    ensures { Appended result out.old out.new (field.ruling.spelled ruling.now) }
{
    put_kind_and_metadata(out, ruling.kind(), ruling.metadata().as_slice())
}

/// Puts a kind and this metadata behind it.
pub fn put_kind_and_metadata(out: &mut Bytes, kind: Kind, metadata: &[u8]) -> Result<(), AllocError>
    ensures { Appended result out.old out.new
        (field.ruling.spelled (record { kind = kind.0; metadata = metadata.now })) }
{
    let mut at_kind = [0; 2];
    BigEndian::write_u16(&mut at_kind, kind.0);
    let mut count = [0; 8];
    BigEndian::write_u64(&mut count, metadata.len() as u64);
    out.append_both(&[at_kind[0], at_kind[1], count[6], count[7]], metadata)
}

/// Puts a policy: its key, and its result behind that.
pub fn put_policy(out: &mut Bytes, policy: &Policy) -> Result<(), AllocError>
    ensures { Appended result out.old out.new (field.policy.spelled policy.now) }
{
    put_key(out, &policy.key)?;
    put_ruling(out, &policy.result)
}

/// Puts a template of rules in its one spelling.
pub fn put_template(out: &mut Bytes, template: &Template) -> Result<(), AllocError>
    ensures { Appended result out.old out.new (field.template.spelled template.now) }
{
    let text = template.text()?;
    put_text(out, &text)
}

/// Puts the byte of a type of user.
pub fn put_user_type(out: &mut Bytes, kind: UserType) -> Result<(), AllocError>
    ensures { Appended result out.old out.new (field.user_type.spelled kind) }
{
    match kind {
        UserType::System => put1(out, 0),
        UserType::Admin => put1(out, 1),
        UserType::Normal => put1(out, 2),
        UserType::Guest => put1(out, 3),
    }
}

/// Puts the identifier of an author; no bytes stand for none.
pub fn put_author(out: &mut Bytes, author: &Option<Ident>) -> Result<(), AllocError>
    ensures { Appended result out.old out.new (field.author.spelled author.now) }
{
    match author {
        Some(author) => put_ident(out, author),
        None => put2(out, 0),
    }
}

/// Puts for whom an install is: everyone, or one user.
pub fn put_scope(out: &mut Bytes, scope: Scope) -> Result<(), AllocError>
    ensures { Appended result out.old out.new (field.scope.spelled scope) }
{
    match scope {
        Scope::Everyone => put1(out, 0),
        Scope::One(uid) => {
            put1(out, 1)?;
            put4(out, uid)
        }
    }
}
