// The fields of messages, read from the front of what is left of a frame.
ghost use Rattle.std.specs.Prelude.{◌≡◌, ◌≤◌, None, IfOk, length};
ghost use Rattle.cynara_keys.specs.Limits.{most_short_bytes};
ghost use Rattle.cynara_keys.specs.Name.{name_fault};
ghost use Rattle.cynara_keys.specs.Field.{field_fault};
ghost use Rattle.wire_fields.specs.Left.{Gives, GivesText, OnMemory};
ghost use Rattle.wire_fields.specs.Format as format;
ghost use Rattle.wire_fields.specs.Field as field;

use crate::WireRefusal;
use crate::fields::Fields;
use crate::limits::MOST_PART_BYTES;
use crate::name_texts::is_name;
use crate::verdicts::BorrowedRuling;
use app_registry::{Ident, IdentRefusal, Scope, UserType};
use cynara_keys::{
    BucketName, BucketNameRefusal, Filter, FilterField, Key, Kind, Metadata, MetadataRefusal, Name,
    NameRefusal, Policy, PolicyResult, Question, field_fault, is_bucket_name, is_metadata,
};
use desk_ports::{Bytes, FileName, FileNameRefusal};
use rule_templates::{Template, TemplateRefusal};
use std::alloc::Global;

/// Reads the name of a client, a user or a privilege.
pub fn name(alloc: Global, fields: &mut Fields) -> Result<Name, WireRefusal>
    ensures { Gives result fields.new (field.name.read fields.old) }
{
    let place = fields.place();
    let text = fields.text()?;
    match Name::read(alloc, text) {
        Ok(name) => Ok(name),
        Err(NameRefusal::Memory(error)) => Err(WireRefusal::Memory(error)),
        Err(_) => Err(WireRefusal::BadField(place)),
    }
}

/// Reads the name of a bucket; that of the root is empty.
pub fn bucket(alloc: Global, fields: &mut Fields) -> Result<BucketName, WireRefusal>
    ensures { Gives result fields.new (field.bucket.read fields.old) }
{
    let place = fields.place();
    let text = fields.text()?;
    match BucketName::read(alloc, text) {
        Ok(name) => Ok(name),
        Err(BucketNameRefusal::Memory(error)) => Err(WireRefusal::Memory(error)),
        Err(_) => Err(WireRefusal::BadField(place)),
    }
}

/// Reads the bytes of a bucket's name, which are lent and not copied.
pub fn bucket_text<'a>(fields: &mut Fields<'a>) -> Result<&'a [u8], WireRefusal>
    ensures text { GivesText result fields.new (field.bucket.read fields.old) }
    ensures short { IfOk result (λ text. length text.now ≤ most_short_bytes) }
{
    let place = fields.place();
    let text = fields.text()?;
    if !is_bucket_name(text) {
        return Err(WireRefusal::BadField(place));
    }
    Ok(text)
}

/// Reads the bytes of a name, which are lent and not copied.
pub fn name_text<'a>(fields: &mut Fields<'a>) -> Result<&'a [u8], WireRefusal>
    ensures text { GivesText result fields.new (field.name.read fields.old) }
    ensures name { IfOk result (λ text. name_fault text.now ≡ None) }
    ensures memory { OnMemory result ⊥ }
{
    let place = fields.place();
    let text = fields.text()?;
    if !is_name(text) {
        return Err(WireRefusal::BadField(place));
    }
    Ok(text)
}

/// Reads the bytes of `*` or a name, which are lent and not copied.
pub fn key_field_text<'a>(fields: &mut Fields<'a>) -> Result<&'a [u8], WireRefusal>
    ensures text { GivesText result fields.new (field.field_text.read fields.old) }
    ensures field { IfOk result (λ text. field_fault text.now ≡ None) }
{
    let place = fields.place();
    let text = fields.text()?;
    if field_fault(text).is_some() {
        return Err(WireRefusal::BadField(place));
    }
    Ok(text)
}

/// Reads `#` for any field, `*`, or a name.
pub fn filter_field(alloc: Global, fields: &mut Fields) -> Result<FilterField, WireRefusal>
    ensures { Gives result fields.new (field.filter_field.read fields.old) }
{
    let place = fields.place();
    let text = fields.text()?;
    match FilterField::read(alloc, text) {
        Ok(field) => Ok(field),
        Err(NameRefusal::Memory(error)) => Err(WireRefusal::Memory(error)),
        Err(_) => Err(WireRefusal::BadField(place)),
    }
}

/// Reads a question: the names of the client, the user and the privilege.
pub fn question(alloc: Global, fields: &mut Fields) -> Result<Question, WireRefusal>
    ensures { Gives result fields.new (field.question.read fields.old) }
{
    let client = name_text(fields)?;
    let user = name_text(fields)?;
    let privilege = name_text(fields)?;
    Question::of(alloc, client, user, privilege).map_err(WireRefusal::Memory)
}

/// Reads the key of a policy: client, user and privilege, each a name or `*`.
pub fn key(alloc: Global, fields: &mut Fields) -> Result<Key, WireRefusal>
    ensures { Gives result fields.new (field.key.read fields.old) }
{
    let front = fields.rest();
    let client = key_field_text(fields)?;
    let user = key_field_text(fields)?;
    let privilege = key_field_text(fields)?;
    let packed = &front[..front.len() - fields.rest().len()];
    Key::of_packed(alloc, packed, client, user, privilege).map_err(WireRefusal::Memory)
}

/// Reads a filter of keys: client, user and privilege, each a name, `*`, or `#` for any.
pub fn filter(alloc: Global, fields: &mut Fields) -> Result<Filter, WireRefusal>
    ensures { Gives result fields.new (field.filter.read fields.old) }
{
    let client = filter_field(alloc, fields)?;
    let user = filter_field(alloc, fields)?;
    let privilege = filter_field(alloc, fields)?;
    Ok(Filter {
        client,
        user,
        privilege,
    })
}

/// Reads a byte that is 0 or 1.
pub fn flag(fields: &mut Fields) -> Result<bool, WireRefusal>
    ensures { Gives result fields.new (format.flag.read fields.old) }
{
    let place = fields.place();
    match fields.number1()? {
        0 => Ok(false),
        1 => Ok(true),
        _ => Err(WireRefusal::BadField(place)),
    }
}

/// Reads the number of a kind of result, of two bytes.
pub fn kind(fields: &mut Fields) -> Result<Kind, WireRefusal>
    ensures { Gives result fields.new (field.kind.read fields.old) }
{
    Ok(Kind(fields.number2()?))
}

/// Reads the number of a kind of agent, of two bytes.
pub fn agent_kind(fields: &mut Fields) -> Result<Kind, WireRefusal>
    ensures { Gives result fields.new (field.agent_kind.read fields.old) }
{
    let place = fields.place();
    let kind = kind(fields)?;
    if !kind.is_agent() {
        return Err(WireRefusal::BadField(place));
    }
    Ok(kind)
}

/// Reads how many open questions there may be, or how many numbers of questions.
pub fn most(fields: &mut Fields) -> Result<u32, WireRefusal>
    ensures { Gives result fields.new (field.most.read fields.old) }
{
    let place = fields.place();
    let most = fields.number4()?;
    if most != 1024 && most != 4_294_967_295 {
        return Err(WireRefusal::BadField(place));
    }
    Ok(most)
}

/// Reads a kind and the metadata that it may have, which is lent and not copied.
pub fn ruling_text<'a>(fields: &mut Fields<'a>) -> Result<BorrowedRuling<'a>, WireRefusal>
    ensures { Gives result fields.new (field.ruling.read fields.old) }
{
    let kind = kind(fields)?;
    let place = fields.place();
    let text = fields.text()?;
    if !is_metadata(text) || !kind.may_carry(text) {
        return Err(WireRefusal::BadField(place));
    }
    Ok(BorrowedRuling::of(kind, text))
}

// the metadata that a result of this kind may have, and the result
fn ruling_of(alloc: Global, kind: Kind, fields: &mut Fields) -> Result<PolicyResult, WireRefusal>
    ensures { Gives result fields.new
        ((format.seen (λ metadata. record { kind = kind.0; metadata = metadata }) (λ ruling. ruling.metadata)
        (field.metadata_of kind.0)).read fields.old) }
{
    let place = fields.place();
    let text = fields.text()?;
    let metadata = match Metadata::read(alloc, text) {
        Ok(metadata) => metadata,
        Err(MetadataRefusal::Memory(error)) => return Err(WireRefusal::Memory(error)),
        Err(_) => return Err(WireRefusal::BadField(place)),
    };
    match PolicyResult::of(kind, metadata) {
        Ok(ruling) => Ok(ruling),
        Err(_) => Err(WireRefusal::BadField(place)),
    }
}

/// Reads a kind and the metadata that it may have.
pub fn ruling(alloc: Global, fields: &mut Fields) -> Result<PolicyResult, WireRefusal>
    ensures { Gives result fields.new (field.ruling.read fields.old) }
{
    let kind = kind(fields)?;
    ruling_of(alloc, kind, fields)
}

/// Reads a policy: its key, and its result behind that.
pub fn policy(alloc: Global, fields: &mut Fields) -> Result<Policy, WireRefusal>
    ensures { Gives result fields.new (field.policy.read fields.old) }
{
    let key = key(alloc, fields)?;
    let result = ruling(alloc, fields)?;
    Ok(Policy { key, result })
}

/// Reads the byte of a type of user.
pub fn user_type(fields: &mut Fields) -> Result<UserType, WireRefusal>
    ensures { Gives result fields.new (field.user_type.read fields.old) }
{
    let place = fields.place();
    match fields.number1()? {
        0 => Ok(UserType::System),
        1 => Ok(UserType::Admin),
        2 => Ok(UserType::Normal),
        3 => Ok(UserType::Guest),
        _ => Err(WireRefusal::BadField(place)),
    }
}

/// Reads the identifier of a package or an application.
pub fn ident(alloc: Global, fields: &mut Fields) -> Result<Ident, WireRefusal>
    ensures { Gives result fields.new (field.ident.read fields.old) }
{
    let place = fields.place();
    let text = fields.text()?;
    match Ident::read(alloc, text) {
        Ok(ident) => Ok(ident),
        Err(IdentRefusal::Memory(error)) => Err(WireRefusal::Memory(error)),
        Err(_) => Err(WireRefusal::BadField(place)),
    }
}

/// Reads the identifier of an author; no bytes stand for none.
pub fn author(alloc: Global, fields: &mut Fields) -> Result<Option<Ident>, WireRefusal>
    ensures { Gives result fields.new (field.author.read fields.old) }
{
    let place = fields.place();
    let text = fields.text()?;
    if text.is_empty() {
        return Ok(None);
    }
    match Ident::read(alloc, text) {
        Ok(ident) => Ok(Some(ident)),
        Err(IdentRefusal::Memory(error)) => Err(WireRefusal::Memory(error)),
        Err(_) => Err(WireRefusal::BadField(place)),
    }
}

/// Reads for whom an install is: everyone, or one user.
pub fn scope(fields: &mut Fields) -> Result<Scope, WireRefusal>
    ensures { Gives result fields.new (field.scope.read fields.old) }
{
    if flag(fields)? {
        Ok(Scope::One(fields.number4()?))
    } else {
        Ok(Scope::Everyone)
    }
}

/// Reads the name of a file of rules.
pub fn file_name(alloc: Global, fields: &mut Fields) -> Result<FileName, WireRefusal>
    ensures { Gives result fields.new (field.file_name.read fields.old) }
{
    let place = fields.place();
    let text = fields.text()?;
    match FileName::read(alloc, text) {
        Ok(name) => Ok(name),
        Err(FileNameRefusal::Memory(error)) => Err(WireRefusal::Memory(error)),
        Err(_) => Err(WireRefusal::BadField(place)),
    }
}

/// Reads bytes of a file: at most 65,536 behind their number, which has four bytes. They are copied.
pub fn file_part(alloc: Global, fields: &mut Fields) -> Result<Bytes, WireRefusal>
    ensures { Gives result fields.new (field.file_part.read fields.old) }
{
    let place = fields.place();
    let part = fields.long_text()?;
    if part.len() > MOST_PART_BYTES {
        return Err(WireRefusal::BadField(place));
    }
    let mut bytes = Bytes::new(alloc);
    bytes.append(part)?;
    Ok(bytes)
}

/// Reads a template of rules in its one spelling.
pub fn template(alloc: Global, fields: &mut Fields) -> Result<Template, WireRefusal>
    ensures { Gives result fields.new (field.template.read fields.old) }
{
    let place = fields.place();
    let text = fields.text()?;
    let template = match Template::read(alloc, text) {
        Ok(template) => template,
        Err(TemplateRefusal::Memory(error)) => return Err(WireRefusal::Memory(error)),
        Err(_) => return Err(WireRefusal::BadField(place)),
    };
    match template.text() {
        Ok(spelled) if spelled.as_slice() == text => Ok(template),
        Ok(_) => Err(WireRefusal::BadField(place)),
        Err(error) => Err(WireRefusal::Memory(error)),
    }
}
