//! What single words say. Each function takes the next word of a line.

ghost use Rattle.std.specs.Prelude.{◌≡◌, None, IsTrue, IfOk};
ghost use Rattle.cynara_keys.specs.Name.{name_fault};
ghost use Rattle.cynara_keys.specs.Field.{field_of, field_fault};
ghost use Rattle.smack_rules.specs.Modes.{is_request};
ghost use Rattle.script_words.specs.Words.{word, end_of};
ghost use Rattle.script_words.specs.WordForms.{bucket_at, name_at, field_at, filter_field_at, depth_at};
ghost use Rattle.script_words.specs.WordForms.{uid_at, user_type_at, scope_at, package_kind_at, setter_named, ident_at};
ghost use Rattle.script_words.specs.WordForms.{author_at, label_at, request_at};
ghost use Rattle.level_requests.specs.Level.{level_at};
ghost use Rattle.script_words.specs.Reading.{GivesWord, GivesText};

use crate::line_words::Words;
use crate::numbers::read_number;
use crate::refusals::LineRefusal;
use app_registry::{Ident, IdentRefusal, Scope, UserType};
use cynara_keys::{
    BucketName, BucketNameRefusal, FilterField, Name, NameRefusal, field_fault, name_fault,
};
use level_requests::Level;
use smack_rules::{Label, LabelRefusal, Modes};
use std::alloc::Global;

/// That no word is left.
#[tactic(auto, unfolding(crate::specs::Words::end_of))]
pub fn end_word(words: &mut Words) -> Option<()>
    ensures { result ≡ end_of words.old }
{
    match words.next() {
        Some(_) => None,
        None => Some(()),
    }
}

/// `.` for the root bucket, or the name of another bucket.
pub fn bucket_word(alloc: Global, words: &mut Words) -> Result<BucketName, LineRefusal>
    ensures { GivesWord result words.new (word bucket_at words.old) }
{
    let Some(text) = words.next() else {
        return Err(LineRefusal::Syntax);
    };
    if text == b".".as_slice() {
        return Ok(BucketName::root(alloc));
    }
    if text.is_empty() {
        return Err(LineRefusal::Syntax);
    }
    match BucketName::read(alloc, text) {
        Ok(name) => Ok(name),
        Err(BucketNameRefusal::Memory(error)) => Err(LineRefusal::Memory(error)),
        Err(_) => Err(LineRefusal::Syntax),
    }
}

/// The bytes of a name, which stay in the line.
pub(crate) fn name_text<'a>(words: &mut Words<'a>) -> Result<&'a [u8], LineRefusal>
    ensures text { GivesText (λ text. text) result words.new (word name_at words.old) }
    ensures name { IfOk result (λ text. name_fault text.now ≡ None) }
{
    match words.next() {
        Some(text) if name_fault(text).is_none() => Ok(text),
        _ => Err(LineRefusal::Syntax),
    }
}

/// A name.
pub fn name_word(alloc: Global, words: &mut Words) -> Result<Name, LineRefusal>
    ensures { GivesWord result words.new (word name_at words.old) }
{
    let Some(text) = words.next() else {
        return Err(LineRefusal::Syntax);
    };
    match Name::read(alloc, text) {
        Ok(name) => Ok(name),
        Err(NameRefusal::Memory(error)) => Err(LineRefusal::Memory(error)),
        Err(_) => Err(LineRefusal::Syntax),
    }
}

/// The bytes of `*` or of a name.
pub(crate) fn field_text<'a>(words: &mut Words<'a>) -> Result<&'a [u8], LineRefusal>
    ensures text { GivesText field_of result words.new (word field_at words.old) }
    ensures field { IfOk result (λ text. field_fault text.now ≡ None) }
{
    match words.next() {
        Some(text) if field_fault(text).is_none() => Ok(text),
        _ => Err(LineRefusal::Syntax),
    }
}

/// `#`, `*` or a name.
pub(crate) fn filter_word(alloc: Global, words: &mut Words) -> Result<FilterField, LineRefusal>
    ensures { GivesWord result words.new (word filter_field_at words.old) }
{
    let Some(text) = words.next() else {
        return Err(LineRefusal::Syntax);
    };
    match FilterField::read(alloc, text) {
        Ok(field) => Ok(field),
        Err(NameRefusal::Memory(error)) => Err(LineRefusal::Memory(error)),
        Err(_) => Err(LineRefusal::Syntax),
    }
}

/// `deep` for true or `flat` for false.
pub fn depth_word(words: &mut Words) -> Result<bool, LineRefusal>
    ensures { GivesWord result words.new (word depth_at words.old) }
{
    let Some(text) = words.next() else {
        return Err(LineRefusal::Syntax);
    };
    if text == b"deep".as_slice() {
        return Ok(true);
    }
    if text == b"flat".as_slice() {
        return Ok(false);
    }
    Err(LineRefusal::Syntax)
}

/// The number of a user.
pub fn uid_word(words: &mut Words) -> Result<u32, LineRefusal>
    ensures { GivesWord result words.new (word uid_at words.old) }
{
    let Some(text) = words.next() else {
        return Err(LineRefusal::Syntax);
    };
    match read_number(text) {
        Some(uid) => Ok(uid),
        None => Err(LineRefusal::Syntax),
    }
}

/// `system`, `admin`, `normal` or `guest`.
pub fn user_type_word(words: &mut Words) -> Result<UserType, LineRefusal>
    ensures { GivesWord result words.new (word user_type_at words.old) }
{
    let Some(text) = words.next() else {
        return Err(LineRefusal::Syntax);
    };
    if text == b"system".as_slice() {
        return Ok(UserType::System);
    }
    if text == b"admin".as_slice() {
        return Ok(UserType::Admin);
    }
    if text == b"normal".as_slice() {
        return Ok(UserType::Normal);
    }
    if text == b"guest".as_slice() {
        return Ok(UserType::Guest);
    }
    Err(LineRefusal::Syntax)
}

/// `*` for everyone, or the number of a user.
pub fn scope_word(words: &mut Words) -> Result<Scope, LineRefusal>
    ensures { GivesWord result words.new (word scope_at words.old) }
{
    let Some(text) = words.next() else {
        return Err(LineRefusal::Syntax);
    };
    if text == b"*".as_slice() {
        return Ok(Scope::Everyone);
    }
    match read_number(text) {
        Some(uid) => Ok(Scope::One(uid)),
        None => Err(LineRefusal::Syntax),
    }
}

/// `hybrid` for true or `plain` for false.
pub fn package_kind_word(words: &mut Words) -> Result<bool, LineRefusal>
    ensures { GivesWord result words.new (word package_kind_at words.old) }
{
    let Some(text) = words.next() else {
        return Err(LineRefusal::Syntax);
    };
    if text == b"hybrid".as_slice() {
        return Ok(true);
    }
    if text == b"plain".as_slice() {
        return Ok(false);
    }
    Err(LineRefusal::Syntax)
}

/// `own` for false, or `admin` for true.
pub fn setter_word(words: &mut Words) -> Result<bool, LineRefusal>
    ensures { GivesWord result words.new (word setter_named words.old) }
{
    let Some(text) = words.next() else {
        return Err(LineRefusal::Syntax);
    };
    if text == b"own".as_slice() {
        return Ok(false);
    }
    if text == b"admin".as_slice() {
        return Ok(true);
    }
    Err(LineRefusal::Syntax)
}

/// `allow`, `ask`, `deny` or `unset`.
pub fn level_word(words: &mut Words) -> Result<Level, LineRefusal>
    ensures { GivesWord result words.new (word level_at words.old) }
{
    let Some(text) = words.next() else {
        return Err(LineRefusal::Syntax);
    };
    match Level::of_word(text) {
        Some(level) => Ok(level),
        None => Err(LineRefusal::Syntax),
    }
}

/// The name of a package or an application.
pub fn ident_word(alloc: Global, words: &mut Words) -> Result<Ident, LineRefusal>
    ensures { GivesWord result words.new (word ident_at words.old) }
{
    let Some(text) = words.next() else {
        return Err(LineRefusal::Syntax);
    };
    match Ident::read(alloc, text) {
        Ok(ident) => Ok(ident),
        Err(IdentRefusal::Memory(error)) => Err(LineRefusal::Memory(error)),
        Err(_) => Err(LineRefusal::Syntax),
    }
}

/// `-` for no author, or the name of one.
pub fn author_word(alloc: Global, words: &mut Words) -> Result<Option<Ident>, LineRefusal>
    ensures { GivesWord result words.new (word author_at words.old) }
{
    let Some(text) = words.next() else {
        return Err(LineRefusal::Syntax);
    };
    if text == b"-".as_slice() {
        return Ok(None);
    }
    match Ident::read(alloc, text) {
        Ok(author) => Ok(Some(author)),
        Err(IdentRefusal::Memory(error)) => Err(LineRefusal::Memory(error)),
        Err(_) => Err(LineRefusal::Syntax),
    }
}

/// A label.
pub fn label_word(alloc: Global, words: &mut Words) -> Result<Label, LineRefusal>
    ensures { GivesWord result words.new (word label_at words.old) }
{
    let Some(text) = words.next() else {
        return Err(LineRefusal::Syntax);
    };
    match Label::read(alloc, text) {
        Ok(label) => Ok(label),
        Err(LabelRefusal::Memory(error)) => Err(LineRefusal::Memory(error)),
        Err(_) => Err(LineRefusal::Syntax),
    }
}

/// Modes that may be asked for.
pub fn request_word(words: &mut Words) -> Result<Modes, LineRefusal>
    ensures word { GivesWord result words.new (word request_at words.old) }
    ensures request { IfOk result (λ modes. IsTrue (is_request modes)) }
{
    let Some(text) = words.next() else {
        return Err(LineRefusal::Syntax);
    };
    match Modes::read(text) {
        Some(modes) => {
            if modes.is_request() {
                Ok(modes)
            } else {
                Err(LineRefusal::Syntax)
            }
        }
        None => Err(LineRefusal::Syntax),
    }
}
