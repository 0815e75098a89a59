ghost use Rattle.std.specs.Prelude.{◌≡◌, IfOk, IfErr, IfSome, OnOk, None};
ghost use Rattle.cynara_keys.specs.Name.{Refuses};
ghost use Rattle.cynara_keys.specs.Field.{field_text, field_of, field_fault, field_matches};
ghost use Rattle.cynara_keys.specs.Field.{field_admits, filter_field_text, filter_field_of, filter_field_fault};

use crate::{Name, NameRefusal, name_fault};
use std::alloc::{AllocError, Global};

/// One field of a key that is made: the wildcard `*`, which matches each name, or one name.
#[derive(Debug, Drop)]
pub enum Field {
    Any,
    Exact(Name),
}

/// The first rule of a name that a text other than `*` breaks. `None` where it is `*` or a name. Takes no memory.
pub fn field_fault(text: &[u8]) -> Option<NameRefusal>
    ensures fault { result ≡ field_fault text.now }
    ensures refuses { IfSome result (λ refusal. Refuses refusal (field_fault text.now)) }
{
    if text == b"*".as_slice() {
        return None;
    }
    name_fault(text)
}

impl Field {
    /// Reads `*` or a name, which is refused as by `Name::read`. The field has the text that it was read from.
    pub fn read(alloc: Global, text: &[u8]) -> Result<Field, NameRefusal>
        ensures field { IfOk result (λ field. field ≡ field_of text.now) }
        ensures text { IfOk result (λ field. field_text field ≡ text.now) }
        ensures accepted { OnOk result (field_fault text.now ≡ None) }
        ensures refused { IfErr result (λ refusal. Refuses refusal (field_fault text.now)) }
    {
        if text == b"*".as_slice() {
            return Ok(Field::Any);
        }
        Ok(Field::Exact(Name::read(alloc, text)?))
    }

    /// The one text of the field: `*` for the wildcard, and else the name. It reads back as this field.
    pub fn as_slice(&self) -> &[u8]
        ensures text { result.now ≡ field_text self.now }
        ensures reads_back { field_of result.now ≡ self.now }
        ensures accepted { field_fault result.now ≡ None }
    {
        match self {
            Field::Any => b"*",
            Field::Exact(name) => name.as_slice(),
        }
    }
}

/// Whether the text of a key's field is `*`, or the bytes of this name. Takes no memory.
pub fn field_matches(field: &[u8], name: &[u8]) -> bool
    ensures { result ≡ field_matches (field_of field.now) name.now }
{
    field == b"*".as_slice() || field == name
}

/// One field of a filter: `#` for every field, `*` for the stored wildcard alone, or one name.
#[derive(Debug, Drop, PartialEq, Eq)]
pub enum FilterField {
    Every,
    Any,
    Exact(Name),
}

impl FilterField {
    /// Reads `#`, `*` or a name, which is refused as by `Name::read`. The field has the text that it was read from.
    pub fn read(alloc: Global, text: &[u8]) -> Result<FilterField, NameRefusal>
        ensures field { IfOk result (λ field. field ≡ filter_field_of text.now) }
        ensures text { IfOk result (λ field. filter_field_text field ≡ text.now) }
        ensures accepted { OnOk result (filter_field_fault text.now ≡ None) }
        ensures refused { IfErr result (λ refusal. Refuses refusal (filter_field_fault text.now)) }
    {
        if text == b"#".as_slice() {
            return Ok(FilterField::Every);
        }
        if text == b"*".as_slice() {
            return Ok(FilterField::Any);
        }
        Ok(FilterField::Exact(Name::read(alloc, text)?))
    }

    /// The one text of the field: `#` for every field, `*` for the stored wildcard, and else the name. It reads back as
    /// this field.
    pub fn as_slice(&self) -> &[u8]
        ensures text { result.now ≡ filter_field_text self.now }
        ensures reads_back { filter_field_of result.now ≡ self.now }
        ensures accepted { filter_field_fault result.now ≡ None }
    {
        match self {
            FilterField::Every => b"#",
            FilterField::Any => b"*",
            FilterField::Exact(name) => name.as_slice(),
        }
    }

    /// Whether a key's field of this text passes: any field at `#`, and else the same one.
    pub fn admits(&self, field: &[u8]) -> bool
        ensures { result ≡ field_admits self.now (field_of field.now) }
    {
        let is_wild = field == b"*".as_slice();
        match self {
            FilterField::Every => true,
            FilterField::Any => is_wild,
            FilterField::Exact(own) => !is_wild && own.as_slice() == field,
        }
    }

    /// An equal field, which shares the name's bytes. Refused only as `Name::copy` is.
    pub fn copy(&self) -> Result<FilterField, AllocError>
        ensures { IfOk result (λ copy. copy ≡ self.now) }
    {
        match self {
            FilterField::Every => Ok(FilterField::Every),
            FilterField::Any => Ok(FilterField::Any),
            FilterField::Exact(name) => Ok(FilterField::Exact(name.copy()?)),
        }
    }
}
