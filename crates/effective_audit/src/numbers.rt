//! The numbers of names.

ghost use Rattle.std.specs.Prelude.{◌≡◌, ◌≤◌, length, position};
ghost use Rattle.cynara_keys.specs.Field.{field_of};
ghost use Rattle.cynara_keys.specs.Text.{same_text};
ghost use Rattle.effective_audit.specs.parts.Narrowing.{mark_of, number_of, place_number};

use cynara_keys::Name;

/// The number of a field's text: 0 for the wildcard, and else that of the name.
pub(crate) fn number_of(names: &[Name], text: &[u8]) -> u32
    requires { length names.now ≤ 65536 }
    ensures { result ≡ number_of names.now (field_of text.now) }
{
    if text == b"*".as_slice() {
        return 0;
    }
    place_number(names, text)
}

/// The number of a name: one more than its place among the names, or than the last one's where it is none of these.
pub(crate) fn place_number(names: &[Name], name: &[u8]) -> u32
    requires { length names.now ≤ 65536 }
    ensures { result ≡ place_number names.now name.now }
{
    match place_of(names, name) {
        Some(at) => at as u32 + 1,
        None => names.len() as u32 + 1,
    }
}

fn place_of(names: &[Name], text: &[u8]) -> Option<usize>
    ensures { result ≡ position (same_text text.now) names.now }
{
    names.iter().position(|name| text == name.as_slice())
}

/// 0 for the wildcard, and else 1.
pub(crate) fn mark_of(text: &[u8]) -> u32
    ensures { result ≡ mark_of (field_of text.now) }
{
    if text == b"*".as_slice() { 0 } else { 1 }
}
