//! Words that are one of a few fixed texts, and what such a word can begin with. No function here takes memory.

ghost use Rattle.std.specs.Prelude.{◌≡◌, is_some};
ghost use Rattle.level_requests.specs.Level.{level_at};
ghost use Rattle.script_words.specs.WordForms.{depth_at, user_type_at, package_kind_at, setter_named};
ghost use Rattle.line_reasons.specs.declared.forms.Form.TheVariants.{Depth, UserType, PackageKind, Setter, Level};
ghost use Rattle.line_reasons.specs.parts.Forms as forms;

use crate::word_tests::begins;

pub(crate) fn is_depth(text: &[u8]) -> bool
    ensures { result ≡ is_some (depth_at text.now) }
{
    if text == b"deep".as_slice() {
        return true;
    }
    text == b"flat".as_slice()
}

pub(crate) fn begins_depth(front: &[u8]) -> bool
    ensures { result ≡ forms.begins_word Depth front.now }
{
    begins(front, b"deep") || begins(front, b"flat")
}

pub(crate) fn is_package_kind(text: &[u8]) -> bool
    ensures { result ≡ is_some (package_kind_at text.now) }
{
    if text == b"hybrid".as_slice() {
        return true;
    }
    text == b"plain".as_slice()
}

pub(crate) fn begins_package_kind(front: &[u8]) -> bool
    ensures { result ≡ forms.begins_word PackageKind front.now }
{
    begins(front, b"hybrid") || begins(front, b"plain")
}

pub(crate) fn is_setter(text: &[u8]) -> bool
    ensures { result ≡ is_some (setter_named text.now) }
{
    if text == b"own".as_slice() {
        return true;
    }
    text == b"admin".as_slice()
}

pub(crate) fn begins_setter(front: &[u8]) -> bool
    ensures { result ≡ forms.begins_word Setter front.now }
{
    begins(front, b"own") || begins(front, b"admin")
}

pub(crate) fn is_level(text: &[u8]) -> bool
    ensures { result ≡ is_some (level_at text.now) }
{
    level_requests::Level::of_word(text).is_some()
}

pub(crate) fn begins_level(front: &[u8]) -> bool
    ensures { result ≡ forms.begins_word Level front.now }
{
    begins(front, b"allow")
        || begins(front, b"ask")
        || begins(front, b"deny")
        || begins(front, b"unset")
}

#[tactic(auto, using(crate::proofs::WordFronts::type_known))]
pub(crate) fn is_user_type(text: &[u8]) -> bool
    ensures { result ≡ is_some (user_type_at text.now) }
{
    if text == b"system".as_slice() || text == b"admin".as_slice() {
        return true;
    }
    text == b"normal".as_slice() || text == b"guest".as_slice()
}

pub(crate) fn begins_user_type(front: &[u8]) -> bool
    ensures { result ≡ forms.begins_word UserType front.now }
{
    begins(front, b"system")
        || begins(front, b"admin")
        || begins(front, b"normal")
        || begins(front, b"guest")
}
