//! Which words have a form, and what such a word can begin with. No function here takes memory.

ghost use Rattle.std.specs.Prelude.{◌≡◌, ◌==◌, not, position, codes, Some, None, is_some, MatchOption, nat_le};
ghost use Rattle.cynara_keys.specs.PolicyResult.{is_agent};
ghost use Rattle.smack_rules.specs.Modes.{stands_in, is_empty, letters_that, modes_of};
ghost use Rattle.rule_templates.specs.TemplateLine.{word_of};
ghost use Rattle.script_words.specs.Numbers.{number_that};
ghost use Rattle.script_words.specs.WordForms.{bucket_at, name_at, field_at, filter_field_at, result_at, uid_at};
ghost use Rattle.script_words.specs.WordForms.{scope_at, ident_at, author_at, label_at, request_at};
ghost use Rattle.line_reasons.specs.parts.Texts.{begins, cut_at, by_cut};
ghost use Rattle.line_reasons.specs.parts.Forms as forms;

use crate::byte_runs::{is_ident_run, is_label_run, is_mode_run};
use crate::fixed_words::{
    begins_depth, begins_level, begins_package_kind, begins_setter, begins_user_type, is_depth,
    is_level, is_package_kind, is_setter, is_user_type,
};
use crate::forms::Form;
use cynara_keys::{NameRefusal, field_fault, is_bucket_name, is_metadata, name_fault};
use line_script::read_number;
use rule_templates::Placeholder;
use smack_rules::{Modes, label_fault};

impl Form {
    /// Whether a word has this form.
    pub(crate) fn is_word(self, text: &[u8]) -> bool
        ensures { result ≡ forms.is_word self text.now }
    {
        match self {
            Form::Bucket => is_bucket(text),
            Form::Field => is_field(text),
            Form::Name | Form::Names => is_name(text),
            Form::FilterField => is_filter_field(text),
            Form::Depth => is_depth(text),
            Form::Result => is_result(text),
            Form::Uid => is_uid(text),
            Form::UserType => is_user_type(text),
            Form::Scope => is_scope(text),
            Form::PackageKind => is_package_kind(text),
            Form::Setter => is_setter(text),
            Form::Level => is_level(text),
            Form::Ident => is_ident(text),
            Form::Author => is_author(text),
            Form::Label => is_label(text),
            Form::Request => is_request(text),
            Form::TemplateLabel => is_template_label(text),
            Form::Modes | Form::MoreModes => Modes::read(text).is_some(),
        }
    }

    /// Whether a word of this form can begin so.
    pub(crate) fn begins_word(self, front: &[u8]) -> bool
        ensures { result ≡ forms.begins_word self front.now }
    {
        match self {
            Form::Bucket => begins_bucket(front),
            Form::Field | Form::Name | Form::Names | Form::FilterField => begins_name(front),
            Form::Depth => begins_depth(front),
            Form::Result => begins_result(front),
            Form::Uid => begins_uid(front),
            Form::UserType => begins_user_type(front),
            Form::Scope => begins(front, b"*") || begins_uid(front),
            Form::PackageKind => begins_package_kind(front),
            Form::Setter => begins_setter(front),
            Form::Level => begins_level(front),
            Form::Ident => is_ident_run(front),
            Form::Author => begins(front, b"-") || is_ident_run(front),
            Form::Label => is_label_run(front),
            Form::Request => begins_request(front),
            Form::TemplateLabel => begins_template_label(front),
            Form::Modes | Form::MoreModes => is_mode_run(front),
        }
    }
}

/// Whether a text begins with a front.
pub(crate) fn begins(front: &[u8], text: &[u8]) -> bool
    ensures { result ≡ begins front.now text.now }
{
    text.starts_with(front)
}

// ---- names

#[tactic(auto, using(crate::proofs::IdentFronts::bucket_known))]
fn is_bucket(text: &[u8]) -> bool
    ensures { result ≡ is_some (bucket_at text.now) }
{
    if text == b".".as_slice() {
        return true;
    }
    is_bucket_name(text) && !text.is_empty()
}

#[tactic(auto, using(crate::proofs::WordFronts::name_known))]
fn is_name(text: &[u8]) -> bool
    ensures { result ≡ is_some (name_at text.now) }
{
    name_fault(text).is_none()
}

#[tactic(auto, using(crate::proofs::NameFronts::name_goes_on))]
fn begins_name(front: &[u8]) -> bool
    ensures { result ≡ forms.begins_name front.now }
{
    may_go_on(name_fault(front))
}

/// Whether more bytes can make a name of what has this fault, or has none.
fn may_go_on(fault: Option<NameRefusal>) -> bool
    ensures { result ≡ forms.may_go_on fault }
{
    match fault {
        None | Some(NameRefusal::Empty | NameRefusal::Reserved) => true,
        Some(NameRefusal::TooLong | NameRefusal::BadByte(_) | NameRefusal::Memory(_)) => false,
    }
}

#[tactic(auto, using(crate::proofs::WordFronts::field_tested))]
fn is_field(text: &[u8]) -> bool
    ensures { result ≡ is_some (field_at text.now) }
{
    field_fault(text).is_none()
}

#[tactic(auto, using(crate::proofs::WordFronts::filter_tested))]
fn is_filter_field(text: &[u8]) -> bool
    ensures { result ≡ is_some (filter_field_at text.now) }
{
    if text == b"#".as_slice() {
        return true;
    }
    is_field(text)
}

#[tactic(auto, using(crate::proofs::IdentFronts::ident_is))]
fn is_ident(text: &[u8]) -> bool
    ensures { result ≡ is_some (ident_at text.now) }
{
    if text.is_empty() {
        return false;
    }
    is_ident_run(text)
}

#[tactic(auto, using(crate::proofs::WordFronts::author_known))]
fn is_author(text: &[u8]) -> bool
    ensures { result ≡ is_some (author_at text.now) }
{
    if text == b"-".as_slice() {
        return true;
    }
    is_ident(text)
}

#[tactic(auto, using(crate::proofs::NameFronts::bucket_name_is))]
fn begins_bucket(front: &[u8]) -> bool
    ensures { result ≡ forms.begins_bucket front.now }
{
    if front == b".".as_slice() {
        return true;
    }
    is_bucket_name(front)
}

// ---- numbers

/// Whether a text is a number up to the greatest.
#[tactic(auto, using(crate::proofs::NumberFronts::number_is))]
fn is_number_to(text: &[u8], most: u32) -> bool
    ensures { result ≡ is_some (number_that (λ number. nat_le number most) text.now) }
{
    match read_number(text) {
        Some(number) => number <= most,
        None => false,
    }
}

fn is_uid(text: &[u8]) -> bool
    ensures { result ≡ is_some (uid_at text.now) }
{
    read_number(text).is_some()
}

fn begins_uid(front: &[u8]) -> bool
    ensures { result ≡ forms.begins_uid front.now }
{
    match front {
        [] => true,
        _ => is_uid(front),
    }
}

#[tactic(auto, using(crate::proofs::WordFronts::scope_known))]
fn is_scope(text: &[u8]) -> bool
    ensures { result ≡ is_some (scope_at text.now) }
{
    if text == b"*".as_slice() {
        return true;
    }
    is_uid(text)
}

// ---- results

#[tactic(auto, using(crate::proofs::ResultFronts::result_is))]
fn is_result(text: &[u8]) -> bool
    ensures { result ≡ is_some (result_at text.now) }
{
    if text == b"deny".as_slice() || text == b"none".as_slice() || text == b"allow".as_slice() {
        return true;
    }
    is_bucket_result(text) || is_agent_result(text)
}

fn is_bucket_result(text: &[u8]) -> bool
    ensures { result ≡ forms.is_bucket_result text.now }
{
    text.starts_with(b"bucket:") && is_bucket(&text[7..])
}

fn is_agent_result(text: &[u8]) -> bool
    ensures { result ≡ forms.is_agent_result text.now }
{
    text.starts_with(b"agent:") && is_agent_text(&text[6..])
}

/// `KIND:METADATA`.
fn is_agent_text(text: &[u8]) -> bool
    ensures { result ≡ forms.is_agent_text text.now }
{
    match cut_at(text, b':') {
        Some((kind, metadata)) => is_agent_pair(kind, metadata),
        None => false,
    }
}

fn is_agent_pair(kind: &[u8], metadata: &[u8]) -> bool
    ensures { result ≡ forms.is_agent_pair kind.now metadata.now }
{
    is_kind(kind) && is_metadata(metadata)
}

#[tactic(auto, using(crate::proofs::NumberFronts::number_is))]
fn is_kind(text: &[u8]) -> bool
    ensures { result ≡ is_some (number_that is_agent text.now) }
{
    match read_number(text) {
        Some(number) => 2 <= number && number <= 65533,
        None => false,
    }
}

fn begins_result(front: &[u8]) -> bool
    ensures { result ≡ forms.begins_result front.now }
{
    if begins(front, b"deny") || begins(front, b"none") || begins(front, b"allow") {
        return true;
    }
    begins_bucket_result(front) || begins_agent_result(front)
}

fn begins_bucket_result(front: &[u8]) -> bool
    ensures { result ≡ forms.begins_bucket_result front.now }
{
    begins(front, b"bucket:") || (front.starts_with(b"bucket:") && begins_bucket(&front[7..]))
}

fn begins_agent_result(front: &[u8]) -> bool
    ensures { result ≡ forms.begins_agent_result front.now }
{
    begins(front, b"agent:") || (front.starts_with(b"agent:") && begins_agent(&front[6..]))
}

fn begins_agent(front: &[u8]) -> bool
    ensures { result ≡ forms.begins_agent front.now }
{
    match cut_at(front, b':') {
        Some((kind, metadata)) => is_agent_pair(kind, metadata),
        None => begins_kind(front),
    }
}

fn begins_kind(front: &[u8]) -> bool
    ensures { result ≡ forms.begins_kind front.now }
{
    match front {
        [] => true,
        [b'0', ..] => false,
        _ => is_number_to(front, 65533),
    }
}

/// A text cut at the first byte of a value: what stands in front of it, and behind it.
pub(crate) fn cut_at(text: &[u8], mark: u8) -> Option<(&[u8], &[u8])>
    ensures { MatchOption result (cut_at mark text.now ≡ None)
        (λ cut. cut_at mark text.now ≡ Some (cut.0.now, cut.1.now)) }
{
    match first_of(text, mark) {
        Some(at) => Some((&text[..at], &text[at + 1..])),
        None => None,
    }
}

fn first_of(text: &[u8], mark: u8) -> Option<usize>
    ensures { result ≡ position (λ byte. byte == mark) text.now }
{
    text.iter().position(|byte| *byte == mark)
}

// ---- Smack

fn is_label(text: &[u8]) -> bool
    ensures { result ≡ is_some (label_at text.now) }
{
    label_fault(text).is_none()
}

fn is_request(text: &[u8]) -> bool
    ensures { result ≡ is_some (request_at text.now) }
{
    match Modes::read(text) {
        Some(modes) => modes.is_request(),
        None => false,
    }
}

/// Modes without `b`, with a letter or with room for one.
fn begins_request(front: &[u8]) -> bool
    ensures { result ≡ forms.begins_request front.now }
{
    if !is_mode_run(front) || stands_in(front, b'b') {
        return false;
    }
    has_letter(front) || front.len() < 64
}

fn stands_in(text: &[u8], letter: u8) -> bool
    ensures { result ≡ stands_in text.now letter }
{
    text.iter().any(|byte| byte.to_ascii_lowercase() == letter)
}

fn has_letter(text: &[u8]) -> bool
    ensures { result ≡ not (is_empty (letters_that (stands_in text.now))) }
{
    stands_in(text, b'r')
        || stands_in(text, b'w')
        || stands_in(text, b'x')
        || stands_in(text, b'a')
        || stands_in(text, b't')
        || stands_in(text, b'l')
        || stands_in(text, b'b')
}

#[tactic(auto, using(crate::proofs::WordFronts::word_known, crate::proofs::WordFronts::placeholder_known))]
fn is_template_label(text: &[u8]) -> bool
    ensures { result ≡ is_some (word_of text.now) }
{
    if begins_with_tilde(text) {
        return Placeholder::of_word(text).is_some();
    }
    is_label(text)
}

fn begins_template_label(front: &[u8]) -> bool
    ensures { result ≡ forms.begins_template_label front.now }
{
    if begins_with_tilde(front) {
        return begins_placeholder(front);
    }
    is_label_run(front)
}

fn begins_placeholder(front: &[u8]) -> bool
    ensures { result ≡ forms.begins_placeholder front.now }
{
    begins(front, b"~PROCESS~")
        || begins(front, b"~PATH_RW~")
        || begins(front, b"~PATH_RO~")
        || begins(front, b"~AUTHOR~")
}

fn begins_with_tilde(text: &[u8]) -> bool
    ensures { result ≡ forms.begins_tilde text.now }
{
    matches!(text, [b'~', ..])
}
