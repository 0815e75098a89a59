//! Labels.

ghost use Rattle.std.specs.Prelude.{◌≡◌, not, IfOk, None, position};
ghost use Rattle.smack_rules.specs.Label.{is_label_byte, form_fault, label_fault};

use std::alloc::{AllocError, Global};
use std::marker::Model;
use thiserror::Error;

/// The most bytes of a label.
pub const MOST_LABEL_BYTES: usize = 255;

/// Why bytes are no label: the first of these rules that they break.
#[derive(Clone, Copy, Debug, PartialEq, Eq, Error)]
pub enum LabelRefusal {
    #[error("a label has at least one byte")]
    Empty,
    #[error("a label has at most 255 bytes")]
    TooLong,
    /// The place of the first such byte, from 0.
    #[error("byte {0} of the label, counted from 0, is a space, no printable ASCII, or one of / \\ ' \"")]
    BadByte(usize),
    #[error("a label does not begin with -")]
    Dash,
    #[error("the labels @ and ? are not known")]
    Special,
    #[error("out of memory")]
    Memory(AllocError),
}

/// The name of a subject or an object: 1 to 255 printable bytes, as the kernel's Smack document says.
#[derive(Debug, Drop)]
pub struct Label {
    bytes: Vec<u8>,
}

impl Model for Label {
    ghost use Rattle.std.specs.Prelude.{◌≡◌, List, ℕ, None};
    ghost use Rattle.smack_rules.specs.Label.{label_fault};

    ghost Value = { List ℕ };

    ghost view = { λ label. label.bytes.items };

    ghost invariant = { λ label. label_fault label.bytes.items ≡ None };
}

impl Label {
    ghost use Rattle.smack_rules.specs.LabelRead.{ReadsAs};

    /// Reads a label. Refuses, in this order: no byte, more than 255 bytes, the first byte that isn't
    /// printable (0x21 to 0x7E) or is one of `/ \ ' "`, a `-` at the front, the labels `@` and `?`,
    /// which this project's profile doesn't know, and, where none of these is so, the lack of memory.
    pub fn read(alloc: Global, bytes: &[u8]) -> Result<Label, LabelRefusal>
        ensures { ReadsAs result bytes.now }
    {
        if let Some(fault) = label_fault(bytes) {
            return Err(fault);
        }
        Label::of(alloc, bytes).map_err(LabelRefusal::Memory)
    }

    /// The label with these bytes, in which [`label_fault`] finds no fault. Fails only for lack of memory.
    pub fn of(alloc: Global, bytes: &[u8]) -> Result<Label, AllocError>
        requires { label_fault bytes.now ≡ None }
        ensures { IfOk result (λ label. label ≡ bytes.now) }
    {
        Ok(Label {
            bytes: Vec::from_slice(alloc, bytes)?,
        })
    }

    /// The bytes of the label.
    pub fn as_slice(&self) -> &[u8]
        ensures value { result.now ≡ self.now }
        ensures label { label_fault self.now ≡ None }
    {
        self.bytes.as_slice()
    }

    /// An equal label in memory of its own. Fails only for lack of memory.
    pub fn copy(&self) -> Result<Label, AllocError>
        ensures { IfOk result (λ label. label ≡ self.now) }
    {
        Ok(Label {
            bytes: self.bytes.clone()?,
        })
    }
}

/// The first rule of a label that bytes break, in the order in which `Label::read` refuses, and `None` where they
/// are a label. Takes no memory.
pub fn label_fault(bytes: &[u8]) -> Option<LabelRefusal>
    ensures { result ≡ label_fault bytes.now }
{
    if bytes.is_empty() {
        return Some(LabelRefusal::Empty);
    }
    if bytes.len() > MOST_LABEL_BYTES {
        return Some(LabelRefusal::TooLong);
    }
    match first_bad_byte(bytes) {
        Some(at) => Some(LabelRefusal::BadByte(at)),
        None => form_fault(bytes),
    }
}

/// The place of the first byte that may not stand in a label.
fn first_bad_byte(bytes: &[u8]) -> Option<usize>
    ensures { result ≡ position (λ byte. not (is_label_byte byte)) bytes.now }
{
    bytes.iter().position(|byte| !is_label_byte(*byte))
}

/// The fault of a form whose bytes are right.
fn form_fault(bytes: &[u8]) -> Option<LabelRefusal>
    ensures { result ≡ form_fault bytes.now }
{
    match bytes {
        [b'-', ..] => Some(LabelRefusal::Dash),
        b"@" | b"?" => Some(LabelRefusal::Special),
        _ => None,
    }
}

/// Whether a byte may stand in a label.
fn is_label_byte(byte: u8) -> bool
    ensures { result ≡ is_label_byte byte }
{
    matches!(byte, 0x21..=0x7e) && !matches!(byte, b'/' | b'\\' | b'\'' | b'"')
}
