//! Idents, labels and modes as far as they go: bytes that pass a test, as short as a limit says.

ghost use Rattle.std.specs.Prelude.{◌≡◌, not};
ghost use Rattle.std.specs.List.{list_all};
ghost use Rattle.cynara_keys.specs.Text.{is_word_byte};
ghost use Rattle.smack_rules.specs.Label.{is_label_byte};
ghost use Rattle.smack_rules.specs.Modes.{is_mode_byte};
ghost use Rattle.app_registry.specs.Ident.{is_ident_byte, begins_with_mark};
ghost use Rattle.line_reasons.specs.parts.Forms.{begins_ident, begins_label, begins_modes};

use app_registry::IDENT_LIMIT;
use smack_rules::{MOST_LABEL_BYTES, MOST_MODE_WORD_BYTES};

/// Whether a text is short enough for an ident, its bytes may stand there, and its first is no mark.
pub(crate) fn is_ident_run(text: &[u8]) -> bool
    ensures { result ≡ begins_ident text.now }
{
    text.len() <= IDENT_LIMIT && are_ident_bytes(text) && !matches!(text, [b'.' | b'-', ..])
}

/// The same for a label, whose first byte is no dash.
pub(crate) fn is_label_run(text: &[u8]) -> bool
    ensures { result ≡ begins_label text.now }
{
    text.len() <= MOST_LABEL_BYTES && are_label_bytes(text) && !matches!(text, [b'-', ..])
}

/// The same for a mode word.
pub(crate) fn is_mode_run(text: &[u8]) -> bool
    ensures { result ≡ begins_modes text.now }
{
    text.len() <= MOST_MODE_WORD_BYTES && are_mode_bytes(text)
}

fn are_ident_bytes(text: &[u8]) -> bool
    ensures { result ≡ list_all is_ident_byte text.now }
{
    text.iter().all(|byte| is_ident_byte(*byte))
}

fn are_label_bytes(text: &[u8]) -> bool
    ensures { result ≡ list_all is_label_byte text.now }
{
    text.iter().all(|byte| is_label_byte(*byte))
}

fn are_mode_bytes(text: &[u8]) -> bool
    ensures { result ≡ list_all is_mode_byte text.now }
{
    text.iter().all(|byte| is_mode_byte(*byte))
}

/// Whether a byte is a letter, a digit, an underscore or a dash.
fn is_word_byte(byte: u8) -> bool
    ensures { result ≡ is_word_byte byte }
{
    matches!(byte, b'a'..=b'z' | b'A'..=b'Z' | b'0'..=b'9' | b'_' | b'-')
}

/// Whether a byte may stand in an ident.
fn is_ident_byte(byte: u8) -> bool
    ensures { result ≡ is_ident_byte byte }
{
    is_word_byte(byte) || byte == b'.'
}

/// Whether a byte may stand in a label.
fn is_label_byte(byte: u8) -> bool
    ensures { result ≡ is_label_byte byte }
{
    matches!(byte, 0x21..=0x7e) && !matches!(byte, b'/' | b'\\' | b'\'' | b'"')
}

/// Whether a byte may stand in a mode word.
fn is_mode_byte(byte: u8) -> bool
    ensures { result ≡ is_mode_byte byte }
{
    matches!(
        byte.to_ascii_lowercase(),
        b'-' | b'r' | b'w' | b'x' | b'a' | b't' | b'l' | b'b'
    )
}
