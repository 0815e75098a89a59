//! Texts as lists of lines: where a line ends, and how a text is taken apart from its front.
#![tactic(auto)]

ghost use Rattle.std.specs.Prelude.{◌≡◌, ◌+◌, ◌<◌, [], ◌∷◌, ◌++◌, length, IfSome, IfNone, MatchOption};
ghost use Rattle.text_lines.specs.Lines.{lines_of, HasNoNewline, IsFirstLine};
ghost use Rattle.text_lines.specs.declared.TheConstants.{NEWLINE};

mod line_reader;
mod refusal;
mod window;

pub use line_reader::LineReader;
pub use refusal::ReadRefusal;

/// The byte that ends a line.
pub const NEWLINE: u8 = b'\n';

/// Cuts a text at its first newline: the bytes before it, and the bytes behind it. The newline is in neither.
/// `None` where the text has no newline.
pub fn split_at_newline(text: &[u8]) -> Option<(&[u8], &[u8])>
    ensures cut { IfSome result (λ cut. text.now ≡ cut.0.now ++ NEWLINE ∷ cut.1.now) }
    ensures first { IfSome result (λ cut. HasNoNewline cut.0.now) }
    ensures none { IfNone result (HasNoNewline text.now) }
{
    let end = text.iter().position(|byte| *byte == NEWLINE)?;
    Some((&text[..end], &text[end + 1..]))
}

/// The first line of a text without its newline, and the bytes behind that newline. Any other byte belongs to a line,
/// also a carriage return. The last line may lack its newline, and then no bytes are behind it. `None` where the text
/// has no byte.
pub fn split_line(text: &[u8]) -> Option<(&[u8], &[u8])>
    ensures line { MatchOption result (text.now ≡ []) (λ cut. lines_of text.now ≡ cut.0.now ∷ lines_of cut.1.now) }
    ensures cut { IfSome result (λ cut. IsFirstLine text.now cut.0.now cut.1.now) }
    ensures shorter { IfSome result (λ cut. length cut.1.now < length text.now) }
{
    if text.is_empty() {
        return None;
    }
    match split_at_newline(text) {
        Some((line, rest)) => Some((line, rest)),
        None => Some((text, &[])),
    }
}
