//! The words of a line.

ghost use Rattle.std.specs.Prelude.{◌≡◌, ◌<◌, [], ◌∷◌, length, IfSome, MatchOption, position};
ghost use Rattle.std.specs.List.{slice_split};
ghost use Rattle.smack_rules.specs.Words.{is_blank, words_of};

/// The first word of a line, and what stands behind it. Words are parted by spaces or tabs, which may
/// stand at the ends too. `None` where the line has no word.
pub fn split_word(line: &[u8]) -> Option<(&[u8], &[u8])>
    ensures { MatchOption result (words_of line.now ≡ []) (λ cut. words_of line.now ≡ cut.0.now ∷ words_of cut.1.now) }
{
    let mut rest = line;
    while let Some((part, after)) = split_at_blank(rest) {
        if !part.is_empty() {
            return Some((part, after));
        }
        rest = after;
    }
    if rest.is_empty() {
        return None;
    }
    Some((rest, &[]))
}

/// Cuts a line at its first blank: the bytes before it, and the bytes behind it.
/// `None` where the line has no blank.
fn split_at_blank(line: &[u8]) -> Option<(&[u8], &[u8])>
    ensures parts { MatchOption result (slice_split is_blank line.now ≡ line.now ∷ [])
        (λ cut. slice_split is_blank line.now ≡ cut.0.now ∷ slice_split is_blank cut.1.now) }
    ensures shorter { IfSome result (λ cut. length cut.1.now < length line.now) }
{
    match first_blank(line) {
        Some(end) => Some((&line[..end], &line[end + 1..])),
        None => None,
    }
}

/// The place of the first blank.
fn first_blank(line: &[u8]) -> Option<usize>
    ensures place { result ≡ position is_blank line.now }
    ensures within { IfSome result (λ end. end < length line.now) }
{
    line.iter().position(|byte| is_blank(*byte))
}

/// Whether a byte parts words: a space or a tab.
fn is_blank(byte: u8) -> bool
    ensures { result ≡ is_blank byte }
{
    matches!(byte, b' ' | b'\t')
}
