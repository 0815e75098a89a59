// Times, as texts of RFC 3339 in UTC.
ghost use Rattle.std.specs.Prelude.{◌≡◌};
ghost use Rattle.std.specs.Option.{option_copied};
ghost use Rattle.ctl_log.specs.Times as word;

/// The form of a time up to its seconds; `0` stands for any digit.
const FORM: &[u8] = b"0000-00-00T00:00:00";

/// Whether the text is a time as a log writes it, or a front of one that has a digit.
pub fn is_time_front(text: &[u8]) -> bool {
    let bare = without_zone(text);
    !bare.is_empty()
        && bare
            .iter()
            .enumerate()
            .all(|(place, byte)| fits(place, *byte))
}

// Whether the byte may stand at this place of a time.
fn fits(place: usize, byte: u8) -> bool {
    match FORM.get(place) {
        Some(b'0') => byte.is_ascii_digit(),
        Some(mark) => byte == *mark,
        None => byte.is_ascii_digit() || (place == FORM.len() && byte == b'.'),
    }
}

/// Whether the time is not before the other one, or its front. A time that is not known is before each.
pub(crate) fn is_since(time: &[u8], other: &[u8]) -> bool
    ensures { result ≡ word.is_since time.now other.now }
{
    if time == b"-".as_slice() {
        return false;
    }
    !without_zone(other).cmp(without_zone(time)).is_gt()
}

// The text without the letter of the zone.
fn without_zone(text: &[u8]) -> &[u8]
    ensures { result.now ≡ word.without_zone text.now }
{
    let end = text.len().saturating_sub(1);
    if is_zone(text.get(end)) {
        return &text[..end];
    }
    text
}

fn is_zone(byte: Option<&u8>) -> bool
    ensures { result ≡ word.is_zone (option_copied byte.entry) }
{
    match byte {
        Some(byte) => *byte == b'Z',
        None => false,
    }
}
