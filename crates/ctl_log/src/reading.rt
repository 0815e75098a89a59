// Reading a line.
ghost use Rattle.std.specs.Prelude.{◌≡◌, ◌++◌, IfSome, codes};
ghost use Rattle.ctl_log.specs.Lines as word;

use crate::entries::{Cause, Decider, Decision, Entry, KeyWords, LogLine};

/// What the line says, which has no newline. What was read, spelled with one space between two words, is the line.
pub fn read_line(line: &[u8]) -> LogLine<'_>
    ensures { word.Says result line.now }
{
    if let Some(entry) = check_in(line) {
        return LogLine::Check(entry);
    }
    match missed_in(line) {
        Some((worker, count)) => LogLine::Missed { worker, count },
        None => LogLine::Other,
    }
}

// `missed WORKER COUNT`
fn missed_in(line: &[u8]) -> Option<(&[u8], &[u8])>
    ensures { IfSome result (λ said. line.now ≡ codes "missed " ++ word.then_word said.0.now said.1.now) }
{
    let rest = behind(line, b"missed ")?;
    let (worker, count) = number_before(rest)?;
    if is_number(count) {
        return Some((worker, count));
    }
    None
}

// `monitor WORKER NUMBER RESULT COMMIT CLIENT USER PRIVILEGE`, and no more or ` TIME BY BUCKET` and a key or `default`
fn check_in(line: &[u8]) -> Option<Entry<'_>>
    ensures { IfSome result (λ entry. line.now ≡ word.entry_text entry) }
{
    let rest = behind(line, b"monitor ")?;
    let (worker, rest) = number_before(rest)?;
    let (number, rest) = number_before(rest)?;
    let (decision, decider) = decision_in(rest)?;
    Some(Entry {
        worker,
        number,
        decision,
        decider,
    })
}

fn decision_in(text: &[u8]) -> Option<(Decision<'_>, Option<Decider<'_>>)>
    ensures { IfSome result (λ said. text.now ≡ word.decision_text said.0 said.1) }
{
    let (result, rest) = word_before(text)?;
    let (commit, rest) = number_before(rest)?;
    let (client, rest) = word_before(rest)?;
    let (user, rest) = word_before(rest)?;
    let (privilege, decider) = ending_in(rest)?;
    let decision = Decision {
        result,
        commit,
        client,
        user,
        privilege,
    };
    Some((decision, decider))
}

// The privilege, and what decided, where the line says that.
fn ending_in(text: &[u8]) -> Option<(&[u8], Option<Decider<'_>>)>
    ensures { IfSome result (λ said. text.now ≡ word.ending_text said.0.now said.1) }
{
    match word_before(text) {
        Some((privilege, rest)) => {
            let decider = decider_in(rest)?;
            Some((privilege, Some(decider)))
        }
        None => {
            let privilege = last_word(text)?;
            Some((privilege, None))
        }
    }
}

fn decider_in(text: &[u8]) -> Option<Decider<'_>>
    ensures { IfSome result (λ decider. text.now ≡ word.decider_text decider) }
{
    let (time, rest) = word_before(text)?;
    let (by, rest) = word_before(rest)?;
    let (bucket, rest) = word_before(rest)?;
    let key = key_in(rest)?;
    Some(Decider {
        time,
        by,
        cause: Cause { bucket, key },
    })
}

// The three texts of a key, or none for `default`.
fn key_in(text: &[u8]) -> Option<Option<KeyWords<'_>>>
    ensures { IfSome result (λ key. text.now ≡ word.key_text key) }
{
    if text == b"default".as_slice() {
        return Some(None);
    }
    let (client, rest) = word_before(text)?;
    let (user, rest) = word_before(rest)?;
    let privilege = last_word(rest)?;
    Some(Some(KeyWords {
        client,
        user,
        privilege,
    }))
}

// What is behind this front of the text.
fn behind<'a>(text: &'a [u8], front: &[u8]) -> Option<&'a [u8]>
    ensures { IfSome result (λ rest. text.now ≡ front.now ++ rest.now) }
{
    if text.len() < front.len() {
        return None;
    }
    let (own, rest) = text.split_at(front.len());
    if own == front {
        return Some(rest);
    }
    None
}

// The word at the front, and what is behind the space that follows it.
fn word_before(text: &[u8]) -> Option<(&[u8], &[u8])>
    ensures { IfSome result (λ cut. text.now ≡ word.then_word cut.0.now cut.1.now) }
{
    let end = text.iter().position(|byte| *byte == b' ')?;
    if end == 0 {
        return None;
    }
    Some((&text[..end], &text[end + 1..]))
}

// The same for a number.
fn number_before(text: &[u8]) -> Option<(&[u8], &[u8])>
    ensures { IfSome result (λ cut. text.now ≡ word.then_word cut.0.now cut.1.now) }
{
    let (number, rest) = word_before(text)?;
    if is_number(number) {
        return Some((number, rest));
    }
    None
}

// The text as a word, with which the line ends.
fn last_word(text: &[u8]) -> Option<&[u8]>
    ensures { IfSome result (λ last. last.now ≡ text.now) }
{
    if text.is_empty() || text.contains(&b' ') {
        return None;
    }
    Some(text)
}

// Whether the word is a number in decimal, as it is written.
fn is_number(word: &[u8]) -> bool {
    if word.is_empty() || word.len() > 20 {
        return false;
    }
    if word.len() > 1 && word[0] == b'0' {
        return false;
    }
    word.iter().all(|byte| byte.is_ascii_digit())
}
