// What a person is told of rules beside the decision: what they may have overlooked in them.
ghost use Rattle.std.specs.Prelude.{◌≡◌};

use desk_ports::{Sink, shown_bytes};
use run_endings::{MOST_SHOWN_BYTES, note_text};
use smack_rules::{Decision, Label, Modes, decide, split_word};
use std::alloc::{AllocError, Global};
use text_lines::split_line;

/// The letters of the modes that may be asked for.
const LETTERS: [u8; 6] = *b"rwxatl";

/// The first of the two cases in which the rules decide.
const GRANTED: u8 = 6;

/// What a text of rules has about a pair of labels. Lines are numbered from 1.
#[derive(Clone, Copy)]
struct Seen {
    lines: u32,
    has_rule: bool,
    has_subject: bool,
    has_object: bool,
    /// The first line whose subject begins with `#`.
    hash: Option<u32>,
    /// The last line about the pair.
    last: Option<u32>,
}

/// Tells what is doubtful about these rules, which grant the pair these modes. Where the rules decided, also what may
/// be asked for.
pub fn note_rules<K: Sink>(
    alloc: Global,
    text: &[u8],
    granted: Modes,
    pair: (&Label, &Label),
    decision: Decision,
    sink: &mut K,
)
    ensures taken { K.taken sink.new ≡ K.taken sink.old }
    ensures count { K.faults sink.new ≡ K.faults sink.old }
{
    let (subject, object) = pair;
    let seen = seen_in(text, subject.as_slice(), object.as_slice());
    if !seen.has_rule {
        sink.note("privilege: no rule was read");
        return;
    }
    if let Some(line) = seen.hash {
        note_text(hash_text(alloc, line), sink);
    }
    if decision.rule < GRANTED {
        return;
    }
    if !seen.has_subject {
        note_text(absent_text(alloc, "subject", subject), sink);
    }
    if !seen.has_object {
        note_text(absent_text(alloc, "object", object), sink);
    }
    if let Some(line) = seen.last {
        note_text(granted_text(alloc, granted, subject, object, line), sink);
    }
}

// What the text has about the pair.
fn seen_in(text: &[u8], subject: &[u8], object: &[u8]) -> Seen {
    let mut seen = Seen {
        lines: 0,
        has_rule: false,
        has_subject: false,
        has_object: false,
        hash: None,
        last: None,
    };
    let mut rest = text;
    while let Some((line, after)) = split_line(rest) {
        seen.follow(line, subject, object);
        rest = after;
    }
    seen
}

impl Seen {
    // Follows one line more, which is blank or a rule.
    fn follow(&mut self, line: &[u8], subject: &[u8], object: &[u8]) {
        self.lines = self.lines.saturating_add(1);
        let Some((first, rest)) = split_word(line) else {
            return;
        };
        let Some((second, _)) = split_word(rest) else {
            return;
        };
        self.has_rule = true;
        self.has_subject = self.has_subject || first == subject;
        self.has_object = self.has_object || second == object;
        if first == subject && second == object {
            self.last = Some(self.lines);
        }
        if self.hash.is_none() && first.first() == Some(&b'#') {
            self.hash = Some(self.lines);
        }
    }
}

fn hash_text(alloc: Global, line: u32) -> Result<String, AllocError> {
    format!(in alloc;
        "privilege: line {line}: the subject begins with #, and there are no comments in rules"
    )
}

fn absent_text(alloc: Global, role: &str, label: &Label) -> Result<String, AllocError> {
    let shown = shown_bytes(alloc, label.as_slice(), MOST_SHOWN_BYTES)?;
    format!(in alloc; "privilege: no rule has the {role} {shown}")
}

fn granted_text(
    alloc: Global,
    granted: Modes,
    subject: &Label,
    object: &Label,
    line: u32,
) -> Result<String, AllocError> {
    let letters = granted_letters(alloc, granted, subject, object)?;
    format!(in alloc;
        "privilege: line {line} is the last about the two; what may be asked for: {letters}"
    )
}

// The letters that the modes allow the pair, each alone, or `-` where they allow none.
fn granted_letters(
    alloc: Global,
    granted: Modes,
    subject: &Label,
    object: &Label,
) -> Result<String, AllocError> {
    let mut letters = String::new(alloc);
    for letter in LETTERS {
        if allows(granted, subject, object, letter) {
            letters.push(char::from(letter))?;
        }
    }
    if letters.is_empty() {
        letters.push('-')?;
    }
    Ok(letters)
}

fn allows(granted: Modes, subject: &Label, object: &Label, letter: u8) -> bool {
    match Modes::read(&[letter]) {
        Some(asked) if asked.is_request() => decide(subject, object, asked, granted).allowed,
        _ => false,
    }
}
