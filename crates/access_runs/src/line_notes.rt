// What a person is told of a line that is no rule: why it is none.
ghost use Rattle.std.specs.Prelude.{◌≡◌};

use desk_ports::Sink;
use line_reasons::{Reason, rule_fault};
use run_endings::note_text;
use smack_rules::MOST_TEXT_BYTES;
use std::alloc::{AllocError, Global};
use text_lines::split_line;

/// Tells why a text of rules is none: the line with this number, from 1, is the first that is wrong.
pub fn note_rule_line<K: Sink>(alloc: Global, text: &[u8], number: u32, sink: &mut K)
    ensures taken { K.taken sink.new ≡ K.taken sink.old }
    ensures count { K.faults sink.new ≡ K.faults sink.old }
{
    note_text(rule_text(alloc, text, number), sink);
}

// Why the line with this number, from 1, is no rule. The last line of a text that is too long is cut, so it says
// nothing.
fn rule_text(alloc: Global, text: &[u8], number: u32) -> Result<String, AllocError> {
    let (line, behind) = line_at(text, number);
    if text.len() > MOST_TEXT_BYTES && behind.is_empty() {
        return past_limit_text(alloc, number);
    }
    match rule_fault(alloc, line)? {
        Some(fault) => format!(in alloc; "privilege: line {number}, {fault}"),
        None => past_limit_text(alloc, number),
    }
}

fn past_limit_text(alloc: Global, number: u32) -> Result<String, AllocError> {
    let reason = Reason::RulesPastLimit;
    format!(in alloc; "privilege: line {number}: {reason}")
}

// The line with this number, from 1, and what is behind it; nothing where there is none.
fn line_at(text: &[u8], number: u32) -> (&[u8], &[u8]) {
    let mut line: &[u8] = &[];
    let mut rest = text;
    for _ in 0..number {
        let Some((next, after)) = split_line(rest) else {
            return (&[], &[]);
        };
        line = next;
        rest = after;
    }
    (line, rest)
}
