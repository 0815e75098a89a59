// `smack-access`: reads the rules of the source, and has the sink take the decision on one request.
ghost use Rattle.std.specs.Prelude.{◌≡◌, ◌≤◌, ◌<◌, ◌+◌, ◌⊎◌, ℕ, List, length, MatchResult, IfOk, IfErr, IsTrue};
ghost use Rattle.desk_ports.specs.Content.{Took};
ghost use Rattle.smack_rules.specs.Modes.{is_request};
ghost use Rattle.run_endings.specs.Ending.{source_faults_after};
ghost use Rattle.run_endings.specs.Outside.{source_seen, sink_seen};
ghost use Rattle.run_endings.specs.Saying.{Said, WritesAnswers};
ghost use Rattle.line_answers.specs.Answers.{decided_text};
ghost use Rattle.access_runs.specs.AccessRun.{RunsAccess};
ghost use Rattle.access_runs.specs.parts.Access.{IsRead, ReadsMore, AreLinesOf, IsWrongAt};
ghost use Rattle.access_runs.specs.parts.Access.{AreGranted, ReadsRules, WritesAnswer};
ghost use Rattle.access_runs.specs.parts.Access.{counts_source, counts_sink};

use crate::line_notes::note_rule_line;
use crate::pair_notes::note_rules;
use crate::zeros::zeros;
use desk_ports::{Bytes, Sink, Source, write_all};
use line_answers::print_decision;
use run_endings::Ending;
use smack_rules::{Decision, Label, MOST_TEXT_BYTES, Modes, decide, modes_in_text};
use std::alloc::Global;
use std::marker::Model;
use text_lines::split_at_newline;

/// How many bytes are read at most in one call.
const WINDOW: usize = 262_144;

/// Decides a request under the rule lines of the source, which is read first, to its end or past the longest text of
/// rules. Nothing is written but the decision.
pub fn run_access<S: Source, K: Sink>(
    alloc: Global,
    subject: &Label,
    object: &Label,
    asked: Modes,
    source: &mut S,
    sink: &mut K,
) -> Ending
    requires { IsTrue (is_request asked) }
    ensures run { (said : Said)
        × RunsAccess subject.now object.now asked said result (source_seen S.left S.faults source.old)
        (source_seen S.left S.faults source.new)
        × WritesAnswers result said (sink_seen K.taken K.faults sink.old) (sink_seen K.taken K.faults sink.new) }
    ensures source { S.faults source.new ≡ source_faults_after result (S.faults source.old) }
{
    let rules = match read_rules(alloc, subject, object, source, sink) {
        Ok(rules) => rules,
        Err(ending) => return ending,
    };
    let decision = decide(subject, object, asked, rules.granted);
    match write_decision(alloc, &rules, (subject, object), decision, sink) {
        Ok(()) => Ending::Done,
        Err(ending) => ending,
    }
}

/// A text of rules, and what they grant the pair that is asked about.
#[derive(Drop)]
struct ReadRules {
    text: Bytes,
    granted: Modes,
}

impl Model for ReadRules {
    ghost use Rattle.smack_rules.specs.declared.modes.Modes.{Modes};

    ghost Value = { Modes };

    ghost view = { λ rules. rules.granted };
}

// Tells a person of the rules, prints the decision on the pair, and has the sink take it.
fn write_decision<K: Sink>(
    alloc: Global,
    rules: &ReadRules,
    pair: (&Label, &Label),
    decision: Decision,
    sink: &mut K,
) -> Result<(), Ending>
    ensures written { WritesAnswer (K.taken sink.old) (K.taken sink.new) (decided_text decision) result }
    ensures count { K.faults sink.new ≡ counts_sink result (K.faults sink.old) }
{
    note_rules(
        alloc,
        rules.text.as_slice(),
        rules.granted,
        pair,
        decision,
        sink,
    );
    let mut text = Bytes::new(alloc);
    print_decision(&decision, &mut text)?;
    match write_all(sink, text.as_slice()) {
        Ok(()) => Ok(()),
        Err(_) => Err(Ending::Sink),
    }
}

// The rules of the source, which is read to its end or past the limit of a rule text, and what they grant the pair. A
// person is told why a line is none.
fn read_rules<S: Source, K: Sink>(
    alloc: Global,
    subject: &Label,
    object: &Label,
    source: &mut S,
    sink: &mut K,
) -> Result<ReadRules, Ending>
    ensures read { ReadsRules (S.left source.old) (S.left source.new) subject.now object.now result }
    ensures count { S.faults source.new ≡ counts_source result (S.faults source.old) }
    ensures taken { K.taken sink.new ≡ K.taken sink.old }
    ensures sink { K.faults sink.new ≡ K.faults sink.old }
{
    let text = read_text(alloc, source)?;
    match granted_by(text.as_slice(), subject, object) {
        Ok(granted) => Ok(ReadRules { text, granted }),
        Err(number) => {
            note_rule_line(alloc, text.as_slice(), number, sink);
            Err(Ending::Line(number))
        }
    }
}

// The bytes of the source up to its end. Where there are more than a rule text may have, one byte more than that.
fn read_text<S: Source>(alloc: Global, source: &mut S) -> Result<Bytes, Ending>
    ensures read { IfOk result (IsRead (S.left source.old) (S.left source.new)) }
    ensures stopped { IfErr result (λ ending. ((ending ≡ Ending.Memory) ⊎ (ending ≡ Ending.Source))
        × ((given : List ℕ) × Took (S.left source.old) given (S.left source.new))) }
    ensures count { S.faults source.new ≡ counts_source result (S.faults source.old) }
{
    let mut text = Bytes::new(alloc);
    let mut buffer = zeros(alloc, WINDOW)?;
    let window = buffer.as_mut_slice();
    'pieces: while read_more(&mut text, window, source)? {}
    Ok(text)
}

// Reads once, by way of the window, and appends what was read. Whether the text may go on behind that.
fn read_more<S: Source>(text: &mut Bytes, window: &mut [u8], source: &mut S) -> Result<bool, Ending>
    requires window { 0 < length window.old }
    requires within { length text.old ≤ 16777217 }
    ensures read { IfOk result (ReadsMore (S.left source.old) (S.left source.new) text.old text.new) }
    ensures stopped { IfErr result (λ ending. ((ending ≡ Ending.Memory) ⊎ (ending ≡ Ending.Source))
        × ((given : List ℕ) × Took (S.left source.old) given (S.left source.new))) }
    ensures count { S.faults source.new ≡ counts_source result (S.faults source.old) }
{
    if text.len() > MOST_TEXT_BYTES {
        return Ok(false);
    }
    let end = window.len().min(MOST_TEXT_BYTES + 1 - text.len());
    let Ok(count) = source.read(&mut window[..end]) else {
        return Err(Ending::Source);
    };
    let Ok(()) = text.append(&window[..count]) else {
        return Err(Ending::Memory);
    };
    Ok(count > 0)
}

// What a text's rules grant a pair, or the number of the first of its lines that is wrong.
fn granted_by(text: &[u8], subject: &Label, object: &Label) -> Result<Modes, u32>
    ensures { MatchResult result (AreGranted text.now subject.now object.now) (IsWrongAt text.now) }
{
    if text.len() > MOST_TEXT_BYTES {
        return Err(stop_past_limit(text, subject, object));
    }
    modes_in_text(text, subject, object)
}

// Where a text stops that goes past the limit: at the first of its lines within the limit that is no rule, and else at
// the line behind them, in which the byte past the limit stands.
fn stop_past_limit(text: &[u8], subject: &Label, object: &Label) -> u32
    requires { 16777216 < length text.now }
    ensures { IsWrongAt text.now result }
{
    let (lines, count) = whole_lines(&text[..MOST_TEXT_BYTES]);
    match modes_in_text(lines, subject, object) {
        Ok(_) => count + 1,
        Err(number) => number,
    }
}

// The lines of a text that end with a newline, and how many they are.
fn whole_lines(text: &[u8]) -> (&[u8], u32)
    requires { length text.now ≤ 16777216 }
    ensures lines { AreLinesOf text.now result.0.now result.1 }
    ensures count { result.1 ≤ length text.now }
{
    let mut rest = text;
    let mut count = 0u32;
    while let Some((_, after)) = split_at_newline(rest) {
        rest = after;
        count += 1;
    }
    (&text[..text.len() - rest.len()], count)
}
