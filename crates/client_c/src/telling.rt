// What a message says, by its fields.

ghost use Rattle.std.specs.Prelude.{◌≡◌};
ghost use Rattle.client_c.specs.Codes as codes;
ghost use Rattle.client_c.specs.Seen as words;
ghost use Rattle.client_c.specs.Seen.{seen};

use crate::Said;
use crate::codes::*;
use client_core::{Fault, Machine, Step};
use cynara_keys::{Counted, Kind, Policy, PolicyResult, Question};
use desk_state::Refusal;
use wire_messages::{BorrowedRow, Message, PackedVerdict, WireRefusal};

/// What a step of the machine comes to: its code, and what is said. What a step says nothing of is left as it was.
pub(crate) fn told(machine: &Machine, step: Step, said: &mut Said) -> u8
    ensures code { result ≡ codes.code_of step }
    ensures says { words.Says step machine.now said.old said.new }
{
    match step {
        Step::Kept => {
            say_kept(machine, said);
            ANSWER
        }
        Step::Reply(message) => {
            say_message(said, &message);
            let code = code_of(&message);
            drop(message);
            code
        }
        Step::Row(message) => {
            say_message(said, &message);
            drop(message);
            ROW
        }
        Step::Over(fault) => {
            say_fault(said, fault);
            code_of_fault(fault)
        }
        Step::Unfit(refusal) => {
            say_refusal(said, refusal);
            BAD_MESSAGE
        }
        Step::Idle => IDLE,
        Step::Dial => DIAL,
        Step::Look => LOOK,
        Step::Send => SEND,
        Step::Wait => WAIT,
        Step::TooLong => TOO_LONG,
        Step::WrongNumber => WRONG_NUMBER,
        Step::NotNow => WRONG_ORDER,
        Step::BadCount => BAD_COUNT,
    }
}

/// The code of a step.
pub(crate) fn code_of_step(step: &Step) -> u8
    ensures { result ≡ codes.code_of step.now }
{
    match step {
        Step::Kept => ANSWER,
        Step::Reply(message) => code_of(message),
        Step::Row(_) => ROW,
        Step::Over(fault) => code_of_fault(*fault),
        Step::Unfit(_) => BAD_MESSAGE,
        Step::Idle => IDLE,
        Step::Dial => DIAL,
        Step::Look => LOOK,
        Step::Send => SEND,
        Step::Wait => WAIT,
        Step::TooLong => TOO_LONG,
        Step::WrongNumber => WRONG_NUMBER,
        Step::NotNow => WRONG_ORDER,
        Step::BadCount => BAD_COUNT,
    }
}

/// The verdict that a client used last.
pub(crate) fn say_kept(machine: &Machine, said: &mut Said)
    ensures { words.says_kept (words.newest_in machine.now) said.old said.new }
{
    let Machine::Client(client) = machine else {
        return;
    };
    match client.newest() {
        Some(verdict) => say_verdict(said, verdict),
        None => {}
    }
}

// What it comes to that this was said.
fn code_of(message: &Message) -> u8
    ensures { result ≡ codes.message_code message.now }
{
    match message {
        Message::NotResolved { .. } => NOT_RESOLVED,
        Message::NoAgent { .. } => NO_AGENT,
        Message::AgentGone { .. } => AGENT_GONE,
        Message::AgentFull { .. } => AGENT_FULL,
        Message::Registered { .. } => REGISTERED,
        Message::KindTaken { .. } => KIND_TAKEN,
        Message::AgentQuestion { .. } => QUESTION,
        Message::UnknownNumber { .. } => UNKNOWN,
        Message::AgentWithdrawn { .. } => WITHDRAWN,
        _ => ANSWER,
    }
}

fn code_of_fault(fault: Fault) -> u8
    ensures { result ≡ codes.fault_code fault }
{
    match fault {
        Fault::Unavailable => UNAVAILABLE,
        Fault::Older { .. } => OLDER,
        Fault::Frame(_) => BAD_FRAME,
        Fault::Sequence { .. } => BAD_SEQUENCE,
        Fault::Operation(_) => BAD_OPERATION,
        Fault::Memory(_) => NO_MEMORY,
    }
}

// The numbers behind a fault.
fn say_fault(said: &mut Said, fault: Fault)
    ensures { seen said.new ≡ words.fault_seen fault }
{
    said.clear();
    match fault {
        Fault::Unavailable => {}
        Fault::Older { got, .. } => said.commit = got,
        Fault::Frame(refusal) => say_refusal(said, refusal),
        Fault::Sequence { got, .. } => said.number = u32::from(got),
        Fault::Operation(operation) => said.number = u32::from(operation),
        Fault::Memory(_) => {}
    }
}

// Why bytes are no frame, and the number behind it.
fn say_refusal(said: &mut Said, refusal: WireRefusal)
    ensures { seen said.new ≡ words.refusal_seen refusal }
{
    said.clear();
    match refusal {
        WireRefusal::TooShort(length) => {
            said.value = 1;
            said.number = length;
        }
        WireRefusal::TooLong(length) => {
            said.value = 2;
            said.number = length;
        }
        WireRefusal::BadOperation(operation) => {
            said.value = 3;
            said.number = u32::from(operation);
        }
        WireRefusal::BadField(place) => {
            said.value = 4;
            said.number = place;
        }
        WireRefusal::Trailing(place) => {
            said.value = 5;
            said.number = place;
        }
        WireRefusal::Memory(_) => {}
    }
}

fn say_verdict(said: &mut Said, verdict: &PackedVerdict)
    ensures { seen said.new ≡ words.verdict_seen verdict.now }
{
    said.clear();
    said.operation = 0x81;
    said.commit = verdict.commit();
    said.kind = verdict.kind().0;
    said.allowed = verdict.kind() == Kind::ALLOW;
    said.metadata.put(verdict.metadata());
    said.text.put(verdict.bucket());
    match verdict.row() {
        Some(row) => put_row(said, &row),
        None => {}
    }
}

fn put_row(said: &mut Said, row: &BorrowedRow<'_>)
    ensures { seen said.new ≡ words.with_key row.now.client row.now.user row.now.privilege (seen said.old) }
{
    put_key(said, row.client(), row.user(), row.privilege());
}

fn put_key(said: &mut Said, client: &[u8], user: &[u8], privilege: &[u8])
    ensures { seen said.new ≡ words.with_key client.now user.now privilege.now (seen said.old) }
{
    said.has_key = true;
    put_names(said, client, user, privilege);
}

fn put_names(said: &mut Said, client: &[u8], user: &[u8], privilege: &[u8])
    ensures { seen said.new ≡ words.with_names client.now user.now privilege.now (seen said.old) }
{
    said.client.put(client);
    said.user.put(user);
    said.privilege.put(privilege);
}

// What the message says.
pub(crate) fn say_message(said: &mut Said, message: &Message)
    ensures { seen said.new ≡ words.message_seen message.now }
{
    match message {
        Message::Judged { verdict } => say_verdict(said, verdict),
        Message::Refused { refusal } => say_rule(said, refusal),
        Message::ListRow { policy } => say_policy(said, policy),
        Message::AgentQuestion {
            number,
            question,
            result: outcome,
        } => say_question(said, *number, question, outcome),
        other => {
            say_operation(said, other.operation());
            put_numbers(said, other);
        }
    }
}

// The fields of a message that are numbers, of one that has no other but a file's name.
fn put_numbers(said: &mut Said, message: &Message)
    ensures { seen said.new ≡ words.numbers message.now (seen said.old) }
{
    match message {
        Message::FromAgent {
            commit,
            kind,
            number,
            allowed,
        } => {
            said.commit = *commit;
            said.kind = kind.0;
            said.number = *number;
            said.allowed = *allowed;
        }
        Message::NotResolved { commit, kind } => {
            said.commit = *commit;
            said.kind = kind.0;
        }
        Message::NoAgent { commit, kind } => {
            said.commit = *commit;
            said.kind = kind.0;
        }
        Message::AgentGone { commit, number } => {
            said.commit = *commit;
            said.number = *number;
        }
        Message::AgentFull { commit, kind, most } => {
            said.commit = *commit;
            said.kind = kind.0;
            said.number = *most;
        }
        Message::Done { commit, erased } => {
            said.commit = *commit;
            said.number = *erased;
        }
        Message::ListEnd { count } => said.number = *count,
        Message::StoreDamaged { file, line } => {
            said.text.put(file.as_slice());
            said.number = *line;
        }
        Message::Registered { kind } => said.kind = kind.0,
        Message::KindTaken { kind } => said.kind = kind.0,
        Message::UnknownNumber { number } => said.number = *number,
        Message::AgentWithdrawn { number } => said.number = *number,
        _ => {}
    }
}

fn say_policy(said: &mut Said, policy: &Policy)
    ensures { seen said.new ≡ words.policy_seen policy.now }
{
    say_operation(said, 0x92);
    put_result(said, &policy.result);
    put_key(
        said,
        policy.key.client(),
        policy.key.user(),
        policy.key.privilege(),
    );
}

fn say_question(said: &mut Said, number: u32, question: &Question, outcome: &PolicyResult)
    ensures { seen said.new ≡ words.question_seen number question.now outcome.now }
{
    say_operation(said, 0xa2);
    said.number = number;
    put_result(said, outcome);
    put_names(
        said,
        question.client(),
        question.user(),
        question.privilege(),
    );
}

fn put_result(said: &mut Said, outcome: &PolicyResult)
    ensures { seen said.new ≡ words.with_result outcome.now (seen said.old) }
{
    said.kind = outcome.kind().0;
    said.metadata.put(outcome.metadata().as_slice());
}

// A refusal by a rule: the rule's number, its text and its value.
fn say_rule(said: &mut Said, refusal: &Refusal)
    ensures { seen said.new ≡ words.refused_seen refusal.now }
{
    match refusal {
        Refusal::Reserved(bucket) => say_broken(said, 1, bucket.as_slice(), 0),
        Refusal::LayoutThere => say_broken(said, 2, b"", 0),
        Refusal::NoLayout => say_broken(said, 3, b"", 0),
        Refusal::NoBucket(bucket) => say_broken(said, 4, bucket.as_slice(), 0),
        Refusal::RootBucket => say_broken(said, 5, b"", 0),
        Refusal::BadKind(kind) => say_broken(said, 6, b"", u64::from(kind.0)),
        Refusal::UnknownUser(uid) => say_broken(said, 7, b"", u64::from(*uid)),
        Refusal::OtherPackage(name) => say_broken(said, 8, name.as_slice(), 0),
        Refusal::OtherAuthor(Some(author)) => say_broken(said, 9, author.as_slice(), 0),
        Refusal::OtherAuthor(None) => say_broken(said, 9, b"", 0),
        Refusal::NotInstalled => say_broken(said, 10, b"", 0),
        Refusal::Limit(counted, limit) => say_broken(said, 11, counted_text(*counted), *limit),
        Refusal::Cycle(bucket) => say_broken(said, 12, bucket.as_slice(), 0),
        Refusal::OtherHybrid(hybrid) => say_broken(said, 14, b"", u64::from(*hybrid)),
        // No frame tells it.
        Refusal::Memory(_) => say_operation(said, 0x91),
    }
}

fn say_operation(said: &mut Said, operation: u8)
    ensures { seen said.new ≡ record words.nothing { operation = operation } }
{
    said.clear();
    said.operation = operation;
}

fn say_broken(said: &mut Said, rule: u8, text: &[u8], value: u64)
    ensures { seen said.new ≡ words.rule_seen rule text.now value }
{
    say_operation(said, 0x91);
    said.rule = rule;
    said.text.put(text);
    said.value = value;
}

// What a limit counts, as a frame spells it.
fn counted_text(counted: Counted) -> &'static [u8]
    ensures { result.now ≡ words.counted_text counted }
{
    match counted {
        Counted::Commits => b"commits",
        Counted::Users => b"users",
        Counted::Packages => b"packages",
        Counted::Installs => b"installs",
        Counted::Grants => b"grants",
        Counted::Buckets => b"buckets",
        Counted::Policies => b"policies",
    }
}
