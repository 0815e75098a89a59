ghost use Rattle.std.specs.Prelude.{◌≡◌, ◌++◌, OnOk, OnErr};
ghost use Rattle.line_answers.specs.Answers.{answer_text, command_line_text, decided_text, reply_fault_text};

use crate::level_answers::{LevelAnswer, ShareAnswer};
use crate::print_answers::append_answer;
use crate::rules_broken::RuleBroken;
use cynara_keys::Kind;
use desk_ports::Bytes;
use smack_rules::Decision;
use std::alloc::AllocError;

/// What a line is answered, or the last line of a run. COMMIT is the number of the last accepted command. RESULT is
/// `deny`, `none`, `allow`, `bucket:BUCKET` or `agent:KIND:METADATA`, printed from a kind and metadata. The root
/// bucket, whose name is empty, is written `.`. Texts are borrowed and printed as they are.
#[derive(Clone, Copy)]
pub enum LineAnswer<'a> {
    /// `ok COMMIT`: a command was accepted.
    Accepted {
        commit: u64,
    },
    /// `ok COMMIT erased COUNT`: an erasing was accepted, and took away so many policies.
    Erased {
        commit: u64,
        count: u32,
    },
    /// `RESULT COMMIT BUCKET CLIENT USER PRIVILEGE`: an evaluation that a policy decided.
    ByPolicy {
        commit: u64,
        bucket: &'a [u8],
        kind: Kind,
        metadata: &'a [u8],
        client: &'a [u8],
        user: &'a [u8],
        privilege: &'a [u8],
    },
    /// `RESULT COMMIT BUCKET default`: an evaluation that a bucket's fallback decided.
    ByFallback {
        commit: u64,
        bucket: &'a [u8],
        kind: Kind,
        metadata: &'a [u8],
    },
    /// `allow COMMIT agent KIND NUMBER` or `deny COMMIT agent KIND NUMBER`: what the agent of a kind answered to the
    /// question with this number.
    FromAgent {
        commit: u64,
        allowed: bool,
        kind: Kind,
        number: u32,
    },
    /// `not-resolved COMMIT KIND`: the verdict names an agent's kind, and the check asks no agent.
    NotResolved {
        commit: u64,
        kind: Kind,
    },
    /// `no-agent COMMIT KIND`: the verdict names an agent's kind, and no agent of it is there.
    NoAgent {
        commit: u64,
        kind: Kind,
    },
    /// `agent-gone COMMIT NUMBER`: the agent left that was asked the question with this number.
    AgentGone {
        commit: u64,
        number: u32,
    },
    /// `agent-full COMMIT KIND MOST`: there is no room for a question more, or no number for one.
    AgentFull {
        commit: u64,
        kind: Kind,
        most: u32,
    },
    /// `row CLIENT USER PRIVILEGE RESULT`: a policy of a list.
    Row {
        client: &'a [u8],
        user: &'a [u8],
        privilege: &'a [u8],
        kind: Kind,
        metadata: &'a [u8],
    },
    /// `rows COUNT`: the end of a list of so many policies.
    Rows {
        count: u32,
    },
    /// `access allow RULE` or `access deny RULE`: a decision of Smack, with the number of the case that decided.
    Access {
        allowed: bool,
        rule: u8,
    },
    /// `commit COMMIT`: the number of the last accepted command.
    Status {
        commit: u64,
    },
    /// About levels, or what applications may do.
    OfLevels(LevelAnswer<'a>),
    /// About shares.
    OfShares(ShareAnswer<'a>),
    /// `refused NUMBER NAME` with what the rule is about: a command was refused.
    Refused(RuleBroken<'a>),
    /// `store-fault`: the store of a service failed while a command was kept.
    StoreFault,
    /// `store-damaged FILE LINE`: the file's line with this number, or with 0 the whole file, in the store of a service
    /// is no text of a policy state.
    StoreDamaged {
        file: &'a [u8],
        line: u32,
    },
    /// `question NUMBER CLIENT USER PRIVILEGE RESULT`: what an agent is asked, and the result that asks it.
    AgentQuestion {
        number: u32,
        client: &'a [u8],
        user: &'a [u8],
        privilege: &'a [u8],
        kind: Kind,
        metadata: &'a [u8],
    },
    /// `taken KIND`: another agent of this kind is there.
    KindTaken {
        kind: Kind,
    },
    /// `fault command line`: the words of the command line are no command.
    CommandLineFault,
    /// `syntax LINE`: the line with this number, from 1, is outside its grammar.
    LineFault {
        line: u32,
    },
    /// `damaged FILE LINE`: the file's line with this number, or with 0 the whole file, is no text of a policy state.
    Damaged {
        file: &'a [u8],
        line: u32,
    },
    /// `fault reply`: the bytes of a peer are no reply.
    ReplyFault,
    /// `fault too-long LENGTH`: a command would be a frame of this length, in bytes, which is more than a frame may
    /// have.
    FrameTooLong {
        length: u64,
    },
}

/// The line of words that are no command.
#[tactic(auto, unfolding(crate::specs::Answers::command_line_text))]
pub(crate) fn command_line_fault() -> &'static [u8]
    ensures { result.now ≡ command_line_text }
{
    b"fault command line\n"
}

/// The line of bytes that are no reply.
#[tactic(auto, unfolding(crate::specs::Answers::reply_fault_text))]
pub(crate) fn reply_fault() -> &'static [u8]
    ensures { result.now ≡ reply_fault_text }
{
    b"fault reply\n"
}

/// Appends the text of the answer, a line with its newline. Where memory runs out, the bytes stay as they were.
/// Inlined, so that an answer whose kind is known costs no choice between the kinds, and none is put together only to
/// be taken apart.
#[inline(always)]
pub fn print(answer: &LineAnswer, out: &mut Bytes) -> Result<(), AllocError>
    ensures ok { OnOk result (out.new ≡ out.old ++ answer_text answer.now) }
    ensures err { OnErr result (out.new ≡ out.old) }
{
    let start = out.len();
    let printed = append_answer(answer, out);
    if printed.is_err() {
        out.truncate(start);
    }
    printed
}

/// Appends the text of a decision of Smack. Where memory runs out, the bytes stay as they were.
pub fn print_decision(decision: &Decision, out: &mut Bytes) -> Result<(), AllocError>
    ensures ok { OnOk result (out.new ≡ out.old ++ decided_text decision.now) }
    ensures err { OnErr result (out.new ≡ out.old) }
{
    let answer = LineAnswer::Access {
        allowed: decision.allowed,
        rule: decision.rule,
    };
    print(&answer, out)
}
