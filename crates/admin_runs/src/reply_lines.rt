// The lines of the replies to a message.
ghost use Rattle.std.specs.Prelude.{◌≡◌, ◌++◌, if◌then◌else◌, OnOk};
ghost use Rattle.line_answers.specs.Answers.{accepted_text, erased_text};
ghost use Rattle.script_replies.specs.Reply.{policy_text};
ghost use Rattle.admin_runs.specs.ReplyLine.{verdict_by, reply_text, replies_text, erases};

use cynara_keys::Policy;
use desk_ports::Bytes;
use line_answers::{LineAnswer, print};
use script_replies::print_refusal;
use std::alloc::AllocError;
use wire_messages::{Message, PackedVerdict};

/// Adds the lines of the replies to this message.
pub(crate) fn put_replies(
    message: &Message,
    replies: &[Message],
    out: &mut Bytes,
) -> Result<(), AllocError>
    ensures { OnOk result (out.new ≡ out.old ++ replies_text message.now replies.now) }
{
    let erases = is_erase(message);
    for reply in replies {
        put_reply(erases, reply, out)?;
    }
    Ok(())
}

// Whether what is accepted tells how many policies it erased.
fn is_erase(message: &Message) -> bool
    ensures { result ≡ erases message.now }
{
    matches!(message, Message::Erase { .. })
}

fn put_reply(erases: bool, reply: &Message, out: &mut Bytes) -> Result<(), AllocError>
    ensures { OnOk result (out.new ≡ out.old ++ reply_text erases reply.now) }
{
    match reply {
        Message::Done { commit, erased } => put_done(erases, *commit, *erased, out),
        Message::Refused { refusal } => print_refusal(refusal, out),
        Message::StoreFault => print(&LineAnswer::StoreFault, out),
        Message::StoreDamaged { file, line } => print(
            &LineAnswer::StoreDamaged {
                file: file.as_slice(),
                line: *line,
            },
            out,
        ),
        Message::Judged { verdict } => put_verdict(verdict, out),
        Message::ListRow { policy } => put_row(policy, out),
        Message::ListEnd { count } => print(&LineAnswer::Rows { count: *count }, out),
        _ => Ok(()),
    }
}

fn put_done(erases: bool, commit: u64, erased: u32, out: &mut Bytes) -> Result<(), AllocError>
    ensures { OnOk result (out.new ≡ out.old ++ (if erases then erased_text commit erased else accepted_text commit)) }
{
    if erases {
        return print(
            &LineAnswer::Erased {
                commit,
                count: erased,
            },
            out,
        );
    }
    print(&LineAnswer::Accepted { commit }, out)
}

fn put_verdict(verdict: &PackedVerdict, out: &mut Bytes) -> Result<(), AllocError>
    ensures { OnOk result (out.new ≡ out.old
        ++ verdict_by verdict.now.commit verdict.now.answer verdict.now.answer.cause.row) }
{
    match verdict.row() {
        Some(row) => {
            let line = LineAnswer::ByPolicy {
                commit: verdict.commit(),
                bucket: verdict.bucket(),
                kind: verdict.kind(),
                metadata: verdict.metadata(),
                client: row.client(),
                user: row.user(),
                privilege: row.privilege(),
            };
            print(&line, out)
        }
        None => {
            let line = LineAnswer::ByFallback {
                commit: verdict.commit(),
                bucket: verdict.bucket(),
                kind: verdict.kind(),
                metadata: verdict.metadata(),
            };
            print(&line, out)
        }
    }
}

fn put_row(policy: &Policy, out: &mut Bytes) -> Result<(), AllocError>
    ensures { OnOk result (out.new ≡ out.old ++ policy_text policy.now) }
{
    let line = LineAnswer::Row {
        client: policy.key.client(),
        user: policy.key.user(),
        privilege: policy.key.privilege(),
        kind: policy.result.kind(),
        metadata: policy.result.metadata().as_slice(),
    };
    print(&line, out)
}
