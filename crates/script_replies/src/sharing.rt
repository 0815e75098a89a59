// The answers to lines on shares.
ghost use Rattle.std.specs.Prelude.{◌≡◌, ◌++◌, true, OnOk, OnErr};
ghost use Rattle.line_answers.specs.Answers.{shared_text, share_answer_text};
ghost use Rattle.line_answers.specs.parts.Appending.{Lengthens};
ghost use Rattle.script_replies.specs.Sharing.{share_refusal_text, names_share_rule, rule_text, rules_text};
ghost use Rattle.script_replies.specs.Sharing.{shares_reply};

use desk_ports::Bytes;
use desk_state::Desk;
use line_answers::{LineAnswer, ShareAnswer, print};
use private_sharing::{ShareRefusal, Shares};
use smack_rules::Rule;
use std::alloc::AllocError;

/// Prints how often a share is open.
pub fn print_shared(count: u32, out: &mut Bytes) -> Result<(), AllocError>
    ensures ok { OnOk result (out.new ≡ out.old ++ shared_text count) }
    ensures err { OnErr result (out.new ≡ out.old) }
{
    print_share(&ShareAnswer::Shared { count }, out)
}

/// Prints the rule that a share breaks. Want of memory is none.
pub fn print_share_refusal(refusal: &ShareRefusal, out: &mut Bytes) -> Result<(), AllocError>
    ensures ok { OnOk result (out.new ≡ out.old ++ share_refusal_text refusal.now) }
    ensures rule { OnOk result (names_share_rule refusal.now ≡ true) }
    ensures err { OnErr result (out.new ≡ out.old) }
{
    match refusal {
        ShareRefusal::UnknownApp(app) => print_share(
            &ShareAnswer::UnknownApp {
                app: app.as_slice(),
            },
            out,
        ),
        ShareRefusal::SameLabel(label) => print_share(
            &ShareAnswer::SameLabel {
                label: label.as_slice(),
            },
            out,
        ),
        ShareRefusal::NotShared => print_share(&ShareAnswer::NotShared, out),
        ShareRefusal::Most(most) => print_share(&ShareAnswer::ShareLimit { most: *most }, out),
        ShareRefusal::Memory(error) => Err(*error),
    }
}

fn print_share(answer: &ShareAnswer<'_>, out: &mut Bytes) -> Result<(), AllocError>
    ensures ok { OnOk result (out.new ≡ out.old ++ share_answer_text answer.now) }
    ensures err { OnErr result (out.new ≡ out.old) }
{
    print(&LineAnswer::OfShares(*answer), out)
}

/// Prints the Smack rules that open shares give, a line each, and how many they are.
pub fn print_shares(desk: &Desk, shares: &Shares, out: &mut Bytes) -> Result<(), AllocError>
    ensures ok { OnOk result (out.new ≡ out.old ++ shares_reply desk.now.registry shares.now) }
    ensures err { OnErr result (out.new ≡ out.old) }
{
    let rules = shares.rules(desk.registry())?;
    print_rules(&rules, out)
}

fn print_rules(rules: &[Rule], out: &mut Bytes) -> Result<(), AllocError>
    ensures ok { OnOk result (out.new ≡ out.old ++ rules_text rules.now) }
    ensures err { OnErr result (out.new ≡ out.old) }
{
    let start = out.len();
    let printed = append_rules(rules, out);
    if printed.is_err() {
        out.truncate(start);
    }
    printed
}

fn append_rules(rules: &[Rule], out: &mut Bytes) -> Result<(), AllocError>
    ensures ok { OnOk result (out.new ≡ out.old ++ rules_text rules.now) }
    ensures err { OnErr result (Lengthens out.old out.new) }
{
    for rule in rules {
        print_rule(rule, out)?;
    }
    let count = rules.len() as u64;
    print_share(&ShareAnswer::Rules { count }, out)
}

fn print_rule(rule: &Rule, out: &mut Bytes) -> Result<(), AllocError>
    ensures ok { OnOk result (out.new ≡ out.old ++ rule_text rule.now) }
    ensures err { OnErr result (out.new ≡ out.old) }
{
    match rule {
        Rule::Adjust {
            subject,
            object,
            allow,
            deny: _,
        } => {
            let answer = ShareAnswer::Rule {
                subject: subject.as_slice(),
                object: object.as_slice(),
                modes: *allow,
            };
            print_share(&answer, out)
        }
        Rule::Set { .. } => out.append(b""),
    }
}
