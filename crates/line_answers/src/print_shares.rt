//! The texts of answers about shares, piece by piece. Where memory runs out, a front may stand at the end.

ghost use Rattle.std.specs.Prelude.{◌≡◌, ◌++◌, [], if◌then◌else◌, OnOk, OnErr};
ghost use Rattle.smack_rules.specs.Modes.{spelling};
ghost use Rattle.line_answers.specs.Answers.{share_answer_text, shared_text, rule_row_text, rule_rows_text};
ghost use Rattle.line_answers.specs.Answers.{unknown_app_text, same_label_text, not_shared_text, share_limit_text};
ghost use Rattle.line_answers.specs.parts.Appending.{Lengthens};

use crate::level_answers::ShareAnswer;
use crate::pieces::append_number;
use desk_ports::Bytes;
use smack_rules::Modes;
use std::alloc::AllocError;

pub(crate) fn append_share_answer(out: &mut Bytes, answer: &ShareAnswer) -> Result<(), AllocError>
    ensures ok { OnOk result (out.new ≡ out.old ++ share_answer_text answer.now) }
    ensures err { OnErr result (Lengthens out.old out.new) }
{
    match answer {
        ShareAnswer::Shared { count } => append_shared(out, *count),
        ShareAnswer::Rule {
            subject,
            object,
            modes,
        } => append_rule_row(out, subject, object, *modes),
        ShareAnswer::Rules { count } => append_rule_rows(out, *count),
        ShareAnswer::UnknownApp { app } => append_unknown_app(out, app),
        ShareAnswer::SameLabel { label } => append_same_label(out, label),
        ShareAnswer::NotShared => append_not_shared(out),
        ShareAnswer::ShareLimit { most } => append_share_limit(out, *most),
    }
}

#[tactic(auto, unfolding(crate::specs::Answers::shared_text))]
fn append_shared(out: &mut Bytes, count: u32) -> Result<(), AllocError>
    ensures ok { OnOk result (out.new ≡ out.old ++ shared_text count) }
    ensures err { OnErr result (Lengthens out.old out.new) }
{
    out.append(b"shared ")?;
    append_number(out, u64::from(count))?;
    out.append(b"\n")
}

#[tactic(auto, unfolding(crate::specs::Answers::rule_row_text))]
fn append_rule_row(
    out: &mut Bytes,
    subject: &[u8],
    object: &[u8],
    modes: Modes,
) -> Result<(), AllocError>
    ensures ok { OnOk result (out.new ≡ out.old ++ rule_row_text subject.now object.now modes) }
    ensures err { OnErr result (Lengthens out.old out.new) }
{
    out.append(b"rule ")?;
    out.append(subject)?;
    out.append(b" ")?;
    out.append(object)?;
    out.append(b" ")?;
    append_modes(out, modes)?;
    out.append(b" -\n")
}

/// The letters in their order, and `-` for none.
fn append_modes(out: &mut Bytes, modes: Modes) -> Result<(), AllocError>
    ensures ok { OnOk result (out.new ≡ out.old ++ spelling modes) }
    ensures err { OnErr result (Lengthens out.old out.new) }
{
    if modes.is_empty() {
        return out.append(b"-");
    }
    append_letter(out, modes.read, b"r")?;
    append_letter(out, modes.write, b"w")?;
    append_letter(out, modes.execute, b"x")?;
    append_letter(out, modes.append, b"a")?;
    append_letter(out, modes.transmute, b"t")?;
    append_letter(out, modes.lock, b"l")?;
    append_letter(out, modes.bring_up, b"b")
}

fn append_letter(out: &mut Bytes, present: bool, letter: &[u8]) -> Result<(), AllocError>
    ensures ok { OnOk result (out.new ≡ out.old ++ (if present then letter.now else [])) }
    ensures err { OnErr result (Lengthens out.old out.new) }
{
    if present {
        return out.append(letter);
    }
    out.append(b"")
}

#[tactic(auto, unfolding(crate::specs::Answers::rule_rows_text))]
fn append_rule_rows(out: &mut Bytes, count: u64) -> Result<(), AllocError>
    ensures ok { OnOk result (out.new ≡ out.old ++ rule_rows_text count) }
    ensures err { OnErr result (Lengthens out.old out.new) }
{
    out.append(b"rules ")?;
    append_number(out, count)?;
    out.append(b"\n")
}

#[tactic(auto, unfolding(crate::specs::Answers::unknown_app_text))]
fn append_unknown_app(out: &mut Bytes, app: &[u8]) -> Result<(), AllocError>
    ensures ok { OnOk result (out.new ≡ out.old ++ unknown_app_text app.now) }
    ensures err { OnErr result (Lengthens out.old out.new) }
{
    out.append(b"refused 17 unknown-app ")?;
    out.append(app)?;
    out.append(b"\n")
}

#[tactic(auto, unfolding(crate::specs::Answers::same_label_text))]
fn append_same_label(out: &mut Bytes, label: &[u8]) -> Result<(), AllocError>
    ensures ok { OnOk result (out.new ≡ out.old ++ same_label_text label.now) }
    ensures err { OnErr result (Lengthens out.old out.new) }
{
    out.append(b"refused 18 same-label ")?;
    out.append(label)?;
    out.append(b"\n")
}

#[tactic(auto, unfolding(crate::specs::Answers::not_shared_text))]
fn append_not_shared(out: &mut Bytes) -> Result<(), AllocError>
    ensures ok { OnOk result (out.new ≡ out.old ++ not_shared_text) }
    ensures err { OnErr result (Lengthens out.old out.new) }
{
    out.append(b"refused 19 not-shared\n")
}

#[tactic(auto, unfolding(crate::specs::Answers::share_limit_text))]
fn append_share_limit(out: &mut Bytes, most: u64) -> Result<(), AllocError>
    ensures ok { OnOk result (out.new ≡ out.old ++ share_limit_text most) }
    ensures err { OnErr result (Lengthens out.old out.new) }
{
    out.append(b"refused 20 share-limit ")?;
    append_number(out, most)?;
    out.append(b"\n")
}
