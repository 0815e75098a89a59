//! The texts of answers about levels and audits, piece by piece. Where memory runs out, a front may stand at the end.

ghost use Rattle.std.specs.Prelude.{◌≡◌, ◌++◌, OnOk, OnErr};
ghost use Rattle.line_answers.specs.Answers.{level_answer_text, level_text, levels_text, allowed_text, pairs_text};
ghost use Rattle.line_answers.specs.Answers.{not_administrator_text, too_many_text};
ghost use Rattle.script_words.specs.WordForms.{user_type_text};
ghost use Rattle.line_answers.specs.parts.Appending.{Lengthens};

use crate::level_answers::LevelAnswer;
use crate::pieces::append_number;
use app_registry::UserType;
use desk_ports::Bytes;
use level_requests::Level;
use std::alloc::AllocError;

pub(crate) fn append_level_answer(out: &mut Bytes, answer: &LevelAnswer) -> Result<(), AllocError>
    ensures ok { OnOk result (out.new ≡ out.old ++ level_answer_text answer.now) }
    ensures err { OnErr result (Lengthens out.old out.new) }
{
    match answer {
        LevelAnswer::Set {
            client,
            privilege,
            level,
        } => append_level(out, client, privilege, *level),
        LevelAnswer::Levels { count } => append_levels(out, *count),
        LevelAnswer::Allowed { client, privilege } => append_allowed(out, client, privilege),
        LevelAnswer::Pairs { count } => append_pairs(out, *count),
        LevelAnswer::NotAdministrator { kind } => append_not_administrator(out, *kind),
        LevelAnswer::TooMany { product } => append_too_many(out, *product),
    }
}

#[tactic(auto, unfolding(crate::specs::Answers::level_text))]
fn append_level(
    out: &mut Bytes,
    client: &[u8],
    privilege: &[u8],
    level: Level,
) -> Result<(), AllocError>
    ensures ok { OnOk result (out.new ≡ out.old ++ level_text client.now privilege.now level) }
    ensures err { OnErr result (Lengthens out.old out.new) }
{
    out.append(b"level ")?;
    out.append(client)?;
    out.append(b" ")?;
    out.append(privilege)?;
    out.append(b" ")?;
    out.append(level.text())?;
    out.append(b"\n")
}

#[tactic(auto, unfolding(crate::specs::Answers::levels_text))]
fn append_levels(out: &mut Bytes, count: u64) -> Result<(), AllocError>
    ensures ok { OnOk result (out.new ≡ out.old ++ levels_text count) }
    ensures err { OnErr result (Lengthens out.old out.new) }
{
    out.append(b"levels ")?;
    append_number(out, count)?;
    out.append(b"\n")
}

#[tactic(auto, unfolding(crate::specs::Answers::allowed_text))]
fn append_allowed(out: &mut Bytes, client: &[u8], privilege: &[u8]) -> Result<(), AllocError>
    ensures ok { OnOk result (out.new ≡ out.old ++ allowed_text client.now privilege.now) }
    ensures err { OnErr result (Lengthens out.old out.new) }
{
    out.append(b"allowed ")?;
    out.append(client)?;
    out.append(b" ")?;
    out.append(privilege)?;
    out.append(b"\n")
}

#[tactic(auto, unfolding(crate::specs::Answers::pairs_text))]
fn append_pairs(out: &mut Bytes, count: u64) -> Result<(), AllocError>
    ensures ok { OnOk result (out.new ≡ out.old ++ pairs_text count) }
    ensures err { OnErr result (Lengthens out.old out.new) }
{
    out.append(b"pairs ")?;
    append_number(out, count)?;
    out.append(b"\n")
}

#[tactic(auto, unfolding(crate::specs::Answers::not_administrator_text))]
fn append_not_administrator(out: &mut Bytes, kind: UserType) -> Result<(), AllocError>
    ensures ok { OnOk result (out.new ≡ out.old ++ not_administrator_text kind) }
    ensures err { OnErr result (Lengthens out.old out.new) }
{
    out.append(b"refused 15 not-administrator ")?;
    out.append(user_type_text(kind))?;
    out.append(b"\n")
}

/// The word of a type.
fn user_type_text(kind: UserType) -> &'static [u8]
    ensures { result.now ≡ user_type_text kind }
{
    match kind {
        UserType::System => b"system",
        UserType::Admin => b"admin",
        UserType::Normal => b"normal",
        UserType::Guest => b"guest",
    }
}

#[tactic(auto, unfolding(crate::specs::Answers::too_many_text))]
fn append_too_many(out: &mut Bytes, product: u64) -> Result<(), AllocError>
    ensures ok { OnOk result (out.new ≡ out.old ++ too_many_text product) }
    ensures err { OnErr result (Lengthens out.old out.new) }
{
    out.append(b"refused 16 too-many ")?;
    append_number(out, product)?;
    out.append(b"\n")
}
