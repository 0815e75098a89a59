//! The texts of refusals.

ghost use Rattle.std.specs.Prelude.{◌≡◌, ◌++◌, codes, decimal, OnOk, OnErr};
ghost use Rattle.line_answers.specs.Answers.{bucket_text, counted_text, author_text, hybrid_text, rule_text};
ghost use Rattle.line_answers.specs.Answers.{subject_text, refusal_text};
ghost use Rattle.line_answers.specs.parts.Appending.{Lengthens};

use crate::pieces::{append_bucket, append_counted, append_number};
use app_registry::Ident;
use cynara_keys::Counted;
use desk_ports::Bytes;
use desk_state::Refusal;
use std::alloc::AllocError;

/// `refused NUMBER NAME` and what the rule is about.
#[tactic(auto, unfolding(crate::specs::Answers::refusal_text))]
pub(crate) fn append_refusal(out: &mut Bytes, refusal: &Refusal) -> Result<(), AllocError>
    ensures ok { OnOk result (out.new ≡ out.old ++ refusal_text refusal.now) }
    ensures err { OnErr result (Lengthens out.old out.new) }
{
    out.append(b"refused ")?;
    out.append(rule_text(refusal))?;
    append_subject(out, refusal)?;
    out.append(b"\n")
}

/// `NUMBER NAME` of the rule.
fn rule_text(refusal: &Refusal) -> &'static [u8]
    ensures { result.now ≡ rule_text refusal.now }
{
    match refusal {
        Refusal::Reserved(_) => b"1 reserved",
        Refusal::LayoutThere => b"2 layout-there",
        Refusal::NoLayout => b"3 no-layout",
        Refusal::NoBucket(_) => b"4 no-bucket",
        Refusal::RootBucket => b"5 root-bucket",
        Refusal::BadKind(_) => b"6 bad-kind",
        Refusal::UnknownUser(_) => b"7 unknown-user",
        Refusal::OtherPackage(_) => b"8 other-package",
        Refusal::OtherAuthor(_) => b"9 other-author",
        Refusal::OtherHybrid(_) => b"14 other-hybrid",
        Refusal::NotInstalled => b"10 not-installed",
        Refusal::Limit(_, _) => b"11 limit",
        Refusal::Cycle(_) => b"12 cycle",
        Refusal::Memory(_) => b"",
    }
}

/// What the rule is about, with a space in front.
fn append_subject(out: &mut Bytes, refusal: &Refusal) -> Result<(), AllocError>
    ensures ok { OnOk result (out.new ≡ out.old ++ subject_text refusal.now) }
    ensures err { OnErr result (Lengthens out.old out.new) }
{
    match refusal {
        Refusal::Reserved(name) | Refusal::NoBucket(name) | Refusal::Cycle(name) => {
            append_next_bucket(out, name.as_slice())
        }
        Refusal::BadKind(kind) => append_next_number(out, u64::from(kind.0)),
        Refusal::UnknownUser(uid) => append_next_number(out, u64::from(*uid)),
        Refusal::OtherPackage(name) => append_next(out, name.as_slice()),
        Refusal::OtherAuthor(author) => append_next(out, author_bytes(author)),
        Refusal::OtherHybrid(hybrid) => append_next(out, hybrid_text(*hybrid)),
        Refusal::Limit(counted, most) => append_limit(out, *counted, *most),
        Refusal::LayoutThere
        | Refusal::NoLayout
        | Refusal::RootBucket
        | Refusal::NotInstalled
        | Refusal::Memory(_) => out.append(b""),
    }
}

fn append_next(out: &mut Bytes, text: &[u8]) -> Result<(), AllocError>
    ensures ok { OnOk result (out.new ≡ out.old ++ (codes " " ++ text.now)) }
    ensures err { OnErr result (Lengthens out.old out.new) }
{
    out.append(b" ")?;
    out.append(text)
}

fn append_next_bucket(out: &mut Bytes, name: &[u8]) -> Result<(), AllocError>
    ensures ok { OnOk result (out.new ≡ out.old ++ (codes " " ++ bucket_text name.now)) }
    ensures err { OnErr result (Lengthens out.old out.new) }
{
    out.append(b" ")?;
    append_bucket(out, name)
}

fn append_next_number(out: &mut Bytes, number: u64) -> Result<(), AllocError>
    ensures ok { OnOk result (out.new ≡ out.old ++ (codes " " ++ decimal number)) }
    ensures err { OnErr result (Lengthens out.old out.new) }
{
    out.append(b" ")?;
    append_number(out, number)
}

fn append_limit(out: &mut Bytes, counted: Counted, most: u64) -> Result<(), AllocError>
    ensures ok { OnOk result (out.new ≡ out.old
        ++ (codes " " ++ (counted_text counted ++ (codes " " ++ decimal most)))) }
    ensures err { OnErr result (Lengthens out.old out.new) }
{
    out.append(b" ")?;
    append_counted(out, counted)?;
    append_next_number(out, most)
}

/// Whether a package is hybrid.
fn hybrid_text(hybrid: bool) -> &'static [u8]
    ensures { result.now ≡ hybrid_text hybrid }
{
    if hybrid { b"yes" } else { b"no" }
}

/// The author's name, or `-` for none.
fn author_bytes(author: &Option<Ident>) -> &[u8]
    ensures { result.now ≡ author_text author.now }
{
    match author {
        Some(author) => author.as_slice(),
        None => b"-",
    }
}
