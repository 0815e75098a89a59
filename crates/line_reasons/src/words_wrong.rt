//! What is wrong with a word.

use crate::forms::Form;
use crate::reasons::Reason;
use crate::word_tests::cut_at;
use app_registry::IDENT_LIMIT;
use cynara_keys::{MOST_BUCKET_NAME_BYTES, MOST_METADATA_BYTES, MOST_NAME_BYTES};
use desk_ports::shown_bytes;
use smack_rules::MOST_LABEL_BYTES;
use std::alloc::{AllocError, Global};

/// Why a word of this form cannot go on: with the byte that comes next, or with its end where a blank or none comes. So
/// much of the word is right.
pub(crate) fn word_reason(
    alloc: Global,
    form: Form,
    part: &[u8],
    next: Option<u8>,
) -> Result<Reason, AllocError> {
    if let Some(reason) = alone_reason(form, part, next) {
        return Ok(reason);
    }
    match form {
        Form::Bucket => text_reason(
            alloc,
            "the name of a bucket",
            MOST_BUCKET_NAME_BYTES as u32,
            part,
            next,
        ),
        Form::Field | Form::Name | Form::Names | Form::FilterField => {
            text_reason(alloc, "a name", MOST_NAME_BYTES as u32, part, next)
        }
        Form::Depth => Ok(Reason::BadDepth),
        Form::Result => result_reason(alloc, part, next),
        Form::Uid => Ok(Reason::BadUser),
        Form::UserType => Ok(Reason::BadUserType),
        Form::Scope => Ok(Reason::BadScope),
        Form::PackageKind => Ok(Reason::BadPackageKind),
        Form::Setter => Ok(Reason::BadSetter),
        Form::Level => Ok(Reason::BadLevel),
        Form::Ident | Form::Author => {
            text_reason(
                alloc,
                "the name of a package, author or application",
                IDENT_LIMIT as u32,
                part,
                next,
            )
        }
        Form::Label => label_reason(alloc, part, next),
        Form::Request => Ok(Reason::BadRequest),
        Form::TemplateLabel => match part {
            [b'~', ..] => Ok(Reason::BadPlaceholder),
            _ => label_reason(alloc, part, next),
        },
        Form::Modes | Form::MoreModes => Ok(Reason::BadModes),
    }
}

/// A word of a single byte that is none of the form, or that is one and goes on.
fn alone_reason(form: Form, part: &[u8], next: Option<u8>) -> Option<Reason> {
    match (form, part) {
        (Form::Bucket, b".") => Some(Reason::StandsAlone {
            word: ".",
            what: "the root bucket",
        }),
        (Form::Author, b"-") => Some(Reason::StandsAlone {
            word: "-",
            what: "no author",
        }),
        (Form::Field, b"#") if ends(next) => Some(Reason::HashAlone),
        (Form::Name | Form::Names, b"#") if ends(next) => Some(Reason::Wildcard("#")),
        (Form::Name | Form::Names, b"*") if ends(next) => Some(Reason::Wildcard("*")),
        _ => None,
    }
}

/// Whether a word ends before the byte that comes next, if one does.
fn ends(next: Option<u8>) -> bool {
    match next {
        Some(byte) => matches!(byte, b' ' | b'\t'),
        None => true,
    }
}

fn result_reason(alloc: Global, part: &[u8], next: Option<u8>) -> Result<Reason, AllocError> {
    if part.starts_with(b"bucket:") {
        return Ok(Reason::BadTarget);
    }
    match metadata_in(part) {
        Some(metadata) => text_reason(
            alloc,
            "the metadata of an agent",
            MOST_METADATA_BYTES as u32,
            metadata,
            next,
        ),
        None => Ok(Reason::BadResult),
    }
}

/// The metadata in `agent:KIND:METADATA`, as far as it is there.
fn metadata_in(part: &[u8]) -> Option<&[u8]> {
    let (_, behind) = cut_at(part, b':')?;
    let (_, metadata) = cut_at(behind, b':')?;
    Some(metadata)
}

fn label_reason(alloc: Global, part: &[u8], next: Option<u8>) -> Result<Reason, AllocError> {
    if matches!(part, b"@" | b"?") && ends(next) {
        return Ok(Reason::SpecialLabel);
    }
    text_reason(alloc, "a label", MOST_LABEL_BYTES as u32, part, next)
}

/// A text of bytes up to a limit, which cannot go on with this byte. Each that may stand in it may end it.
fn text_reason(
    alloc: Global,
    what: &'static str,
    most: u32,
    part: &[u8],
    next: Option<u8>,
) -> Result<Reason, AllocError> {
    if part.len() >= most as usize {
        return Ok(Reason::TooLong { what, most });
    }
    let byte = next.unwrap_or(b' ');
    match shown_bytes(alloc, &[byte], 4) {
        Ok(byte) => Ok(Reason::BadByte { byte, what }),
        Err(error) => Err(error),
    }
}
