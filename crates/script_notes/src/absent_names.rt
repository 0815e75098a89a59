// Names of a question that are not there: a label of no package, a user whom nobody added.
ghost use Rattle.std.specs.Prelude.{◌≡◌};

use crate::device_labels::is_of_device;
use crate::near_names::{PACKAGE_FRONT, near_label, package_in};
use crate::refusal_notes::with_guess;
use crate::shown::shown;
use app_registry::{Install, User};
use bucket_store::Bucket;
use cynara_keys::BorrowedQuestion;
use desk_ports::Sink;
use desk_state::Desk;
use itoa::Buffer;
use run_endings::note_text;
use smack_rules::Label;
use std::alloc::{AllocError, Global};

/// What stands between the package and the application in the label of an application of a hybrid package.
const APP_FRONT: &[u8] = b"::App::";

/// Tells which name of the question is not there, the client first. It says whether something was to be told. Where
/// nothing is installed and no user is there, names are free.
pub fn note_of_check<K: Sink>(
    alloc: Global,
    number: u32,
    question: &BorrowedQuestion<'_>,
    desk: &Desk,
    sink: &mut K,
) -> bool
    ensures taken { K.taken sink.new ≡ K.taken sink.old }
    ensures count { K.faults sink.new ≡ K.faults sink.old }
{
    if is_bare(desk) {
        return false;
    }
    let client = question.client();
    if !has_client(desk, client) {
        note_line(alloc, number, label_words(alloc, desk, client), sink);
        return true;
    }
    let user = question.user();
    if !has_user(desk, user) {
        note_line(alloc, number, user_words(alloc, user), sink);
        return true;
    }
    false
}

/// Tells that a label of the request is that of no package, the subject first. It says whether something was to be
/// told.
pub fn note_of_access<K: Sink>(
    alloc: Global,
    number: u32,
    subject: &Label,
    object: &Label,
    desk: &Desk,
    sink: &mut K,
) -> bool
    ensures taken { K.taken sink.new ≡ K.taken sink.old }
    ensures count { K.faults sink.new ≡ K.faults sink.old }
{
    if is_bare(desk) {
        return false;
    }
    if is_of_no_package(desk, subject.as_slice()) {
        note_line(
            alloc,
            number,
            label_words(alloc, desk, subject.as_slice()),
            sink,
        );
        return true;
    }
    if is_of_no_package(desk, object.as_slice()) {
        note_line(
            alloc,
            number,
            label_words(alloc, desk, object.as_slice()),
            sink,
        );
        return true;
    }
    false
}

fn note_line<K: Sink>(alloc: Global, number: u32, words: Result<String, AllocError>, sink: &mut K)
    ensures taken { K.taken sink.new ≡ K.taken sink.old }
    ensures count { K.faults sink.new ≡ K.faults sink.old }
{
    if let Ok(words) = words {
        note_text(format!(in alloc; "privilege: line {number}: {words}"), sink);
    }
}

fn label_words(alloc: Global, desk: &Desk, label: &[u8]) -> Result<String, AllocError> {
    let shown = shown(alloc, label)?;
    let words = format!(in alloc; "no package has the label {shown}")?;
    with_guess(alloc, words, near_label(alloc, desk, label)?)
}

fn user_words(alloc: Global, user: &[u8]) -> Result<String, AllocError> {
    let shown = shown(alloc, user)?;
    format!(in alloc; "no user {shown}; users are numbers, and are added by 'user'")
}

// Whether there are neither users nor installs.
fn is_bare(desk: &Desk) -> bool {
    desk.registry().users().is_empty() && desk.registry().installs().is_empty()
}

// Whether a package or an application has the label, or a policy names the client, or it is one of the device.
fn has_client(desk: &Desk, client: &[u8]) -> bool {
    desk.registry()
        .installs()
        .iter()
        .any(|install| has_label(install, client))
        || desk
            .database()
            .buckets()
            .iter()
            .any(|bucket| names_client(bucket, client))
        || is_of_device(desk, client)
}

fn names_client(bucket: &Bucket, client: &[u8]) -> bool {
    bucket
        .policies()
        .iter()
        .any(|policy| policy.key.client() == client)
}

// Whether a user has this number, or a policy names the user.
fn has_user(desk: &Desk, user: &[u8]) -> bool {
    desk.registry()
        .users()
        .iter()
        .any(|known| has_number(known, user))
        || desk
            .database()
            .buckets()
            .iter()
            .any(|bucket| names_user(bucket, user))
}

fn names_user(bucket: &Bucket, user: &[u8]) -> bool {
    bucket
        .policies()
        .iter()
        .any(|policy| policy.key.user() == user)
}

fn has_number(user: &User, number: &[u8]) -> bool {
    Buffer::new().format(user.uid).as_bytes() == number
}

// Whether the install runs with the label.
fn has_label(install: &Install, label: &[u8]) -> bool {
    let Some(behind) = label.strip_prefix(PACKAGE_FRONT) else {
        return false;
    };
    let Some(behind) = behind.strip_prefix(install.package.as_slice()) else {
        return false;
    };
    if !install.hybrid {
        return behind.is_empty();
    }
    match behind.strip_prefix(APP_FRONT) {
        Some(app) => app == install.app.as_slice(),
        None => false,
    }
}

// Whether the label is neither that of a package that is there nor one of the device.
fn is_of_no_package(desk: &Desk, label: &[u8]) -> bool {
    !is_of_package(desk, label) && !is_of_device(desk, label)
}

fn is_of_package(desk: &Desk, label: &[u8]) -> bool {
    if !label.starts_with(PACKAGE_FRONT) {
        return false;
    }
    let name = package_in(label);
    desk.registry()
        .installs()
        .iter()
        .any(|install| install.package.as_slice() == name)
}
