//! The access decision.

ghost use Rattle.std.specs.Prelude.{◌≡◌, Bool, [], ◌∷◌, IsTrue};
ghost use Rattle.std.specs.Str.{bytes_eq};
ghost use Rattle.smack_rules.specs.Modes.{is_request};
ghost use Rattle.smack_rules.specs.Decision.{is_reading, with_lock, decision};

use crate::label::Label;
use crate::modes::Modes;

const READ_AND_EXECUTE: Modes = Modes {
    read: true,
    execute: true,
    ..Modes::NO_ACCESS
};

const LOCK_ALONE: Modes = Modes {
    lock: true,
    ..Modes::NO_ACCESS
};

/// Whether a request is allowed, and the number from 1 to 7 of the case that decided.
#[derive(Clone, Copy, Debug, PartialEq, Eq)]
pub struct Decision {
    pub allowed: bool,
    pub rule: u8,
}

/// Decides a request of a subject on an object: takes what is asked, which has a mode and no `b`, and what the rules
/// grant the pair. Gives whether it is allowed, and the case that decided, numbered in the order of the kernel's Smack
/// document.
pub fn decide(subject: &Label, object: &Label, asked: Modes, granted: Modes) -> Decision
    requires { IsTrue (is_request asked) }
    ensures decided { result ≡ decision subject.now object.now asked granted }
    // A `b` in what is granted never changes a decision.
    ensures bring_up { (tried : Bool)
        → result ≡ decision subject.now object.now asked (record granted { bring_up = tried }) }
{
    first_case(subject, object, asked, granted)
}

/// The first of the seven cases that holds.
#[tactic(auto, unfolding(crate::specs::Decision::decision))]
fn first_case(subject: &Label, object: &Label, asked: Modes, granted: Modes) -> Decision
    ensures { result ≡ decision subject.now object.now asked granted }
{
    let subject = subject.as_slice();
    let object = object.as_slice();
    let (allowed, rule) = if is_mark(subject, b'*') {
        (false, 1)
    } else if is_mark(subject, b'^') && is_reading(asked) {
        (true, 2)
    } else if is_mark(object, b'_') && is_reading(asked) {
        (true, 3)
    } else if is_mark(object, b'*') {
        (true, 4)
    } else if subject == object {
        (true, 5)
    } else if asked.is_within(with_lock(granted)) {
        (true, 6)
    } else {
        (false, 7)
    };
    Decision { allowed, rule }
}

/// Whether a label is one byte, a mark with a meaning of its own.
fn is_mark(label: &[u8], mark: u8) -> bool
    ensures { result ≡ bytes_eq label.now (mark ∷ []) }
{
    label == [mark].as_slice()
}

/// Whether what is asked is within `rx`, or is `l` alone.
fn is_reading(asked: Modes) -> bool
    ensures { result ≡ is_reading asked }
{
    asked.is_within(READ_AND_EXECUTE) || asked.is_within(LOCK_ALONE)
}

/// What a rule grants: its modes, and with `w` also `l`.
fn with_lock(modes: Modes) -> Modes
    ensures { result ≡ with_lock modes }
{
    Modes {
        lock: modes.lock || modes.write,
        ..modes
    }
}
