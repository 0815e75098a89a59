// The numbers of names, and the marks of keys: the numbers of a key's three texts as one number.
ghost use Rattle.std.specs.Prelude.{◌≡◌, ◌<◌, ℕ, length, slice_get, IfOk, IfSome, Some};
ghost use Rattle.cynara_keys.specs.Field.{wildcard};
ghost use Rattle.bucket_eval.specs.parts.Numbers.{KeepsNumbers, join, joined, mark_of, number_of};
ghost use Rattle.bucket_eval.specs.parts.Marks.{AreNumbers, AreSmall, all_of, sought_mark};

use crate::names::Names;
use cynara_keys::{BorrowedQuestion, Key};
use std::alloc::{AllocError, Global};

/// The numbers of the wildcard and of the names of a question.
#[derive(Clone, Copy)]
pub struct Numbers {
    pub wildcard: Option<u64>,
    pub client: Option<u64>,
    pub user: Option<u64>,
    pub privilege: Option<u64>,
}

/// The numbers of the question among the names, where that of the wildcard is known.
#[inline(always)]
pub fn numbers_of(names: &Names, star: Option<u64>, question: &BorrowedQuestion<'_>) -> Numbers
    requires star { star ≡ number_of names.now wildcard }
    requires small { IfSome star (λ number. number < 262144) }
    ensures are { AreNumbers names.now question.now result }
    ensures small { AreSmall result }
{
    Numbers {
        wildcard: star,
        client: names.number(question.client()),
        user: names.number(question.user()),
        privilege: names.number(question.privilege()),
    }
}

// Three numbers as one.
#[inline(always)]
fn join(client: Option<u64>, user: Option<u64>, privilege: Option<u64>) -> Option<u64>
    requires client { IfSome client (λ number. number < 262144) }
    requires user { IfSome user (λ number. number < 262144) }
    requires privilege { IfSome privilege (λ number. number < 262144) }
    ensures { result ≡ join client user privilege }
{
    let Some(client) = client else {
        return None;
    };
    let Some(user) = user else {
        return None;
    };
    let Some(privilege) = privilege else {
        return None;
    };
    Some(joined(client, user, privilege))
}

/// The mark of a key, whose texts are given numbers, where these have 18 bits.
pub fn mark_of(alloc: Global, names: &mut Names, key: &Key) -> Result<Option<u64>, AllocError>
    ensures is { IfOk result (λ mark. IfSome mark (λ one. mark_of names.new key.now ≡ Some one)) }
    ensures kept { IfOk result (λ mark. KeepsNumbers names.old names.new) }
{
    let client = names.add(alloc, key.client())?;
    let user = names.add(alloc, key.user())?;
    let privilege = names.add(alloc, key.privilege())?;
    let mark = join(client, user, privilege);
    Ok(mark)
}

// The mark of the key of this shape that matches the question.
#[inline(always)]
fn sought_mark(numbers: &Numbers, shape: usize) -> Option<u64>
    requires { AreSmall numbers.now }
    ensures { result ≡ sought_mark numbers.now shape }
{
    join(
        if shape >= 4 {
            numbers.wildcard
        } else {
            numbers.client
        },
        if shape % 4 >= 2 {
            numbers.wildcard
        } else {
            numbers.user
        },
        if shape % 2 == 1 {
            numbers.wildcard
        } else {
            numbers.privilege
        },
    )
}

/// For each shape the mark of the key that matches the question.
#[inline(always)]
pub fn marks_of(numbers: &Numbers) -> [Option<u64>; 8]
    requires { AreSmall numbers.now }
    ensures count { length result ≡ 8 }
    ensures each { (shape : ℕ) → shape < 8 → slice_get result shape ≡ Some (sought_mark numbers.now shape) }
{
    let Some(wildcard) = numbers.wildcard else {
        return marks_of_some(numbers);
    };
    let Some(client) = numbers.client else {
        return marks_of_some(numbers);
    };
    let Some(user) = numbers.user else {
        return marks_of_some(numbers);
    };
    let Some(privilege) = numbers.privilege else {
        return marks_of_some(numbers);
    };
    marks_of_all(wildcard, client, user, privilege)
}

// The same where each text has a number.
#[inline(always)]
fn marks_of_all(wildcard: u64, client: u64, user: u64, privilege: u64) -> [Option<u64>; 8]
    requires wildcard { wildcard < 262144 }
    requires client { client < 262144 }
    requires user { user < 262144 }
    requires privilege { privilege < 262144 }
    ensures count { length result ≡ 8 }
    ensures each { (shape : ℕ) → shape < 8
        → slice_get result shape ≡ Some (sought_mark (all_of wildcard client user privilege) shape) }
{
    [
        Some(joined(client, user, privilege)),
        Some(joined(client, user, wildcard)),
        Some(joined(client, wildcard, privilege)),
        Some(joined(client, wildcard, wildcard)),
        Some(joined(wildcard, user, privilege)),
        Some(joined(wildcard, user, wildcard)),
        Some(joined(wildcard, wildcard, privilege)),
        Some(joined(wildcard, wildcard, wildcard)),
    ]
}

#[inline(always)]
fn joined(client: u64, user: u64, privilege: u64) -> u64
    requires client { client < 262144 }
    requires user { user < 262144 }
    requires privilege { privilege < 262144 }
    ensures { result ≡ joined client user privilege }
{
    client * 68_719_476_736 + (user * 262_144 + privilege)
}

// The same where some text may have none.
fn marks_of_some(numbers: &Numbers) -> [Option<u64>; 8]
    requires { AreSmall numbers.now }
    ensures count { length result ≡ 8 }
    ensures each { (shape : ℕ) → shape < 8 → slice_get result shape ≡ Some (sought_mark numbers.now shape) }
{
    [
        sought_mark(numbers, 0),
        sought_mark(numbers, 1),
        sought_mark(numbers, 2),
        sought_mark(numbers, 3),
        sought_mark(numbers, 4),
        sought_mark(numbers, 5),
        sought_mark(numbers, 6),
        sought_mark(numbers, 7),
    ]
}
