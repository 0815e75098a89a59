// The shapes of the keys that match a question: each field of such a key is the wildcard or the question's name. A
// bucket has at most one policy of each shape that matches.
ghost use Rattle.std.specs.Prelude.{◌≡◌, ◌<◌, ◌≤◌, length, if◌then◌else◌, IfOk, IfErr, MatchResult};
ghost use Rattle.std.specs.List.Sorted.{IsStrictlySortedBy};
ghost use Rattle.cynara_keys.specs.Field.{field_of, field_text};
ghost use Rattle.cynara_keys.specs.Text.{text_cmp};
ghost use Rattle.cynara_keys.specs.Key.{key_cmp};
ghost use Rattle.bucket_store.specs.Order.{policy_cmp};
ghost use Rattle.bucket_store.specs.parts.Search.{StandsAt, BelongsAt};
ghost use Rattle.bucket_eval.specs.parts.Shapes as shapes;
ghost use Rattle.bucket_eval.specs.parts.Shapes.{FitsAt};

use cynara_keys::{BorrowedQuestion, Key, Policy};
use std::cmp::Ordering;

/// How many shapes there are: each of three fields is the wildcard or a name.
pub const SHAPES: usize = 8;

/// Where the policy stands whose key has this shape and matches the question, found by halving.
pub fn place_of_shape(
    policies: &[Policy],
    question: &BorrowedQuestion<'_>,
    shape: usize,
) -> Option<usize>
    requires { IsStrictlySortedBy policy_cmp policies.now }
    ensures { FitsAt question.now shape policies.now result }
{
    match place_of_sought(policies, question, shape) {
        Ok(place) => {
            if fits(&policies[place], question, shape) {
                return Some(place);
            }
            None
        }
        Err(_) => None,
    }
}

// Where the key of this shape stands, from 0, or where one belongs.
fn place_of_sought(
    policies: &[Policy],
    question: &BorrowedQuestion<'_>,
    shape: usize,
) -> Result<usize, usize>
    requires { IsStrictlySortedBy policy_cmp policies.now }
    ensures found { IfOk result
        (StandsAt (λ policy. key_cmp policy.key (shapes.sought question.now shape)) policies.now) }
    ensures absent { IfErr result
        (BelongsAt (λ policy. key_cmp policy.key (shapes.sought question.now shape)) policies.now) }
    ensures in_range { MatchResult result
        (λ place. place < length policies.now) (λ place. place ≤ length policies.now) }
{
    policies.binary_search_by(|policy| compare(&policy.key, question, shape))
}

// How the key compares with the one that has the question's names, but the wildcard where the shape has it.
fn compare(key: &Key, question: &BorrowedQuestion<'_>, shape: usize) -> Ordering
    ensures { result ≡ key_cmp key.now (shapes.sought question.now shape) }
{
    let (user, privilege) = (question.user(), question.privilege());
    compare_field(key.client(), question.client(), shape >= 4)
        .then_with(|| compare_field(key.user(), user, shape % 4 >= 2))
        .then_with(|| compare_field(key.privilege(), privilege, shape % 2 == 1))
}

// How the text of a field compares with the wildcard, or with the name.
fn compare_field(field: &[u8], name: &[u8], wild: bool) -> Ordering
    ensures { result ≡ text_cmp field.now (field_text (shapes.sought_field wild name.now)) }
{
    if wild {
        return field.cmp(b"*".as_slice());
    }
    field.cmp(name)
}

// Whether the policy's key has this shape and matches the question.
fn fits(policy: &Policy, question: &BorrowedQuestion<'_>, shape: usize) -> bool
    ensures { result ≡ shapes.fits question.now shape policy.now }
{
    policy.key.matches_borrowed(question) && shape_of(&policy.key) == shape
}

/// The shape of the key.
pub fn shape_of(key: &Key) -> usize
    ensures shape { result ≡ shapes.shape_of key.now }
    ensures bound { result < 8 }
{
    weight(key.client(), 4) + (weight(key.user(), 2) + weight(key.privilege(), 1))
}

// This number where the text of a field is the wildcard, and else 0.
fn weight(field: &[u8], number: usize) -> usize
    ensures weight { result ≡ (if shapes.is_wild (field_of field.now) then number else 0) }
    ensures bound { result ≤ number }
{
    if field == b"*".as_slice() { number } else { 0 }
}
