//! The file `users`: a line for each user.

ghost use Rattle.std.specs.Prelude.{◌≡◌, ◌++◌, ◌∷◌, [], ◌<◌, ◌≤◌, length, Ok, IsSome, IsTrue, IfOk, OnOk, MatchResult};
ghost use Rattle.std.specs.List.{AllByRecursion};
ghost use Rattle.set_text.specs.Numbers as numbers;
ghost use Rattle.app_registry.specs.Registry.{user_cmp};
ghost use Rattle.app_registry.specs.Rules.{IsRegistry};
ghost use Rattle.app_registry.specs.Limits.{most_users};
ghost use Rattle.set_text.specs.Lines.{rises_above};
ghost use Rattle.set_text.specs.Registry as word;
ghost use Rattle.set_text.specs.parts.Reads.{RefusesFile};

use crate::lines::{FileFault, cut_field};
use crate::numbers::decimal_of;
use app_registry::{USER_LIMIT, User, UserType};
use itoa::Buffer;
use std::alloc::{AllocError, Global};
use text_lines::split_at_newline;

/// The text of `users`.
pub fn users_text(alloc: Global, users: &[User]) -> Result<Vec<u8>, AllocError>
    ensures text { IfOk result (λ text. text.items ≡ word.users_text users.now) }
    ensures spelt { OnOk result (AllByRecursion (λ user. user.uid ≤ word.last_uid) users.now) }
{
    let mut text = Vec::new(alloc);
    for user in users {
        append_user(user, &mut text)?;
    }
    Ok(text)
}

fn append_user(user: &User, text: &mut Vec<u8>) -> Result<(), AllocError>
    ensures text { OnOk result (text.new.items ≡ text.old.items ++ (word.user_line user.now ++ 10 ∷ [])) }
    ensures spelt { OnOk result (user.now.uid ≤ word.last_uid) }
{
    text.extend_from_slice(Buffer::new().format(user.uid).as_bytes())?;
    text.push(b';')?;
    text.extend_from_slice(type_word(user.kind))?;
    text.push(b'\n')?;
    Ok(())
}

// The word for a type of users.
fn type_word(kind: UserType) -> &'static [u8]
    ensures { result.now ≡ word.type_word kind }
{
    match kind {
        UserType::System => b"system",
        UserType::Admin => b"admin",
        UserType::Normal => b"normal",
        UserType::Guest => b"guest",
    }
}

/// Reads `users`. Its first wrong line is named.
pub fn read_users(alloc: Global, text: &[u8]) -> Result<Vec<User>, FileFault>
    ensures read { MatchResult result (λ users. word.users_of text.now ≡ Ok users.items)
        (λ fault. RefusesFile fault (word.users_of text.now)) }
    ensures kept { IfOk result (λ users. IsRegistry users.items []) }
{
    let mut users = Vec::new(alloc);
    let mut rest = text;
    let mut number = 1u32;
    while !rest.is_empty() {
        let Some((line, after)) = split_at_newline(rest) else {
            return Err(FileFault::Line(number));
        };
        let Some(user) = read_user(&users, line) else {
            return Err(FileFault::Line(number));
        };
        if let Err(error) = users.push(user) {
            return Err(FileFault::Memory(error.into()));
        }
        number += 1;
        rest = after;
    }
    Ok(users)
}

// Reads a line of `users`, behind these.
fn read_user(before: &[User], line: &[u8]) -> Option<User>
    ensures read { result ≡ word.read_user before.now line.now }
    ensures room { IsSome result → length before.now < most_users }
{
    let Some(user) = user_of(line) else {
        return None;
    };
    if user_fits(before, user) {
        Some(user)
    } else {
        None
    }
}

// The user in a line.
fn user_of(line: &[u8]) -> Option<User>
    ensures { result ≡ word.user_of line.now }
{
    let Some((uid, kind)) = cut_field(line) else {
        return None;
    };
    if let Some(_) = cut_field(kind) {
        return None;
    }
    let Some(uid) = uid_of(uid) else {
        return None;
    };
    let Some(kind) = type_of(kind) else {
        return None;
    };
    Some(User { uid, kind })
}

/// The number of a user that a text spells.
pub fn uid_of(text: &[u8]) -> Option<u32>
    ensures { result ≡ numbers.decimal_of word.last_uid text.now }
{
    match decimal_of(text, u64::from(u32::MAX)) {
        Some(uid) => Some(uid as u32),
        None => None,
    }
}

// The type of users that a word stands for.
fn type_of(text: &[u8]) -> Option<UserType>
    ensures { result ≡ word.type_of text.now }
{
    if b"system".as_slice() == text {
        return Some(UserType::System);
    }
    if b"admin".as_slice() == text {
        return Some(UserType::Admin);
    }
    if b"normal".as_slice() == text {
        return Some(UserType::Normal);
    }
    if b"guest".as_slice() == text {
        return Some(UserType::Guest);
    }
    None
}

// Whether a user may stand behind these.
fn user_fits(before: &[User], user: User) -> bool
    ensures fits { result ≡ word.user_fits before.now user }
    ensures room { IsTrue result → length before.now < most_users }
{
    rises(before, user) && before.len() < USER_LIMIT
}

fn rises(before: &[User], user: User) -> bool
    ensures { result ≡ rises_above user_cmp before.now user }
{
    match before.last() {
        Some(last) => last.uid.cmp(&user.uid).is_lt(),
        None => true,
    }
}
