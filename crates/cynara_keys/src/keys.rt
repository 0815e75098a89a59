ghost use Rattle.std.specs.Prelude.{◌≡◌, ◌<◌, ◌++◌, None, IfOk, OnOk, length};
ghost use Rattle.std.specs.Arc.{arc_slice_items};
ghost use Rattle.cynara_keys.specs.Field.{field_text, field_of, field_fault};
ghost use Rattle.cynara_keys.specs.Key.{key_matches, filter_admits, counted_text, packed_texts, packed};
ghost use Rattle.cynara_keys.specs.Key.{key_cmp, same_key};
ghost use Rattle.std.proofs.Common.{rules};
ghost use Rattle.std.specs.Ordering.{as_partial_cmp};
ghost use Rattle.std.specs.Cmp.{partial_order_from_own_ties, both_tied};
ghost use Rattle.std.specs.Cmp.Rules.{comparing};

use crate::fields::field_matches;
use crate::{BorrowedQuestion, Field, FilterField, PolicyResult, Question};
use std::alloc::{AllocError, Global};
use std::cmp::Ordering;
use std::fmt;
use std::marker::Model;
use std::sync::ArcSlice;

/// What a policy is kept under: a client, a user and a privilege, each a name or the wildcard. Keys are ordered by the
/// texts of client, user and privilege in turn. The three texts stand in one block of memory, which copies share.
#[derive(Drop)]
pub struct Key {
    // The texts in turn, each behind its count in two bytes, as frames spell them.
    texts: ArcSlice<u8>,
    // Where the user's text begins, and where the privilege's does.
    user: u16,
    privilege: u16,
}

impl Model for Key {
    ghost use Rattle.std.specs.Arc.{arc_slice_items};
    ghost use Rattle.cynara_keys.specs.Key.{Key};
    ghost use Rattle.cynara_keys.specs.parts.Packed.{IsPacked, key_in};

    ghost Value = { Key };

    ghost view = { λ key. key_in (arc_slice_items key.texts) key.user key.privilege };

    ghost invariant = { λ key. IsPacked (arc_slice_items key.texts) key.user key.privilege };
}

/// Which keys a listing or an erasing of policies concerns.
#[derive(Debug, Drop, PartialEq, Eq)]
pub struct Filter {
    pub client: FilterField,
    pub user: FilterField,
    pub privilege: FilterField,
}

/// A policy: the result that stands under a key.
#[derive(Debug, Drop, PartialEq, Eq)]
pub struct Policy {
    pub key: Key,
    pub result: PolicyResult,
}

impl Key {
    /// The key of these texts, each `*` or a name. Their bytes are copied.
    pub fn of(
        alloc: Global,
        client: &[u8],
        user: &[u8],
        privilege: &[u8],
    ) -> Result<Key, AllocError>
        requires client { field_fault client.now ≡ None }
        requires user { field_fault user.now ≡ None }
        requires privilege { field_fault privilege.now ≡ None }
        ensures { IfOk result (λ key. key ≡
            record { client = field_of client.now; user = field_of user.now; privilege = field_of privilege.now }) }
    {
        let count = client.len() + user.len() + privilege.len() + 6;
        let mut texts = Vec::with_capacity(alloc, count)?;
        push_counted(&mut texts, client)?;
        push_counted(&mut texts, user)?;
        push_counted(&mut texts, privilege)?;
        let texts = ArcSlice::from_vec(texts)?;
        Ok(Key::of_block(texts, client, user, privilege))
    }

    /// The key of these texts, each `*` or a name, which stand in the packed bytes, each behind its count in two bytes,
    /// the higher first. The packed bytes are copied at once.
    pub fn of_packed(
        alloc: Global,
        packed: &[u8],
        client: &[u8],
        user: &[u8],
        privilege: &[u8],
    ) -> Result<Key, AllocError>
        requires packed { packed.now ≡ packed_texts client.now user.now privilege.now }
        requires client { field_fault client.now ≡ None }
        requires user { field_fault user.now ≡ None }
        requires privilege { field_fault privilege.now ≡ None }
        ensures { IfOk result (λ key. key ≡
            record { client = field_of client.now; user = field_of user.now; privilege = field_of privilege.now }) }
    {
        let texts = ArcSlice::from_slice(alloc, packed)?;
        Ok(Key::of_block(texts, client, user, privilege))
    }

    /// The key of these fields, whose texts are copied.
    pub fn of_fields(
        alloc: Global,
        client: &Field,
        user: &Field,
        privilege: &Field,
    ) -> Result<Key, AllocError>
        ensures { IfOk result (λ key. key ≡
            record { client = client.now; user = user.now; privilege = privilege.now }) }
    {
        Key::of(
            alloc,
            client.as_slice(),
            user.as_slice(),
            privilege.as_slice(),
        )
    }

    // The key of the texts that are packed in a block.
    fn of_block(texts: ArcSlice<u8>, client: &[u8], user: &[u8], privilege: &[u8]) -> Key
        requires packed { arc_slice_items texts ≡ packed_texts client.now user.now privilege.now }
        requires client { field_fault client.now ≡ None }
        requires user { field_fault user.now ≡ None }
        requires privilege { field_fault privilege.now ≡ None }
        ensures { result ≡
            record { client = field_of client.now; user = field_of user.now; privilege = field_of privilege.now } }
    {
        let at_user = client.len() + 4;
        let at_privilege = at_user + user.len() + 2;
        Key {
            texts,
            user: at_user as u16,
            privilege: at_privilege as u16,
        }
    }

    /// The client's text, `*` for the wildcard.
    pub fn client(&self) -> &[u8]
        ensures text { result.now ≡ field_text self.now.client }
        ensures reads_back { field_of result.now ≡ self.now.client }
        ensures accepted { field_fault result.now ≡ None }
    {
        &self.texts.as_slice()[2..usize::from(self.user) - 2]
    }

    /// The user's text, `*` for the wildcard.
    pub fn user(&self) -> &[u8]
        ensures text { result.now ≡ field_text self.now.user }
        ensures reads_back { field_of result.now ≡ self.now.user }
        ensures accepted { field_fault result.now ≡ None }
    {
        &self.texts.as_slice()[usize::from(self.user)..usize::from(self.privilege) - 2]
    }

    /// The privilege's text, `*` for the wildcard.
    pub fn privilege(&self) -> &[u8]
        ensures text { result.now ≡ field_text self.now.privilege }
        ensures reads_back { field_of result.now ≡ self.now.privilege }
        ensures accepted { field_fault result.now ≡ None }
    {
        &self.texts.as_slice()[usize::from(self.privilege)..]
    }

    /// The texts of client, user and privilege in turn, each behind its count in two bytes, the higher first.
    pub fn packed(&self) -> &[u8]
        ensures { result.now ≡ packed self.now }
    {
        self.texts.as_slice()
    }

    /// Whether the policy under this key speaks of the question: each field is the wildcard or the question's name.
    pub fn matches(&self, question: &Question) -> bool
        ensures { result ≡ key_matches self.now question.now }
    {
        self.matches_borrowed(&question.borrowed())
    }

    /// The same of a question whose names stand elsewhere.
    pub fn matches_borrowed(&self, question: &BorrowedQuestion<'_>) -> bool
        ensures { result ≡ key_matches self.now question.now }
    {
        field_matches(self.client(), question.client())
            && field_matches(self.user(), question.user())
            && field_matches(self.privilege(), question.privilege())
    }

    /// An equal key, which shares the texts' bytes. Refused only as `Name::copy` is.
    pub fn copy(&self) -> Result<Key, AllocError>
        ensures { IfOk result (λ copy. copy ≡ self.now) }
    {
        Ok(Key {
            texts: self.texts.clone()?,
            user: self.user,
            privilege: self.privilege,
        })
    }
}

// Puts a text, of fewer bytes than two bytes can count, behind the others, and its count before it.
fn push_counted(texts: &mut Vec<u8>, text: &[u8]) -> Result<(), AllocError>
    requires { length text.now < 65536 }
    ensures { OnOk result (texts.new.items ≡ texts.old.items ++ counted_text text.now) }
{
    texts.extend_from_slice(&(text.len() as u16).to_be_bytes())?;
    texts.extend_from_slice(text)?;
    Ok(())
}

impl PartialEq for Key {
    ghost eq = { same_key };

    ghost laws = { Prim.search (comparing, rules) };

    fn eq(&self, other: &Key) -> bool {
        self.client() == other.client()
            && self.user() == other.user()
            && self.privilege() == other.privilege()
    }
}

impl Eq for Key {
    ghost laws = { Prim.search (comparing, rules) };
}

impl PartialOrd for Key {
    ghost partial_cmp = { as_partial_cmp key_cmp };

    ghost laws = { partial_order_from_own_ties (Prim.search (comparing, rules))
        (Prim.search (both_tied, comparing, rules)) };

    fn partial_cmp(&self, other: &Key) -> Option<Ordering> {
        Some(self.cmp(other))
    }
}

impl Ord for Key {
    ghost cmp = { key_cmp };

    ghost total = { Prim.search (comparing, rules) };

    ghost matches_partial_cmp = { Prim.search (comparing, rules) };

    ghost matches_eq = { Prim.search (both_tied, comparing, rules) };

    fn cmp(&self, other: &Key) -> Ordering {
        self.client()
            .cmp(other.client())
            .then_with(|| self.user().cmp(other.user()))
            .then_with(|| self.privilege().cmp(other.privilege()))
    }
}

impl fmt::Debug for Key {
    fn fmt<W: fmt::Write>(&self, f: &mut fmt::Formatter<W>) -> fmt::Result {
        f.debug_struct("Key")
            .field("client", &self.client())
            .field("user", &self.user())
            .field("privilege", &self.privilege())
            .finish()
    }
}

impl Filter {
    /// Whether the filter takes the key: each field is `#`, or both are `*`, or both are the same name.
    pub fn admits(&self, key: &Key) -> bool
        ensures { result ≡ filter_admits self.now key.now }
    {
        self.client.admits(key.client())
            && self.user.admits(key.user())
            && self.privilege.admits(key.privilege())
    }

    /// An equal filter, which shares the names' bytes. Refused only as `Name::copy` is.
    pub fn copy(&self) -> Result<Filter, AllocError>
        ensures { IfOk result (λ copy. copy ≡ self.now) }
    {
        Ok(Filter {
            client: self.client.copy()?,
            user: self.user.copy()?,
            privilege: self.privilege.copy()?,
        })
    }
}

impl Policy {
    /// An equal policy, which shares the bytes of names and metadata. Refused only as `Name::copy` is.
    pub fn copy(&self) -> Result<Policy, AllocError>
        ensures { IfOk result (λ copy. copy ≡ self.now) }
    {
        Ok(Policy {
            key: self.key.copy()?,
            result: self.result.copy()?,
        })
    }
}
