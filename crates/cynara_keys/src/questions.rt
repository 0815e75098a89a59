ghost use Rattle.std.specs.Prelude.{◌≡◌, None, IfOk, take, drop};
ghost use Rattle.std.proofs.Common.{rules};
ghost use Rattle.std.specs.Cmp.Rules.{comparing};
ghost use Rattle.cynara_keys.specs.Key.{same_question};
ghost use Rattle.cynara_keys.specs.Name.{name_fault};

use crate::BorrowedQuestion;
use std::alloc::{AllocError, Global};
use std::fmt;
use std::marker::Model;

/// What a check asks: whether this client may use this privilege for this user. The three names stand in one block of
/// memory, one behind the other.
#[derive(Drop)]
pub struct Question {
    names: Vec<u8>,
    // Where the user's name begins, and where the privilege's does.
    user: u16,
    privilege: u16,
}

impl Model for Question {
    ghost use Rattle.cynara_keys.specs.Key.{Question};
    ghost use Rattle.cynara_keys.specs.parts.Named.{IsNamed, named};

    ghost Value = { Question };

    ghost view = { λ question. named question.names.items question.user question.privilege };

    ghost invariant = { λ question. IsNamed question.names.items question.user question.privilege };
}

impl Question {
    /// The question of these names, whose bytes are copied.
    pub fn of(
        alloc: Global,
        client: &[u8],
        user: &[u8],
        privilege: &[u8],
    ) -> Result<Question, AllocError>
        requires client { name_fault client.now ≡ None }
        requires user { name_fault user.now ≡ None }
        requires privilege { name_fault privilege.now ≡ None }
        ensures { IfOk result (λ question. question ≡
            record { client = client.now; user = user.now; privilege = privilege.now }) }
    {
        let mut names = Vec::with_capacity(alloc, client.len() + user.len() + privilege.len())?;
        names.extend_from_slice(client)?;
        names.extend_from_slice(user)?;
        names.extend_from_slice(privilege)?;
        Ok(Question {
            names,
            user: client.len() as u16,
            privilege: (client.len() + user.len()) as u16,
        })
    }

    /// The client's name.
    pub fn client(&self) -> &[u8]
        ensures bytes { result.now ≡ self.now.client }
        ensures name { name_fault self.now.client ≡ None }
    {
        &self.names[..usize::from(self.user)]
    }

    /// The user's name.
    pub fn user(&self) -> &[u8]
        ensures bytes { result.now ≡ self.now.user }
        ensures name { name_fault self.now.user ≡ None }
    {
        &self.names[usize::from(self.user)..usize::from(self.privilege)]
    }

    /// The privilege's name.
    pub fn privilege(&self) -> &[u8]
        ensures bytes { result.now ≡ self.now.privilege }
        ensures name { name_fault self.now.privilege ≡ None }
    {
        &self.names[usize::from(self.privilege)..]
    }

    /// The question, by the names that stand here.
    pub fn borrowed(&self) -> BorrowedQuestion<'_>
        ensures { result ≡ self.now }
    {
        BorrowedQuestion::of(self.client(), self.user(), self.privilege())
    }

    /// An equal question, with a block of its own.
    pub fn copy(&self) -> Result<Question, AllocError>
        ensures { IfOk result (λ copy. copy ≡ self.now) }
    {
        Ok(Question {
            names: Vec::from_slice(*self.names.allocator(), &self.names)?,
            user: self.user,
            privilege: self.privilege,
        })
    }
}

impl PartialEq for Question {
    ghost eq = { same_question };

    ghost laws = { Prim.search (comparing, rules) };

    fn eq(&self, other: &Question) -> bool {
        self.client() == other.client()
            && self.user() == other.user()
            && self.privilege() == other.privilege()
    }
}

impl Eq for Question {
    ghost laws = { Prim.search (comparing, rules) };
}

impl fmt::Debug for Question {
    fn fmt<W: fmt::Write>(&self, f: &mut fmt::Formatter<W>) -> fmt::Result {
        f.debug_struct("Question")
            .field("client", &self.client())
            .field("user", &self.user())
            .field("privilege", &self.privilege())
            .finish()
    }
}
