ghost use Rattle.std.specs.Prelude.{◌≡◌, None};
ghost use Rattle.cynara_keys.specs.Name.{name_fault};

use std::fmt;
use std::marker::Model;

/// What a check asks, by names that stand elsewhere, as in the line that asks. It is read without memory.
#[derive(Drop)]
pub struct BorrowedQuestion<'a> {
    client: &'a [u8],
    user: &'a [u8],
    privilege: &'a [u8],
}

impl<'a> Model for BorrowedQuestion<'a> {
    ghost use Rattle.cynara_keys.specs.Key.{Question};
    ghost use Rattle.cynara_keys.specs.parts.Named.{HasNames};

    ghost Value = { Question };

    ghost view = { λ question. record {
      client = question.client.now;
      user = question.user.now;
      privilege = question.privilege.now;
    } };

    ghost invariant = { λ question. HasNames (record {
      client = question.client.now;
      user = question.user.now;
      privilege = question.privilege.now;
    }) };
}

impl<'a> BorrowedQuestion<'a> {
    /// The question of these names.
    pub fn of(client: &'a [u8], user: &'a [u8], privilege: &'a [u8]) -> BorrowedQuestion<'a>
        requires client { name_fault client.now ≡ None }
        requires user { name_fault user.now ≡ None }
        requires privilege { name_fault privilege.now ≡ None }
        ensures { result ≡ record { client = client.now; user = user.now; privilege = privilege.now } }
    {
        BorrowedQuestion {
            client,
            user,
            privilege,
        }
    }

    /// The client's name.
    pub fn client(&self) -> &[u8]
        ensures bytes { result.now ≡ self.now.client }
        ensures name { name_fault self.now.client ≡ None }
    {
        self.client
    }

    /// The user's name.
    pub fn user(&self) -> &[u8]
        ensures bytes { result.now ≡ self.now.user }
        ensures name { name_fault self.now.user ≡ None }
    {
        self.user
    }

    /// The privilege's name.
    pub fn privilege(&self) -> &[u8]
        ensures bytes { result.now ≡ self.now.privilege }
        ensures name { name_fault self.now.privilege ≡ None }
    {
        self.privilege
    }
}

impl<'a> fmt::Debug for BorrowedQuestion<'a> {
    fn fmt<W: fmt::Write>(&self, f: &mut fmt::Formatter<W>) -> fmt::Result {
        f.debug_struct("BorrowedQuestion")
            .field("client", &self.client())
            .field("user", &self.user())
            .field("privilege", &self.privilege())
            .finish()
    }
}
