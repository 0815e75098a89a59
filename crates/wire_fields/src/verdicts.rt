ghost use Rattle.std.specs.Prelude.{◌≡◌, ◌≤◌, IfOk, length};
ghost use Rattle.cynara_keys.specs.Limits.{most_short_bytes};

use crate::five_texts::FiveTexts;
use bucket_eval::{Answer, Cause, Row, Verdict};
use cynara_keys::{Kind, Short};
use std::alloc::{AllocError, Global};
use std::fmt;
use std::marker::Model;

/// The texts of a policy's key, which stand elsewhere, as in a frame.
#[derive(Drop)]
pub struct BorrowedRow<'a> {
    client: &'a [u8],
    user: &'a [u8],
    privilege: &'a [u8],
}

impl<'a> Model for BorrowedRow<'a> {
    ghost use Rattle.bucket_eval.specs.declared.answers.Row.{Row};
    ghost use Rattle.wire_fields.specs.Packed.{IsShortRow};

    ghost Value = { Row };

    ghost view = { λ row. record { client = row.client.now; user = row.user.now; privilege = row.privilege.now } };

    ghost invariant = { λ row. IsShortRow (record {
      client = row.client.now;
      user = row.user.now;
      privilege = row.privilege.now;
    }) };
}

/// A kind and the metadata of a result, which stands elsewhere, as in a frame.
#[derive(Drop)]
pub struct BorrowedRuling<'a> {
    kind: Kind,
    metadata: &'a [u8],
}

impl<'a> Model for BorrowedRuling<'a> {
    ghost use Rattle.std.specs.Prelude.{◌≤◌, length};
    ghost use Rattle.cynara_keys.specs.PolicyResult.{Ruling};
    ghost use Rattle.cynara_keys.specs.Limits.{most_short_bytes};

    ghost Value = { Ruling };

    ghost view = { λ ruling. record { kind = ruling.kind.0; metadata = ruling.metadata.now } };

    ghost invariant = { λ ruling. length ruling.metadata.now ≤ most_short_bytes };
}

/// A verdict whose texts stand in one block of memory: the metadata, the bucket's name and those of the row. It takes
/// no more room than they do; the fixed places of a `Verdict` are 1,300 bytes.
#[derive(Drop)]
pub struct PackedVerdict {
    commit: u64,
    kind: Kind,
    has_row: bool,
    texts: FiveTexts,
}

impl Model for PackedVerdict {
    ghost use Rattle.bucket_eval.specs.declared.answers.Verdict.{Verdict};
    ghost use Rattle.wire_fields.specs.Packed.{verdict, AreShort};

    ghost Value = { Verdict };

    ghost view = { λ packed. verdict packed.commit packed.kind packed.has_row packed.texts };

    ghost invariant = { λ packed. AreShort packed.texts };
}

impl<'a> BorrowedRow<'a> {
    /// The row of these texts.
    pub fn of(client: &'a [u8], user: &'a [u8], privilege: &'a [u8]) -> BorrowedRow<'a>
        requires client { length client.now ≤ most_short_bytes }
        requires user { length user.now ≤ most_short_bytes }
        requires privilege { length privilege.now ≤ most_short_bytes }
        ensures { result ≡ record { client = client.now; user = user.now; privilege = privilege.now } }
    {
        BorrowedRow {
            client,
            user,
            privilege,
        }
    }

    /// The text of the client.
    pub fn client(&self) -> &'a [u8]
        ensures bytes { result.now ≡ self.now.client }
        ensures short { length self.now.client ≤ most_short_bytes }
    {
        self.client
    }

    /// The text of the user.
    pub fn user(&self) -> &'a [u8]
        ensures bytes { result.now ≡ self.now.user }
        ensures short { length self.now.user ≤ most_short_bytes }
    {
        self.user
    }

    /// The text of the privilege.
    pub fn privilege(&self) -> &'a [u8]
        ensures bytes { result.now ≡ self.now.privilege }
        ensures short { length self.now.privilege ≤ most_short_bytes }
    {
        self.privilege
    }
}

impl<'a> BorrowedRuling<'a> {
    /// The ruling of this kind and this metadata.
    pub fn of(kind: Kind, metadata: &'a [u8]) -> BorrowedRuling<'a>
        requires { length metadata.now ≤ most_short_bytes }
        ensures { result ≡ record { kind = kind.0; metadata = metadata.now } }
    {
        BorrowedRuling { kind, metadata }
    }
}

impl PackedVerdict {
    /// The verdict of these texts, which are copied. Takes memory once at most.
    pub fn of(
        alloc: Global,
        commit: u64,
        ruling: &BorrowedRuling<'_>,
        bucket: &[u8],
        row: Option<BorrowedRow<'_>>,
    ) -> Result<PackedVerdict, AllocError>
        requires { length bucket.now ≤ most_short_bytes }
        ensures { IfOk result (λ packed. packed ≡ record {
          commit = commit;
          answer = record {
            kind = record { 0 = ruling.now.kind };
            metadata = ruling.now.metadata;
            cause = record { bucket = bucket.now; row = row.entry };
          };
        }) }
    {
        let (client, user, privilege): (&[u8], &[u8], &[u8]) = match &row {
            Some(row) => (row.client, row.user, row.privilege),
            None => (b"", b"", b""),
        };
        let texts = FiveTexts::of(alloc, ruling.metadata, bucket, client, user, privilege)?;
        Ok(PackedVerdict {
            commit,
            kind: ruling.kind,
            has_row: row.is_some(),
            texts,
        })
    }

    /// A verdict that is told, as it is to be sent. Takes memory once at most.
    pub fn pack(alloc: Global, verdict: &Verdict) -> Result<PackedVerdict, AllocError>
        ensures { IfOk result (λ packed. packed ≡ verdict.now) }
    {
        let answer = &verdict.answer;
        let ruling = BorrowedRuling::of(answer.kind, answer.metadata.as_slice());
        let row = lent_row(&answer.cause.row);
        let bucket = answer.cause.bucket.as_slice();
        PackedVerdict::of(alloc, verdict.commit, &ruling, bucket, row)
    }

    /// The verdict by value, as a client keeps it.
    pub fn verdict(&self) -> Verdict
        ensures { result ≡ self.now }
    {
        let row = match self.row() {
            Some(row) => Some(Row {
                client: Short::of(row.client),
                user: Short::of(row.user),
                privilege: Short::of(row.privilege),
            }),
            None => None,
        };
        Verdict {
            commit: self.commit,
            answer: Answer {
                kind: self.kind,
                metadata: Short::of(self.metadata()),
                cause: Cause {
                    bucket: Short::of(self.bucket()),
                    row,
                },
            },
        }
    }

    /// The commit of the policies that the verdict was given under.
    pub fn commit(&self) -> u64
        ensures { result ≡ self.now.commit }
    {
        self.commit
    }

    /// The kind of the result.
    pub fn kind(&self) -> Kind
        ensures { result ≡ self.now.answer.kind }
    {
        self.kind
    }

    /// The metadata of the result.
    pub fn metadata(&self) -> &[u8]
        ensures bytes { result.now ≡ self.now.answer.metadata }
        ensures short { length self.now.answer.metadata ≤ most_short_bytes }
    {
        self.texts.first()
    }

    /// The name of the bucket that holds the answer.
    pub fn bucket(&self) -> &[u8]
        ensures bytes { result.now ≡ self.now.answer.cause.bucket }
        ensures short { length self.now.answer.cause.bucket ≤ most_short_bytes }
    {
        self.texts.second()
    }

    /// The key of the policy, or none for the bucket's fallback.
    pub fn row(&self) -> Option<BorrowedRow<'_>>
        ensures { result ≡ self.now.answer.cause.row }
    {
        if !self.has_row {
            return None;
        }
        Some(BorrowedRow {
            client: self.texts.third(),
            user: self.texts.fourth(),
            privilege: self.texts.fifth(),
        })
    }
}

/// The texts of the row, if there is one, where they stand.
pub fn lent_row(row: &Option<Row>) -> Option<BorrowedRow<'_>>
    ensures { result ≡ row.now }
{
    match row {
        Some(row) => Some(borrowed(row)),
        None => None,
    }
}

fn borrowed(row: &Row) -> BorrowedRow<'_>
    ensures { result ≡ row.now }
{
    BorrowedRow::of(
        row.client.as_slice(),
        row.user.as_slice(),
        row.privilege.as_slice(),
    )
}

impl fmt::Debug for BorrowedRow<'_> {
    fn fmt<W: fmt::Write>(&self, f: &mut fmt::Formatter<W>) -> fmt::Result {
        f.debug_struct("BorrowedRow")
            .field("client", &self.client)
            .field("user", &self.user)
            .field("privilege", &self.privilege)
            .finish()
    }
}

impl fmt::Debug for PackedVerdict {
    fn fmt<W: fmt::Write>(&self, f: &mut fmt::Formatter<W>) -> fmt::Result {
        f.debug_struct("PackedVerdict")
            .field("commit", &self.commit)
            .field("kind", &self.kind)
            .field("metadata", &self.metadata())
            .field("bucket", &self.bucket())
            .field("row", &self.row())
            .finish()
    }
}
