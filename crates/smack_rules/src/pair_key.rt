//! Pairs of labels, in the order in which a table keeps them.

ghost use Rattle.std.specs.Prelude.{◌≡◌, None, fold};
ghost use Rattle.smack_rules.specs.Label.{label_fault};
ghost use Rattle.smack_rules.specs.parts.Order.{mixed, mark_of, pair_cmp, same_pair};

use std::cmp::Ordering;
use std::marker::Model;

/// The mark of no byte: the start of the 64-bit hash FNV-1a.
const FIRST_MARK: u64 = 14_695_981_039_346_656_037;

/// The factor of that hash.
const MARK_FACTOR: u64 = 1_099_511_628_211;

/// A subject and an object, with their mark: a number made of all their bytes, by which pairs are compared first.
/// Labels often begin alike, and their marks mostly differ. A text whose pairs share one mark costs only that their
/// bytes are compared.
#[derive(Debug, Drop)]
pub struct PairKey<'a> {
    mark: u64,
    subject: &'a [u8],
    object: &'a [u8],
}

impl<'a> Model for PairKey<'a> {
    ghost use Rattle.std.specs.Prelude.{◌≡◌, None};
    ghost use Rattle.smack_rules.specs.Label.{label_fault};
    ghost use Rattle.smack_rules.specs.parts.Order.{LabelPair, mark_of};

    ghost Value = { LabelPair };

    ghost view = { λ key. record { subject = key.subject.now; object = key.object.now } };

    ghost invariant = { λ key. (key.mark ≡ mark_of key.subject.now key.object.now)
        × (label_fault key.subject.now ≡ None) × (label_fault key.object.now ≡ None) };
}

impl<'a> PairKey<'a> {
    /// The pair of two labels.
    pub fn of(subject: &'a [u8], object: &'a [u8]) -> PairKey<'a>
        requires subject { label_fault subject.now ≡ None }
        requires object { label_fault object.now ≡ None }
        ensures subject { result.subject ≡ subject.now }
        ensures object { result.object ≡ object.now }
    {
        PairKey {
            mark: mark_of(subject, object),
            subject,
            object,
        }
    }

    /// The bytes of the subject.
    pub fn subject(&self) -> &'a [u8]
        ensures value { result.now ≡ self.now.subject }
        ensures label { label_fault self.now.subject ≡ None }
    {
        self.subject
    }

    /// The bytes of the object.
    pub fn object(&self) -> &'a [u8]
        ensures value { result.now ≡ self.now.object }
        ensures label { label_fault self.now.object ≡ None }
    {
        self.object
    }

    /// The same pair.
    pub fn copy(&self) -> PairKey<'a>
        ensures { result ≡ self.now }
    {
        PairKey {
            mark: self.mark,
            subject: self.subject,
            object: self.object,
        }
    }

    /// Which of two pairs stands first in a table.
    pub fn compare(&self, other: &PairKey) -> Ordering
        ensures { result ≡ pair_cmp self.now other.now }
    {
        match self.mark.cmp(&other.mark) {
            Ordering::Equal => {}
            order => return order,
        }
        match self.subject.cmp(other.subject) {
            Ordering::Equal => {}
            order => return order,
        }
        self.object.cmp(other.object)
    }

    /// Whether two pairs are the same.
    pub fn is_same(&self, other: &PairKey) -> bool
        ensures { result ≡ same_pair self.now other.now }
    {
        self.compare(other).is_eq()
    }
}

/// The mark of two labels.
#[tactic(auto, unfolding(crate::specs::parts::Order::mark_of))]
fn mark_of(subject: &[u8], object: &[u8]) -> u64
    ensures { result ≡ mark_of subject.now object.now }
{
    mark_with(mark_with(FIRST_MARK, subject), object)
}

/// A mark with more bytes.
fn mark_with(mark: u64, bytes: &[u8]) -> u64
    ensures { result ≡ fold mixed mark bytes.now }
{
    bytes.iter().fold(mark, |mark, byte| mixed(mark, *byte))
}

/// A mark with one more byte.
#[tactic(auto, unfolding(crate::specs::parts::Order::mixed))]
fn mixed(mark: u64, byte: u8) -> u64
    ensures { result ≡ mixed mark byte }
{
    (mark ^ u64::from(byte)).wrapping_mul(MARK_FACTOR)
}
