ghost use Rattle.std.specs.Prelude.{◌≡◌, ◌<◌, ◌≤◌, length, slice_get, IfOk, IfSome, Some};
ghost use Rattle.cynara_keys.specs.Field.{wildcard};
ghost use Rattle.bucket_store.specs.Bucket.{Bucket as Content};
ghost use Rattle.bucket_store.specs.WellFormed.{IsKept};
ghost use Rattle.bucket_eval.specs.Found.{outcome_at as outcome_found};
ghost use Rattle.bucket_eval.specs.Lent.{outcome_lent};
ghost use Rattle.bucket_eval.specs.Root.{root_answer, root_outcome};
ghost use Rattle.bucket_eval.specs.parts.Buckets.{outcome_at};
ghost use Rattle.bucket_eval.specs.parts.Deciding.{IsRight, answer_of};
ghost use Rattle.bucket_eval.specs.parts.Numbers.{KeepsNumbers, number_of};
ghost use Rattle.bucket_eval.specs.parts.Sheets.{AreSheets, AreSheetsOf, IsSheetAt};
ghost use Rattle.bucket_eval.specs.parts.Stays.{AreNamedAlike};

use crate::answers::{Answer, Found};
use crate::deciding::{Asking, Known, decided};
use crate::evaluations::plain_borrowed;
use crate::lending::{BorrowedAnswer, lend};
use crate::names::Names;
use crate::numbers::{marks_of, numbers_of};
use crate::shared_sheets::{SharedSheet, shared_at};
use crate::sheets::Sheet;
use crate::slots::bucket_at;
use crate::stays::{are_named_alike, stayed};
use bucket_store::{Bucket, Database};
use cynara_keys::{BorrowedQuestion, Question};
use std::alloc::{AllocError, Global};
use std::marker::Model;

/// As many slots as a database can have buckets.
const MOST_SLOTS: usize = 1024;

/// Answers the checks of one database, however many. It stands for that database.
#[derive(Drop)]
pub struct Index {
    database: Database,
    names: Names,
    // The number of the wildcard.
    star: Option<u64>,
    // None where a key has no mark.
    sheets: Option<Vec<SharedSheet>>,
}

impl Model for Index {
    ghost use Rattle.bucket_store.specs.Database.{Database as Content};
    ghost use Rattle.std.specs.Prelude.{IfSome};
    ghost use Rattle.bucket_eval.specs.parts.Marks.{IsStar};
    ghost use Rattle.bucket_eval.specs.parts.Sheets.{AreSheetsOf};

    ghost Value = { Content };

    ghost view = { λ index. index.database };

    ghost invariant = { λ index. IsStar index.names index.star
        × IfSome index.sheets (λ sheets. AreSheetsOf index.names index.database sheets.items) };
}

/// Room for what is known while a question is answered: one slot for each bucket that a database can have.
#[derive(Drop)]
pub struct Scratch {
    slots: Vec<Known>,
}

impl Model for Scratch {
    ghost use Rattle.std.specs.Prelude.{◌≡◌, ℕ, length};

    ghost Value = { ℕ };

    ghost view = { λ scratch. length scratch.slots.items };

    ghost invariant = { λ scratch. length scratch.slots.items ≡ 1024 };
}

impl Scratch {
    /// Room for one question at a time.
    pub fn new(alloc: Global) -> Result<Scratch, AllocError> {
        let slots = Vec::from_array(alloc, [Known::nothing(); MOST_SLOTS])?;
        Ok(Scratch { slots })
    }
}

impl Index {
    /// The index of this database, which shares its buckets.
    pub fn build(alloc: Global, database: &Database) -> Result<Index, AllocError>
        ensures { IfOk result (λ index. index ≡ database.now) }
    {
        let mut names = Names::new(alloc)?;
        let sheets = sheets_of(alloc, &mut names, database.buckets())?;
        let settled = names.settled(alloc)?;
        Index::of(database, settled, sheets)
    }

    /// The index of this database, as `build` makes it, where most of it is as in this index's database. Takes over the
    /// tables of the buckets that stayed, where no bucket came or went.
    pub fn build_next(&self, alloc: Global, database: &Database) -> Result<Index, AllocError>
        ensures { IfOk result (λ index. index ≡ database.now) }
    {
        let taken = self.taken_over(alloc, database)?;
        let Some(index) = taken else {
            return Index::build(alloc, database);
        };
        Ok(index)
    }

    // The same, where no bucket came or went, each key has a mark, and few names are new.
    fn taken_over(&self, alloc: Global, database: &Database) -> Result<Option<Index>, AllocError>
        ensures { IfOk result (λ index. IfSome index (λ index. index ≡ database.now)) }
    {
        let Some(sheets) = &self.sheets else {
            return Ok(None);
        };
        let before = self.database.buckets();
        let buckets = database.buckets();
        if !are_named_alike(before, buckets) {
            return Ok(None);
        }
        let mut names = self.names.again()?;
        let made = next_sheets(alloc, &mut names, before, sheets.as_slice(), buckets)?;
        let Some(next) = made else {
            return Ok(None);
        };
        let index = Index::of(database, names, Some(next))?;
        Ok(Some(index))
    }

    // The index of this database by its sheets, and the names that they are made by.
    fn of(
        database: &Database,
        names: Names,
        sheets: Option<Vec<SharedSheet>>,
    ) -> Result<Index, AllocError>
        requires { IfSome sheets (λ sheets. AreSheetsOf names database.now sheets.items) }
        ensures { IfOk result (λ index. index ≡ database.now) }
    {
        let star = names.number(b"*");
        let database = database.copy()?;
        Ok(Index {
            database,
            names,
            star,
            sheets,
        })
    }

    /// What the root bucket answers to the question, as `describe` of `plain` would say it. Takes no memory.
    pub fn verdict(&self, scratch: &mut Scratch, question: &Question) -> Answer
        ensures { result ≡ root_answer self.now question.now }
    {
        self.decide(scratch, &question.borrowed()).to_answer()
    }

    /// The same for a question whose names stand elsewhere, with the answer's texts lent by the index. Takes no memory.
    pub fn decide(
        &self,
        scratch: &mut Scratch,
        question: &BorrowedQuestion<'_>,
    ) -> BorrowedAnswer<'_>
        ensures { outcome_lent result ≡ root_outcome self.now question.now }
    {
        let found = self.found(scratch, question);
        lend(&self.database, found)
    }

    // Where what the root bucket answers is found.
    fn found(&self, scratch: &mut Scratch, question: &BorrowedQuestion<'_>) -> Found
        ensures { outcome_found self.now result ≡ Some (root_outcome self.now question.now) }
    {
        let buckets = self.database.buckets();
        let Some(sheets) = &self.sheets else {
            return plain_borrowed(&self.database, 0, question, true);
        };
        let marks = marks_of(&numbers_of(&self.names, self.star, question));
        let asking = Asking {
            buckets,
            sheets: sheets.as_slice(),
            question,
            marks: &marks,
        };
        from_the_root(&asking, scratch)
    }
}

// Where what the first bucket answers is found.
fn from_the_root(asking: &Asking<'_>, scratch: &mut Scratch) -> Found
    requires right { IsRight asking.now }
    requires there { 0 < length asking.now.buckets.now }
    ensures { (bucket : Content) → slice_get asking.now.buckets.now 0 ≡ Some bucket
        → outcome_at asking.now.buckets.now result ≡ Some (answer_of asking.now bucket.name) }
{
    decided(asking, &mut scratch.slots)
}

// The sheets of the buckets in turn, whose names are given numbers, unless a key has no mark.
fn sheets_of(
    alloc: Global,
    names: &mut Names,
    buckets: &[Bucket],
) -> Result<Option<Vec<SharedSheet>>, AllocError>
    requires { IsKept buckets.now }
    ensures { IfOk result (λ sheets. IfSome sheets (λ sheets. AreSheets names.new buckets.now sheets.items)) }
{
    let mut sheets = Vec::with_capacity(alloc, buckets.len())?;
    for at in 0..buckets.len() {
        let made = sheet_of(alloc, names, buckets, at)?;
        let Some(sheet) = made else {
            return Ok(None);
        };
        sheets.push(sheet)?;
    }
    Ok(Some(sheets))
}

// The sheet of the bucket at the place.
fn sheet_of(
    alloc: Global,
    names: &mut Names,
    buckets: &[Bucket],
    at: usize,
) -> Result<Option<SharedSheet>, AllocError>
    requires kept { IsKept buckets.now }
    requires there { at < length buckets.now }
    ensures sheet { IfOk result (λ sheet. IfSome sheet (IsSheetAt names.new buckets.now at)) }
    ensures kept { IfOk result (λ sheet. KeepsNumbers names.old names.new) }
{
    let made = Sheet::of(alloc, names, buckets, at, bucket_at(buckets, at))?;
    let Some(sheet) = made else {
        return Ok(None);
    };
    let shared = SharedSheet::of(alloc, sheet)?;
    Ok(Some(shared))
}

// The sheets of the buckets in turn, where those of the buckets before are known, which are named alike; unless a key
// has no mark, or there are too many new names.
fn next_sheets(
    alloc: Global,
    names: &mut Names,
    before: &[Bucket],
    sheets: &[SharedSheet],
    buckets: &[Bucket],
) -> Result<Option<Vec<SharedSheet>>, AllocError>
    requires kept { IsKept buckets.now }
    requires alike { AreNamedAlike before.now buckets.now }
    requires sheets { AreSheets names.old before.now sheets.now }
    ensures { IfOk result (λ next. IfSome next (λ next. AreSheets names.new buckets.now next.items)) }
{
    let mut next = Vec::with_capacity(alloc, buckets.len())?;
    for at in 0..buckets.len() {
        let made = next_sheet(alloc, names, before, sheets, buckets, at)?;
        let Some(sheet) = made else {
            return Ok(None);
        };
        if names.is_long() {
            return Ok(None);
        }
        next.push(sheet)?;
    }
    Ok(Some(next))
}

// The sheet of the bucket at the place: that of the bucket before where it stayed.
fn next_sheet(
    alloc: Global,
    names: &mut Names,
    before: &[Bucket],
    sheets: &[SharedSheet],
    buckets: &[Bucket],
    at: usize,
) -> Result<Option<SharedSheet>, AllocError>
    requires kept { IsKept buckets.now }
    requires there { at < length buckets.now }
    requires alike { AreNamedAlike before.now buckets.now }
    requires sheets { AreSheets names.old before.now sheets.now }
    ensures sheet { IfOk result (λ sheet. IfSome sheet (IsSheetAt names.new buckets.now at)) }
    ensures kept { IfOk result (λ sheet. KeepsNumbers names.old names.new) }
{
    if !stayed(bucket_at(before, at), bucket_at(buckets, at)) {
        return sheet_of(alloc, names, buckets, at);
    }
    let sheet = shared_at(sheets, at).share()?;
    Ok(Some(sheet))
}
