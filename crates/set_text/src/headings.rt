//! The file `buckets`: a line for each bucket, with its name and its fallback.

ghost use Rattle.std.specs.Prelude.{◌≡◌, ◌++◌, ◌∷◌, [], ◌<◌, length, Ok, IsTrue, map, IfOk, OnOk, MatchResult};
ghost use Rattle.std.specs.List.{AllByRecursion, list_any};
ghost use Rattle.std.specs.List.Sorted.{IsStrictlySortedBy};
ghost use Rattle.cynara_keys.specs.Text.{same_text};
ghost use Rattle.bucket_store.specs.Database.{heading_of};
ghost use Rattle.bucket_store.specs.Refusal as rule;
ghost use Rattle.bucket_store.specs.Refusal.{most_buckets};
ghost use Rattle.bucket_store.specs.Order.{heading_cmp};
ghost use Rattle.set_text.specs.Buckets as word;
ghost use Rattle.set_text.specs.IsSpelt.{IsHeading};
ghost use Rattle.set_text.specs.Lines.{rises_above, values_of};
ghost use Rattle.set_text.specs.parts.Reads.{ReadsLine, RefusesFile};

use crate::lines::{FileFault, LineFault, cut_field};
use crate::results::{append_ruling, ruling_of};
use bucket_store::{Bucket, MOST_BUCKETS};
use cynara_keys::{BucketName, BucketNameRefusal, Kind, PolicyResult};
use std::alloc::{AllocError, Global};
use std::marker::Model;
use text_lines::split_at_newline;

/// The name and the fallback of a bucket.
#[derive(Drop)]
pub struct BucketHeading {
    pub name: BucketName,
    pub fallback: PolicyResult,
}

impl Model for BucketHeading {
    ghost use Rattle.bucket_store.specs.Database.{Heading};

    ghost Value = { Heading };

    ghost view = { λ heading. record { name = heading.name; fallback = heading.fallback } };
}

/// The text of `buckets`.
pub fn buckets_text(alloc: Global, buckets: &[Bucket]) -> Result<Vec<u8>, AllocError>
    ensures text { IfOk result (λ text. text.items ≡ word.buckets_text (map heading_of buckets.now)) }
    ensures spelt { OnOk result (AllByRecursion (λ bucket. IsHeading (heading_of bucket)) buckets.now) }
{
    let mut text = Vec::new(alloc);
    for bucket in buckets {
        append_heading(bucket, &mut text)?;
    }
    Ok(text)
}

fn append_heading(bucket: &Bucket, text: &mut Vec<u8>) -> Result<(), AllocError>
    ensures text { OnOk result
        (text.new.items ≡ text.old.items ++ (word.heading_line (heading_of bucket.now) ++ 10 ∷ [])) }
    ensures spelt { OnOk result (IsHeading (heading_of bucket.now)) }
{
    text.extend_from_slice(bucket.name().as_slice())?;
    text.push(b';')?;
    append_ruling(bucket.fallback(), text)
}

/// Reads `buckets`. Its first wrong line is named.
pub fn read_headings(alloc: Global, text: &[u8]) -> Result<Vec<BucketHeading>, FileFault>
    ensures { MatchResult result (λ headings. word.headings_of text.now ≡ Ok headings.items)
        (λ fault. RefusesFile fault (word.headings_of text.now)) }
{
    match heading_lines(alloc, text) {
        Ok(headings) => {
            if headings.is_empty() {
                Err(FileFault::Line(1))
            } else {
                Ok(headings)
            }
        }
        Err(fault) => Err(fault),
    }
}

// Reads the lines of `buckets`, if there are any.
fn heading_lines(alloc: Global, text: &[u8]) -> Result<Vec<BucketHeading>, FileFault>
    ensures { MatchResult result (λ headings. values_of word.read_heading text.now ≡ Ok headings.items)
        (λ fault. RefusesFile fault (values_of word.read_heading text.now)) }
{
    let mut headings = Vec::new(alloc);
    let mut rest = text;
    let mut number = 1u32;
    while !rest.is_empty() {
        let Some((line, after)) = split_at_newline(rest) else {
            return Err(FileFault::Line(number));
        };
        let heading = match read_heading(alloc, &headings, line) {
            Ok(heading) => heading,
            Err(fault) => return Err(fault.at(number)),
        };
        if let Err(error) = headings.push(heading) {
            return Err(FileFault::Memory(error.into()));
        }
        number += 1;
        rest = after;
    }
    Ok(headings)
}

// Reads a line of `buckets`, behind these.
fn read_heading(
    alloc: Global,
    before: &[BucketHeading],
    line: &[u8],
) -> Result<BucketHeading, LineFault>
    ensures read { ReadsLine result (word.read_heading before.now line.now) }
    ensures room { OnOk result (length before.now < most_buckets) }
{
    match heading_of(alloc, line) {
        Ok(heading) => {
            if heading_fits(before, &heading) {
                Ok(heading)
            } else {
                Err(LineFault::Wrong)
            }
        }
        Err(fault) => Err(fault),
    }
}

// The name and the fallback in a line.
fn heading_of(alloc: Global, line: &[u8]) -> Result<BucketHeading, LineFault>
    ensures { ReadsLine result (word.heading_of line.now) }
{
    let Some((name, rest)) = cut_field(line) else {
        return Err(LineFault::Wrong);
    };
    let Some((kind, metadata)) = cut_field(rest) else {
        return Err(LineFault::Wrong);
    };
    if let Some(_) = cut_field(metadata) {
        return Err(LineFault::Wrong);
    }
    let name = match BucketName::read(alloc, name) {
        Ok(name) => name,
        Err(BucketNameRefusal::Memory(error)) => return Err(LineFault::Memory(error)),
        Err(_) => return Err(LineFault::Wrong),
    };
    match ruling_of(alloc, kind, metadata) {
        Ok(fallback) => Ok(BucketHeading { name, fallback }),
        Err(fault) => Err(fault),
    }
}

// Whether a line may stand behind these.
fn heading_fits(before: &[BucketHeading], heading: &BucketHeading) -> bool
    ensures fits { result ≡ word.heading_fits before.now heading.now }
    ensures room { IsTrue result → length before.now < most_buckets }
{
    rises(before, heading)
        && is_root_or_later(before, heading)
        && !is_bad(heading)
        && before.len() < MOST_BUCKETS
}

fn rises(before: &[BucketHeading], heading: &BucketHeading) -> bool
    ensures { result ≡ rises_above heading_cmp before.now heading.now }
{
    match before.last() {
        Some(last) => last.name.cmp(&heading.name).is_lt(),
        None => true,
    }
}

// Whether the first line is the root bucket's.
fn is_root_or_later(before: &[BucketHeading], heading: &BucketHeading) -> bool
    ensures { result ≡ word.is_root_or_later before.now heading.now }
{
    !before.is_empty() || heading.name.as_slice().is_empty()
}

// Whether the bucket may not have this fallback.
fn is_bad(heading: &BucketHeading) -> bool
    ensures { result ≡ rule.is_bad heading.now }
{
    let kind = heading.fallback.kind();
    kind == Kind::BUCKET || (heading.name.as_slice().is_empty() && kind == Kind::NONE)
}

/// Whether a bucket of this name is there, of buckets with rising names.
pub fn has_heading(headings: &[BucketHeading], name: &[u8]) -> bool
    requires { IsStrictlySortedBy heading_cmp headings.now }
    ensures { result ≡ list_any (λ heading. same_text heading.name name.now) headings.now }
{
    match headings.binary_search_by(|heading| heading.name.as_slice().cmp(name)) {
        Ok(_) => true,
        Err(_) => false,
    }
}
