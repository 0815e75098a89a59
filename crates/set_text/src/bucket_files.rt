//! The files of the buckets.

ghost use Rattle.std.specs.Prelude.{◌≡◌, ◌≤◌, ◌+◌, [], length, map, None, Ok, IfOk, MatchResult};
ghost use Rattle.std.specs.List.Sorted.{IsStrictlySortedBy};
ghost use Rattle.bucket_store.specs.Order.{heading_cmp};
ghost use Rattle.bucket_store.specs.Refusal.{most_policies};
ghost use Rattle.desk_ports.specs.FileMap.{NamesRise, names_of};
ghost use Rattle.set_text.specs.Buckets.{policies_of};
ghost use Rattle.set_text.specs.Fault as fault;
ghost use Rattle.set_text.specs.Fault.{bytes_in};
ghost use Rattle.set_text.specs.FileNames as word;
ghost use Rattle.set_text.specs.Reading.{odd_file, buckets_behind, with_policies};
ghost use Rattle.set_text.specs.Refusal.{Refuses};
ghost use Rattle.set_text.specs.parts.Names.{RefusesTest};
ghost use Rattle.set_text.specs.parts.Parts.{headings_part};

use crate::file_names::{BUCKETS, Sort, bucket_file};
use crate::headings::{BucketHeading, read_headings};
use crate::policies::read_policies;
use crate::refusals::TextRefusal;
use crate::sets::{bytes_of, in_file, test_names};
use bucket_store::Bucket;
use desk_ports::{FileName, SetFile};
use std::alloc::{AllocError, Global};

/// Reads `buckets`.
pub fn headings_in(alloc: Global, files: &[SetFile]) -> Result<Vec<BucketHeading>, TextRefusal>
    requires { NamesRise (names_of files.now) }
    ensures { MatchResult result (λ headings. headings_part files.now ≡ Ok headings.items)
        (λ refusal. Refuses refusal (headings_part files.now)) }
{
    match read_headings(alloc, bytes_of(files, BUCKETS)) {
        Ok(headings) => Ok(headings),
        Err(fault) => Err(in_file(alloc, BUCKETS, fault)),
    }
}

/// The files of buckets are those of these.
pub fn test_bucket_files(
    alloc: Global,
    files: &[SetFile],
    headings: &[BucketHeading],
) -> Result<(), TextRefusal>
    ensures { MatchResult result
        (λ done.
        odd_file word.is_bucket_file (map (λ heading. word.bucket_file heading.name) headings.now) files.now ≡ None)
        (λ refusal. RefusesTest refusal
        (odd_file word.is_bucket_file (map (λ heading. word.bucket_file heading.name) headings.now) files.now)) }
{
    match bucket_file_names(alloc, headings) {
        Ok(names) => test_names(alloc, files, Sort::Bucket, &names),
        Err(error) => Err(TextRefusal::Memory(error)),
    }
}

fn bucket_file_names(alloc: Global, headings: &[BucketHeading]) -> Result<Vec<FileName>, AllocError>
    ensures { IfOk result (λ names. names.items ≡ map (λ heading. word.bucket_file heading.name) headings.now) }
{
    let mut names = Vec::new(alloc);
    for heading in headings {
        names.push(bucket_file(alloc, &heading.name)?)?;
    }
    Ok(names)
}

/// Reads the file of each bucket.
pub fn buckets_in(
    alloc: Global,
    files: &[SetFile],
    headings: &[BucketHeading],
) -> Result<Vec<Bucket>, TextRefusal>
    requires rising { NamesRise (names_of files.now) }
    requires headings { IsStrictlySortedBy heading_cmp headings.now }
    ensures { MatchResult result (λ buckets. buckets_behind files.now headings.now [] headings.now ≡ Ok buckets.items)
        (λ refusal. Refuses refusal (buckets_behind files.now headings.now [] headings.now)) }
{
    let mut buckets = Vec::new(alloc);
    let mut earlier = 0;
    for heading in headings {
        let bucket = match bucket_in(alloc, files, headings, earlier, heading) {
            Ok(bucket) => bucket,
            Err(refusal) => return Err(refusal),
        };
        earlier += bucket.policies().len();
        if let Err(error) = buckets.push(bucket) {
            return Err(TextRefusal::Memory(error.into()));
        }
    }
    Ok(buckets)
}

// Reads the file of one bucket, with so many policies in the files before it.
fn bucket_in(
    alloc: Global,
    files: &[SetFile],
    headings: &[BucketHeading],
    earlier: usize,
    heading: &BucketHeading,
) -> Result<Bucket, TextRefusal>
    requires rising { NamesRise (names_of files.now) }
    requires headings { IsStrictlySortedBy heading_cmp headings.now }
    requires count { earlier ≤ most_policies }
    ensures bucket { IfOk result (λ bucket. bucket ≡ with_policies heading.now bucket.policies) }
    ensures policies { MatchResult result
        (λ bucket. fault.in_file (word.bucket_file heading.now.name)
        (policies_of headings.now earlier (bytes_in files.now (word.bucket_file heading.now.name)))
        ≡ Ok bucket.policies)
        (λ refusal. Refuses refusal (fault.in_file (word.bucket_file heading.now.name)
        (policies_of headings.now earlier (bytes_in files.now (word.bucket_file heading.now.name))))) }
    ensures room { IfOk result (λ bucket. earlier + length bucket.policies ≤ most_policies) }
{
    let name = match bucket_file(alloc, &heading.name) {
        Ok(name) => name,
        Err(error) => return Err(TextRefusal::Memory(error)),
    };
    let text = bytes_of(files, name.as_slice());
    let policies = match read_policies(alloc, headings, earlier, text) {
        Ok(policies) => policies,
        Err(fault) => return Err(in_file(alloc, name.as_slice(), fault)),
    };
    let name = match heading.name.copy() {
        Ok(name) => name,
        Err(error) => return Err(TextRefusal::Memory(error)),
    };
    let fallback = match heading.fallback.copy() {
        Ok(fallback) => fallback,
        Err(error) => return Err(TextRefusal::Memory(error)),
    };
    match Bucket::new(alloc, name, fallback, policies) {
        Ok(bucket) => Ok(bucket),
        Err(error) => Err(TextRefusal::Memory(error)),
    }
}
