// Many numbers of a column compared at once.
ghost use Rattle.std.specs.Prelude.{◌≡◌, ◌+◌, ◌≤◌, ◌==◌, length, map, take, drop};
ghost use Rattle.std.specs.Simd.Lanes.{mask_l};
ghost use Rattle.lane_scan.specs.Asked.{speaks_of};
ghost use Rattle.lane_scan.specs.parts.Tests.{passes, meets};

use super::Columns;
use crate::tests_of_rows::{PlaceTest, RowTest};
use std::simd::prelude::*;

/// How many rows are compared at once.
pub const LANES: usize = 32;

impl Columns {
    // Which of the 32 rows from `at` on are as asked: one bit for each, the first the lowest.
    pub(super) fn marks(&self, at: usize, test: RowTest) -> u64
        requires { at + 32 ≤ length self.now }
        ensures { result ≡ mask_l (map (meets test) (take 32 (drop at self.now))) }
    {
        place_marks(&self.clients, at, test.client)
            & (place_marks(&self.users, at, test.user)
                & place_marks(&self.privileges, at, test.privilege))
    }
}

// Which of the 32 numbers from `at` on are as asked.
#[inline]
fn place_marks(column: &[u32], at: usize, test: PlaceTest) -> u64
    requires { at + 32 ≤ length column.now }
    ensures { result ≡ mask_l (map (passes test) (take 32 (drop at column.now))) }
{
    match test {
        PlaceTest::Any => 0xffff_ffff,
        PlaceTest::Is(wanted) => equal_marks(column, at, wanted),
        PlaceTest::IsOrWildcard(wanted) => wildcard_or_equal_marks(column, at, wanted),
    }
}

// Which of the 32 numbers from `at` on are this one.
#[inline]
fn equal_marks(column: &[u32], at: usize, wanted: u32) -> u64
    requires { at + 32 ≤ length column.now }
    ensures { result ≡ mask_l (map (λ number. number == wanted) (take 32 (drop at column.now))) }
{
    u32x32::from_slice(&column[at..])
        .simd_eq(u32x32::splat(wanted))
        .to_bitmask()
}

// Which of the 32 numbers from `at` on are the wildcard's or this one.
#[inline]
fn wildcard_or_equal_marks(column: &[u32], at: usize, wanted: u32) -> u64
    requires { at + 32 ≤ length column.now }
    ensures { result ≡ mask_l (map (speaks_of wanted) (take 32 (drop at column.now))) }
{
    let lanes = u32x32::from_slice(&column[at..]);
    let wildcards = lanes.simd_eq(u32x32::splat(0));
    (wildcards | lanes.simd_eq(u32x32::splat(wanted))).to_bitmask()
}
