// The rows gone over: in whole chunks, and what is left one by one.
ghost use Rattle.std.specs.Prelude.{◌≡◌, ◌<◌, ◌≤◌, ◌++◌, length, drop, slice_index_or, OnOk, OnErr};
ghost use Rattle.lane_scan.specs.Rows.{Row, numbers_from, numbers_of};
ghost use Rattle.lane_scan.specs.parts.Tests.{meets};
ghost use Rattle.lane_scan.specs.parts.Found.{IsLonger};

use super::Columns;
use super::lanes::LANES;
use super::marks::push_marked;
use crate::tests_of_rows::RowTest;
use std::alloc::AllocError;

impl Columns {
    // Appends the numbers of the rows that are as asked, or leaves the list as it was.
    pub(super) fn push_whole(&self, test: RowTest, out: &mut Vec<u32>) -> Result<(), AllocError>
        ensures found { OnOk result (out.new.items ≡ out.old.items ++ numbers_of (meets test) self.now) }
        ensures kept { OnErr result (out.new.items ≡ out.old.items) }
    {
        let count = out.len();
        match self.push_found(test, out) {
            Ok(()) => Ok(()),
            Err(error) => {
                out.truncate(count);
                Err(error)
            }
        }
    }

    // Appends the numbers of the rows that are as asked, or some of them.
    fn push_found(&self, test: RowTest, out: &mut Vec<u32>) -> Result<(), AllocError>
        ensures found { OnOk result (out.new.items ≡ out.old.items ++ numbers_of (meets test) self.now) }
        ensures longer { OnErr result (IsLonger out.old.items out.new.items) }
    {
        let count = self.clients.len();
        let mut at = 0;
        while count - at >= LANES {
            push_marked(self.marks(at, test), at as u32, out)?;
            at += LANES;
        }
        self.push_plainly(at, test, out)?;
        Ok(())
    }

    // Appends the numbers of the rows from this one on that are as asked, or some of them.
    pub(super) fn push_plainly(
        &self,
        from: usize,
        test: RowTest,
        out: &mut Vec<u32>,
    ) -> Result<(), AllocError>
        requires { from ≤ length self.now }
        ensures found { OnOk result
            (out.new.items ≡ out.old.items ++ numbers_from from (meets test) (drop from self.now)) }
        ensures longer { OnErr result (IsLonger out.old.items out.new.items) }
    {
        for at in from..self.clients.len() {
            if self.meets(at, test) {
                out.push(at as u32)?;
            }
        }
        Ok(())
    }

    // Whether the row is as asked.
    fn meets(&self, at: usize, test: RowTest) -> bool
        requires { at < length self.now }
        ensures { (row : Row) → result ≡ meets test (slice_index_or self.now at row) }
    {
        test.meets(self.clients[at], self.users[at], self.privileges[at])
    }
}
