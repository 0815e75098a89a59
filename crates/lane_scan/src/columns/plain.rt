// The same answers, row by row.
ghost use Rattle.std.specs.Prelude.{◌≡◌, IfOk};
ghost use Rattle.lane_scan.specs.Rows.{numbers_of};
ghost use Rattle.lane_scan.specs.Asked.{selects, covers as covering};

use super::Columns;
use crate::tests_of_rows::RowTest;
use std::alloc::{AllocError, Global};

impl Columns {
    /// What `select` appends, by a plain loop.
    pub fn selected_plainly(
        &self,
        alloc: Global,
        want: [Option<u32>; 3],
    ) -> Result<Vec<u32>, AllocError>
        ensures { IfOk result (λ found. found.items ≡ numbers_of (selects want) self.now) }
    {
        let mut found = Vec::new(alloc);
        self.push_plainly(0, RowTest::selecting(want), &mut found)?;
        Ok(found)
    }

    /// What `covers` appends, by a plain loop.
    pub fn covered_plainly(&self, alloc: Global, question: [u32; 3]) -> Result<Vec<u32>, AllocError>
        ensures { IfOk result (λ found. found.items ≡ numbers_of (covering question) self.now) }
    {
        let mut found = Vec::new(alloc);
        self.push_plainly(0, RowTest::covering(question), &mut found)?;
        Ok(found)
    }
}
