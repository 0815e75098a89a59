// The sheets of buckets, as indexes share them.
ghost use Rattle.std.specs.Prelude.{◌≡◌, ◌<◌, length, slice_get, IfOk, Some};

use crate::sheets::Sheet;
use std::alloc::{AllocError, Global};
use std::marker::Model;
use std::sync::Arc;

/// A sheet. Its owners share one copy.
#[derive(Drop)]
pub struct SharedSheet {
    sheet: Arc<Sheet>,
}

impl Model for SharedSheet {
    ghost use Rattle.std.specs.Arc.{arc_value};
    ghost use Rattle.bucket_eval.specs.declared.sheets.Sheet.{Sheet};
    ghost use Rattle.bucket_eval.specs.contracts.sheets.Sheet as one;

    ghost Value = { Sheet };

    ghost coded = { one.the_row.coded };

    ghost view = { λ shared. arc_value shared.sheet };
}

impl SharedSheet {
    /// This sheet, with one owner.
    pub fn of(alloc: Global, sheet: Sheet) -> Result<SharedSheet, AllocError>
        ensures { IfOk result (λ shared. shared ≡ sheet) }
    {
        let sheet = Arc::new(alloc, sheet)?;
        Ok(SharedSheet { sheet })
    }

    /// The sheet.
    #[inline(always)]
    pub fn sheet(&self) -> &Sheet
        ensures { result.now ≡ self.now }
    {
        &self.sheet
    }

    /// The same sheet for one more owner.
    pub fn share(&self) -> Result<SharedSheet, AllocError>
        ensures { IfOk result (λ shared. shared ≡ self.now) }
    {
        let sheet = Arc::try_clone(&self.sheet)?;
        Ok(SharedSheet { sheet })
    }
}

/// The sheet at the place.
#[inline(always)]
pub fn shared_at(sheets: &[SharedSheet], at: usize) -> &SharedSheet
    requires { at < length sheets.now }
    ensures { slice_get sheets.now at ≡ Some result.now }
{
    &sheets[at]
}
