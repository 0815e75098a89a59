ghost use Rattle.std.specs.Prelude.{◌≡◌, true, IfSome, IsSome};
ghost use Rattle.std.proofs.Props.{props};
ghost use Rattle.std.specs.Option.{option_copied};
ghost use Rattle.desk_ports.specs.FileMap.{names_of};
ghost use Rattle.guard_files.specs.ListFile.{are_listable};

use crate::store_names::StoreNames;
use desk_ports::{FileName, FileSet};

/// What a folder was found to hold, before anything in it was changed: the set, or none; whether the guard stands;
/// whether the list that was read is of version 1; and the names of all files. Whoever mounts a folder judges the set,
/// and then calls `settle`.
#[derive(Debug, Drop)]
pub struct Survey {
    pub(crate) names: StoreNames,
    pub(crate) held: Option<FileSet>,
    pub(crate) guarded: bool,
    pub(crate) is_old: bool,
    pub(crate) listing: Vec<FileName>,
    ghost some: { guarded ≡ true → IsSome held },
    ghost old: { is_old ≡ true → IsSome held },
    ghost listable: { IfSome held (λ set. are_listable (names_of set) ≡ true) } by { Prim.hlevel props },
}

impl Survey {
    /// The set that was found, or nothing where there is none.
    pub fn held(&self) -> Option<&FileSet>
        ensures { option_copied result ≡ self.now.held }
    {
        self.held.as_ref()
    }
}
