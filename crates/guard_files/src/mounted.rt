// A mount, before the disk is lent to a vault.
use crate::store_names::StoreNames;
use desk_ports::FileSet;
use std::marker::Model;

/// The set of a folder that was brought to rest, or none, with what a vault over the folder needs.
#[derive(Debug, Drop)]
pub struct Mounted {
    pub(crate) names: StoreNames,
    pub(crate) held: Option<FileSet>,
}

impl Model for Mounted {
    ghost use Rattle.std.specs.Prelude.{List, Option};
    ghost use Rattle.desk_ports.specs.declared.file_sets.SetFile.{SetFile};

    ghost Value = { Option (List SetFile) };

    ghost view = { λ mounted. mounted.held };
}
