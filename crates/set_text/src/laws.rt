//! What holds of all policy states and of all sets of files. These functions do nothing; their clauses are the laws.

ghost use Rattle.std.specs.Prelude.{◌≡◌, ◌≢◌, ◌↔◌, List, Ok, IsSome};
ghost use Rattle.desk_ports.specs.FileMap.{NamesRise, names_of};
ghost use Rattle.desk_ports.specs.declared.file_sets.SetFile as ports;
ghost use Rattle.desk_state.specs.DeskState.{DeskState};
ghost use Rattle.desk_state.specs.IsDesk.{IsDesk};
ghost use Rattle.set_text.specs.Files.{files};
ghost use Rattle.set_text.specs.IsSpelt.{IsSpelt};
ghost use Rattle.set_text.specs.Reading.{read_of, first_fault};

/// The files of a policy state read back as this state.
pub fn files_read_back()
    ensures { (desk : DeskState) → IsDesk desk → IsSpelt desk → read_of (files desk) ≡ Ok desk }
{}

/// What is read is a policy state, with names, numbers and results as their types keep them.
pub fn what_is_read_is_a_state()
    ensures { (set : List ports.SetFile) (desk : DeskState) → read_of set ≡ Ok desk → IsDesk desk × IsSpelt desk }
{}

/// A state has one set of files: what reads as a state is what is written of it.
pub fn one_set_for_each_state()
    ensures { (set : List ports.SetFile) (desk : DeskState) → NamesRise (names_of set) → read_of set ≡ Ok desk
        → set ≡ files desk }
{}

/// Two different states have different sets of files.
pub fn one_state_for_each_set()
    ensures { (desk other : DeskState) → IsDesk desk → IsSpelt desk → IsDesk other → IsSpelt other
        → files desk ≡ files other → desk ≡ other }
{}

/// A set has a fault exactly where no state has this set.
pub fn faults_are_of_no_state()
    ensures { (set : List ports.SetFile) → NamesRise (names_of set)
        → IsSome (first_fault set) ↔ ((desk : DeskState) → IsDesk desk → IsSpelt desk → set ≢ files desk) }
{}
