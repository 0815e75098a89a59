// How a refused mount ends a run.
ghost use Rattle.std.specs.Prelude.{◌≡◌};
ghost use Rattle.folder_runs.specs.Mounting.{mounting_ending};

use desk_keeper::KeeperRefusal;
use run_endings::Ending;

/// The ending of a run whose folder was not mounted.
pub fn ending_of_mount(refusal: KeeperRefusal) -> Ending
    ensures { result ≡ mounting_ending refusal }
{
    match refusal {
        KeeperRefusal::StoreFault => Ending::Disk,
        KeeperRefusal::Damaged { file, line } => Ending::Damaged { file, line },
        KeeperRefusal::Memory(_) => Ending::Memory,
    }
}
