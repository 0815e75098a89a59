// How a run of `watch` ends.
ghost use Rattle.std.specs.Prelude.{◌≡◌};
ghost use Rattle.watch_runs.specs.Watching.{ending_with};

use monitor_journal::Writing;
use run_endings::Ending;

/// As its service did; and where that did its work, by how the writing of lines stands.
pub(crate) fn ending_with(met: Ending, writing: Writing) -> Ending
    ensures { result ≡ ending_with met writing }
{
    match met {
        Ending::Done => match writing {
            Writing::GoesOn => Ending::Done,
            Writing::SinkFailed => Ending::Sink,
            Writing::OutOfMemory => Ending::Memory,
        },
        other => other,
    }
}
