// How a run of `serve` ends that has served.
ghost use Rattle.std.specs.Prelude.{◌≡◌, ◌||◌};
ghost use Rattle.std.specs.Bool.{OnTrue, OnFalse};
ghost use Rattle.serve_runs.specs.Serving.{HasRisen, HasNotRisen};
ghost use Rattle.serve_runs.specs.Pool.{is_lacking, is_alone};
ghost use Rattle.serve_runs.specs.parts.Administering.{EndsBy};

use desk_server::WorkerEnd;
use run_endings::Ending;

/// By what was met, and by the counts of the disk and of the net before and now: want of memory or of a thread comes
/// first, and then the disk. Where the service was stopped by no administrator, a worker ended for a failing call or
/// for want of memory; it is never done.
pub(crate) fn ending_of(
    lacked_memory: bool,
    alone: bool,
    disk: u64,
    disk_now: u64,
    net: u64,
    net_now: u64,
) -> Ending
    ensures { EndsBy lacked_memory alone disk disk_now net net_now result }
{
    if lacked_memory {
        return Ending::Memory;
    }
    if has_risen(disk, disk_now) {
        return Ending::Disk;
    }
    if has_risen(net, net_now) {
        return Ending::Net;
    }
    if alone {
        return Ending::Memory;
    }
    Ending::Done
}

// Whether a count of failures has risen. At its last value it does not tell, and counts as risen.
fn has_risen(before: u64, after: u64) -> bool
    ensures risen { OnTrue result (HasRisen before after) }
    ensures unrisen { OnFalse result (HasNotRisen before after) }
{
    before.saturating_add(1) <= after
}

/// Whether memory or a thread was wanting: for one of the pool, or for the worker of administrators, which ended so.
pub(crate) fn lacks_memory(lacked: bool, end: WorkerEnd) -> bool
    ensures { result ≡ is_lacking end || lacked }
{
    match end {
        WorkerEnd::Memory | WorkerEnd::Unstarted => true,
        WorkerEnd::Stopped | WorkerEnd::DoorFailed | WorkerEnd::Alone => lacked,
    }
}

/// Whether a worker ended since the service was stopped by no administrator.
pub(crate) fn is_alone(end: WorkerEnd) -> bool
    ensures { result ≡ is_alone end }
{
    match end {
        WorkerEnd::Alone => true,
        WorkerEnd::Stopped | WorkerEnd::DoorFailed | WorkerEnd::Memory | WorkerEnd::Unstarted =>
            false,
    }
}
