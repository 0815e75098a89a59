// What a service tells of itself.
ghost use Rattle.std.specs.Prelude.{◌≡◌, IfOk};
ghost use Rattle.std.specs.Sync.Mutex.{mutex_guard_value};
ghost use Rattle.agent_table.specs.Table.{KindsRise};
ghost use Rattle.server_hall.specs.Service.{told_by, service_of};

use crate::locked::QuestionDesk;
use agent_table::Questions;
use cynara_keys::Kind;
use link_ports::HangEnd;
use live_desk::Naming;
use live_roll::Roll;
use std::alloc::{AllocError, Global};
use std::sync::{Mutex, MutexGuard, Wait};

/// What a service tells of itself: the kinds that have an agent, rising, each once; how many workers serve clients; and
/// how many of them serve one now.
#[derive(Debug, Drop)]
pub struct ServiceView {
    pub kinds: Vec<Kind>,
    pub workers: u32,
    pub served: u32,
}

/// What there is to tell of this table and this roll, neither of which it changes. Fails for want of memory alone.
pub fn view_of<H: HangEnd, J: Naming>(
    alloc: Global,
    table: &Questions,
    roll: &Roll<H, J>,
) -> Result<ServiceView, AllocError>
    ensures told { IfOk result (λ view. told_by view ≡ service_of table.now roll.now) }
    ensures rising { IfOk result (λ view. KindsRise view.kinds.items) }
{
    let kinds = table.kinds(alloc)?;
    let workers = roll.workers();
    let served = roll.served();
    Ok(ServiceView {
        kinds,
        workers,
        served,
    })
}

/// What there is to tell of a table and a roll under their locks, which are handed out still held: so it is said of one
/// moment. The table's lock is taken first. May wait for both.
pub(crate) fn view_under<'a, R: Wait, H: HangEnd, J: Naming>(
    rt: &R,
    alloc: Global,
    questions: &'a QuestionDesk,
    roll: &'a Mutex<Roll<H, J>>,
) -> (
    MutexGuard<'a, Questions>,
    MutexGuard<'a, Roll<H, J>>,
    Result<ServiceView, AllocError>,
)
    ensures told { IfOk result.2
        (λ view. told_by view ≡ service_of (mutex_guard_value result.0) (mutex_guard_value result.1)) }
    ensures rising { IfOk result.2 (λ view. KindsRise view.kinds.items) }
{
    let table = questions.table.lock(rt);
    let roll = roll.lock(rt);
    let view = view_of(alloc, &*table, &*roll);
    (table, roll, view)
}
