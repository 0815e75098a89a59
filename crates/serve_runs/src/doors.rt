// The doors of a service: opened, knocked at, and closed.
ghost use Rattle.std.specs.Prelude.{◌≡◌, ◌+◌, ◌<◌, ◌≤◌, ◌++◌, ◌∷◌, [], length, map, vec_len, vec_capacity, Some, IfOk};
ghost use Rattle.std.specs.Prelude.{IfErr, OnOk};
ghost use Rattle.std.specs.List.{AllZip, AllByRecursion};
ghost use Rattle.std.specs.Option.{option_to_list};
ghost use Rattle.link_ports.specs.Told.{IfTold};
ghost use Rattle.serve_runs.specs.Serving.{EndsUnopened, ClosesDoors};
ghost use Rattle.serve_runs.specs.parts.Pools.{handler_of, handlers_of, door_of, StandsAt, CountsDoor};
ghost use Rattle.serve_runs.specs.parts.Administering.{Knocks};
ghost use Rattle.serve_runs.specs.declared.pools.Worker.{Worker};

use crate::pools::{AGENT_WORKERS, Station, Worker, put, put_back};
use desk_ports::PortFault;
use desk_server::ClientHandler;
use link_ports::{DoorKind, Net};
use live_desk::Naming;
use run_endings::Ending;

/// Opens a door of this kind.
pub(crate) fn open<N: Net>(net: &mut N, kind: DoorKind) -> Result<N::Door, Ending>
    ensures fresh { IfOk result (λ opened. N.Door.faults opened ≡ 0) }
    ensures of_kind { IfOk result (λ opened. N.Door.kind opened ≡ Some kind) }
    ensures unused { IfOk result (λ opened. IfTold (N.Door.given_back opened) (λ links. links ≡ [])) }
    ensures refused { IfErr result (λ ending. EndsUnopened ending (N.faults net.old) (N.faults net.new)) }
    ensures no_less { N.faults net.old ≤ N.faults net.new }
    ensures closed { N.closed net.new ≡ N.closed net.old }
{
    match net.door(kind) {
        Ok(door) => Ok(door),
        Err(PortFault::Failed) => Err(Ending::Net),
        Err(PortFault::Memory(_)) => Err(Ending::Memory),
    }
}

/// Puts a worker of each of these stations into the pool, in turn, at a door that it opens, until one is refused.
#[tactic(auto, using(crate::proofs::Closing::unopened_since))]
pub(crate) fn open_doors<N: Net, J: Naming, X: ClientHandler>(
    net: &mut N,
    stations: Vec<Station<J, X>>,
    pool: &mut Vec<Worker<J, N::Door, X>>,
) -> Result<(), Ending>
    requires empty { pool.old.items ≡ [] }
    requires room { length stations.items ≤ vec_capacity pool.old }
    ensures refused { IfErr result (λ ending. EndsUnopened ending (N.faults net.old) (N.faults net.new)) }
    ensures no_less { N.faults net.old ≤ N.faults net.new }
    ensures closed { N.closed net.new ≡ N.closed net.old }
    ensures few { vec_len pool.new ≤ length stations.items }
    ensures opened { OnOk result (AllZip (StandsAt N.Door.given_back N.Door.faults N.Door.kind)
        stations.items pool.new.items) }
{
    for station in stations {
        if let Err(ending) = open_one(net, station, pool) {
            return Err(ending);
        }
    }
    Ok(())
}

// Puts a worker of this station into the pool, at a door that it opens.
fn open_one<N: Net, J: Naming, X: ClientHandler>(
    net: &mut N,
    station: Station<J, X>,
    pool: &mut Vec<Worker<J, N::Door, X>>,
) -> Result<(), Ending>
    requires { vec_len pool.old < vec_capacity pool.old }
    ensures refused { IfErr result (λ ending. EndsUnopened ending (N.faults net.old) (N.faults net.new)) }
    ensures no_less { N.faults net.old ≤ N.faults net.new }
    ensures closed { N.closed net.new ≡ N.closed net.old }
    ensures opened { OnOk result ((worker : Worker _ _ _) × (pool.new.items ≡ pool.old.items ++ worker ∷ [])
        × StandsAt N.Door.given_back N.Door.faults N.Door.kind station worker) }
    ensures few { vec_len pool.new ≤ vec_len pool.old + 1 }
    ensures capacity { vec_capacity pool.old ≤ vec_capacity pool.new }
{
    match open(net, station.kind()) {
        Ok(door) => {
            put(pool, Worker::at(station, door));
            Ok(())
        }
        Err(ending) => Err(ending),
    }
}

/// Knocks once for each worker: for so many of clients, for those of agents, and for that of administrators. None of
/// them waits at its door then.
pub(crate) fn knock_all<N: Net>(net: &mut N, clients: u32)
    ensures { Knocks N.faults N.closed net.old net.new }
{
    knock(net, DoorKind::Client, clients);
    knock(net, DoorKind::Agent, AGENT_WORKERS);
    knock(net, DoorKind::Admin, 1);
}

// Knocks so often at a kind.
fn knock<N: Net>(net: &mut N, kind: DoorKind, times: u32)
    ensures { Knocks N.faults N.closed net.old net.new }
{
    for _ in 0..times {
        net.knock(kind);
    }
}

/// Closes the doors of the pool, in turn, and hands back what its workers of clients do beside. The list has room for
/// that.
#[tactic(auto, using(crate::proofs::Closing::closes_none))]
pub(crate) fn close_doors<N: Net, J: Naming, X: ClientHandler>(
    net: &mut N,
    room: Vec<X>,
    pool: Vec<Worker<J, N::Door, X>>,
) -> Vec<X>
    requires empty { room.items ≡ [] }
    requires room { vec_len room + length pool.items ≤ vec_capacity room }
    ensures no_less { N.faults net.old ≤ N.faults net.new }
    ensures closed { ClosesDoors (N.closed net.old) (map door_of pool.items) (N.closed net.new) }
    ensures counted { AllByRecursion (λ door. CountsDoor (N.Door.faults door) (N.faults net.old) (N.faults net.new))
        (map door_of pool.items) }
    ensures handlers { result.items ≡ handlers_of pool.items }
{
    let mut handlers = room;
    for worker in pool {
        close_one(net, &mut handlers, worker);
    }
    handlers
}

// Closes the door of this worker, and hands back what it does beside serving clients, where it serves them.
fn close_one<N: Net, J: Naming, X: ClientHandler>(
    net: &mut N,
    handlers: &mut Vec<X>,
    worker: Worker<J, N::Door, X>,
)
    requires { vec_len handlers.old < vec_capacity handlers.old }
    ensures no_less { N.faults net.old ≤ N.faults net.new }
    ensures closed { ClosesDoors (N.closed net.old) (door_of worker ∷ []) (N.closed net.new) }
    ensures counted { CountsDoor (N.Door.faults (door_of worker)) (N.faults net.old) (N.faults net.new) }
    ensures items { handlers.new.items ≡ handlers.old.items ++ option_to_list (handler_of worker) }
    ensures len { vec_len handlers.new ≤ vec_len handlers.old + 1 }
    ensures capacity { vec_capacity handlers.old ≤ vec_capacity handlers.new }
{
    let (door, handler) = worker.leave();
    net.close(door);
    put_back(handlers, handler);
}
