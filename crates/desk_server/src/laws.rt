// What holds of all records. These functions do nothing; their clauses are the laws.
ghost use Rattle.std.specs.Prelude.{◌≡◌, ◌⊎◌, ◌++◌, ◌+◌, ◌≤◌, List, length};
ghost use Rattle.desk_ports.specs.Faults.{last_count};
ghost use Rattle.check_monitor.specs.Monitor.{RecorderState};
ghost use Rattle.client_door.specs.declared.judgements.Judgement.{Judgement};
ghost use Rattle.monitor_rule.specs.declared.entries.Entry.{Entry};
ghost use Rattle.desk_server.specs.Clients.{VisitsClients};
ghost use Rattle.desk_server.specs.Monitored.{Post, VisitsWatched};
ghost use Rattle.desk_server.specs.Monitoring.{RecordsEach, IsPart, AreEntriesFrom};
ghost use Rattle.desk_server.specs.Visit.{Visit, InTurn};

use link_ports::Link;

/// Each check that is recorded is put or counted as missed: what a recorder put and missed rises by as many as were
/// recorded, unless the count of missed ones stands at its last value.
pub fn each_record_puts_or_misses()
    ensures { (judged : List Judgement) (old new : RecorderState) → old.missed ≤ last_count → RecordsEach old judged new
        → ((length new.put + new.missed ≡ length old.put + old.missed + length judged) ⊎ (new.missed ≡ last_count)) }
{}

/// The entries that were put are those of the checks that were recorded, in their order, without those that were
/// missed; and their numbers go on where the recorder's entries ended.
pub fn what_is_put_is_what_was_judged()
    ensures { (judged : List Judgement) (old new : RecorderState) → RecordsEach old judged new
        → (put : List Judgement) × (entries : List Entry) × IsPart put judged
        × AreEntriesFrom old.worker (length old.put) put entries × (new.put ≡ old.put ++ entries) }
{}

/// A worker whose checks are recorded answers its connections as one whose checks are not.
pub fn watched_clients_are_served_as_others<L: Link>()
    ensures { (start : Post) (visits : List (Visit L)) (now : Post)
        → InTurn (VisitsWatched L.traffic L.marks L.faults) start visits now
        → InTurn (VisitsClients L.traffic L.marks L.faults) start.seat visits now.seat }
{}
