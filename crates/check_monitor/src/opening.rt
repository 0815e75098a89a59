ghost use Rattle.std.specs.Prelude.{◌≡◌, ◌<◌, ◌≤◌, IfOk, OnOk};
ghost use Rattle.check_monitor.specs.Monitor.{new_reader_of, new_recorders, AreAll};

use crate::alarms::Alarm;
use crate::readers::Reader;
use crate::recorders::Recorder;
use crate::running::Line;
use std::alloc::{AllocError, Global};
use std::sync::Arc;

/// How many workers may record.
pub const MOST_WORKERS: u32 = 64;

/// How many entries the queue may have room for.
pub const MOST_ROOM: u32 = 4_096;

/// A recorder for each worker, numbered from 0, and the reader of what they put, over a queue with room for so many
/// entries. Fails for want of memory alone. No other call of the monitor takes any.
pub fn open(alloc: Global, workers: u32, room: u32) -> Result<(Vec<Recorder>, Reader), AllocError>
    requires workers { (0 < workers) × (workers ≤ 64) }
    requires room { (0 < room) × (room ≤ 4096) }
    ensures recorders { IfOk result (λ opened. opened.0.items ≡ new_recorders opened.1.queue room workers) }
    ensures reader { IfOk result (λ opened. opened.1 ≡ new_reader_of opened.1.queue room workers) }
    ensures all { IfOk result (λ opened. AreAll opened.1.queue workers opened.0.items) }
{
    let (queue, pass) = Line::ruled(alloc, room as usize)?;
    let queue = Arc::new(alloc, queue)?;
    let alarm = Arc::new(alloc, Alarm::new())?;
    let mut reader = Reader::of(queue, pass, alarm);
    let recorders = recorders_of(alloc, &mut reader, workers)?;
    Ok((recorders, reader))
}

// A recorder for each worker.
fn recorders_of(
    alloc: Global,
    reader: &mut Reader,
    workers: u32,
) -> Result<Vec<Recorder>, AllocError>
    requires made { 0 ≡ reader.old.made }
    ensures recorders { IfOk result
        (λ recorders. recorders.items ≡ new_recorders reader.old.queue reader.old.room workers) }
    ensures reader { OnOk result (reader.new ≡ record reader.old { made = workers }) }
{
    let mut recorders = Vec::with_capacity(alloc, workers as usize)?;
    for worker in 0..workers {
        recorders.push(reader.recorder(worker)?)?;
    }
    Ok(recorders)
}
