// The log as a whole.
ghost use Rattle.std.specs.Prelude.{◌≡◌, OnOk};
ghost use Rattle.ctl_log.specs.Wanting as word;

use crate::entries::LogLine;
use crate::objects::put_object;
use crate::reading::read_line;
use crate::wants::Wanted;
use desk_ports::{Bytes, Failed, Sink, Source, write_all};
use std::alloc::{AllocError, Global};
use text_lines::split_at_newline;

/// How many bytes are read at once, at most.
const WINDOW: usize = 65_536;

/// The longest line. What goes past it is a line of its own.
const MOST_LINE_BYTES: usize = 65_536;

/// How the reading of a log ended.
#[derive(Clone, Copy, Debug, PartialEq, Eq)]
pub enum LogEnd {
    Done,
    Source,
    Sink,
    Memory,
}

/// Reads the log of the source to its end, and writes each line that is wanted, as it came or as a line of JSON. Lines
/// that tell of no check, as `missed`, are always passed on. What was read is written before more is read. It may wait.
pub fn pass_on<S: Source, K: Sink>(
    alloc: Global,
    wanted: &Wanted<'_>,
    is_json: bool,
    source: &mut S,
    sink: &mut K,
) -> LogEnd {
    let Ok(mut room) = vec![in alloc; 0u8; WINDOW] else {
        return LogEnd::Memory;
    };
    let mut held = Bytes::new(alloc);
    for _ in 0..u64::MAX {
        let count = match source.read(&mut room) {
            Ok(count) => count,
            Err(Failed) => return LogEnd::Source,
        };
        let is_last = count == 0;
        let Ok(out) = turn(alloc, wanted, is_json, &mut held, &room[..count], is_last) else {
            return LogEnd::Memory;
        };
        if write_all(sink, out.as_slice()).is_err() {
            return LogEnd::Sink;
        }
        if is_last {
            break;
        }
    }
    LogEnd::Done
}

// What is written of the bytes that are held and those behind them. The line that is not at its end is held from then
// on.
fn turn(
    alloc: Global,
    wanted: &Wanted<'_>,
    is_json: bool,
    held: &mut Bytes,
    more: &[u8],
    is_last: bool,
) -> Result<Bytes, AllocError> {
    held.append(more)?;
    let mut out = Bytes::new(alloc);
    let mut rest = held.as_slice();
    while let Some((line, behind)) = split_at_newline(rest) {
        put_line(&mut out, wanted, is_json, line)?;
        rest = behind;
    }
    if !rest.is_empty() && (is_last || rest.len() > MOST_LINE_BYTES) {
        put_line(&mut out, wanted, is_json, rest)?;
        rest = &[];
    }
    let mut kept = Bytes::new(alloc);
    kept.append(rest)?;
    *held = kept;
    Ok(out)
}

// Writes the line, where it is wanted.
fn put_line(
    out: &mut Bytes,
    wanted: &Wanted<'_>,
    is_json: bool,
    bytes: &[u8],
) -> Result<(), AllocError>
    ensures { OnOk result (word.Writes wanted.now is_json bytes.now out.old out.new) }
{
    let line = read_line(bytes);
    put_read(out, wanted, is_json, &line, bytes)
}

// Writes what was read of these bytes, where it is wanted.
fn put_read(
    out: &mut Bytes,
    wanted: &Wanted<'_>,
    is_json: bool,
    line: &LogLine<'_>,
    bytes: &[u8],
) -> Result<(), AllocError>
    ensures { OnOk result (word.IsWritten (word.is_wanted wanted.now line.now) is_json bytes.now out.old out.new) }
{
    if !is_wanted(wanted, line) {
        return Ok(());
    }
    if is_json {
        return put_object(out, line, bytes);
    }
    out.append(bytes)?;
    out.append(b"\n")
}

fn is_wanted(wanted: &Wanted<'_>, line: &LogLine<'_>) -> bool
    ensures { result ≡ word.is_wanted wanted.now line.now }
{
    match line {
        LogLine::Check(entry) => wanted.takes(entry),
        LogLine::Missed { .. } => true,
        LogLine::Other => true,
    }
}
