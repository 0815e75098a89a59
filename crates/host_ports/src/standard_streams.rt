//! Readers and writers of std as sources and sinks. They tell their content where the reader or the writer does: those
//! in memory do, standard input and output do not.

ghost use Rattle.std.specs.Prelude.{◌≡◌};

use desk_ports::{Failed, Sink, Source};
use std::io::{self, ErrorKind, Read, Write};

/// How often an interrupted call is tried again before it counts as failed.
const MOST_TRIES: u32 = 4_294_967_295;

/// A source over a reader. A call that was interrupted is tried again; each other error of the reader is counted, and
/// the last one kept.
#[derive(Drop)]
pub struct InputSource<R: Read + Drop> {
    pub reader: R,
    pub faults: u64,
    pub failure: Option<io::Error>,
}

impl<R: Read + Drop> InputSource<R> {
    /// A source over the reader, no call of which has failed.
    pub fn over(reader: R) -> InputSource<R>
        ensures reader { result.reader ≡ reader }
        ensures faults { result.faults ≡ 0 }
    {
        InputSource {
            reader,
            faults: 0,
            failure: None,
        }
    }
}

impl<R: Read + Drop> Source for InputSource<R> {
    ghost faults = { λ source. source.faults };

    ghost left = { λ source. R.remaining source.reader };

    fn read(&mut self, into: &mut [u8]) -> Result<usize, Failed> {
        let faults = self.faults;
        for _ in 0..MOST_TRIES {
            match self.reader.read(into) {
                Ok(count) => return Ok(count),
                Err(error) if error.kind() == ErrorKind::Interrupted => {}
                Err(error) => {
                    self.failure = Some(error);
                    break;
                }
            }
        }
        self.faults = faults.saturating_add(1);
        Err(Failed)
    }
}

/// A sink over a writer, and a writer of notes for a person, a line each. A call of the first that was interrupted is
/// tried again; each other error of it is counted, and each call in which it took nothing, and the last of these is
/// kept. A note that the second doesn't take is lost.
#[derive(Drop)]
pub struct OutputSink<W: Write + Drop, N: Write + Drop> {
    pub writer: W,
    pub notes: N,
    pub faults: u64,
    pub failure: Option<io::Error>,
}

impl<W: Write + Drop, N: Write + Drop> OutputSink<W, N> {
    /// A sink over the writer, no call of which has failed.
    pub fn over(writer: W, notes: N) -> OutputSink<W, N>
        ensures writer { result.writer ≡ writer }
        ensures notes { result.notes ≡ notes }
        ensures faults { result.faults ≡ 0 }
    {
        OutputSink {
            writer,
            notes,
            faults: 0,
            failure: None,
        }
    }
}

impl<W: Write + Drop, N: Write + Drop> Sink for OutputSink<W, N> {
    ghost faults = { λ sink. sink.faults };

    ghost taken = { λ sink. W.contents sink.writer };

    fn write(&mut self, from: &[u8]) -> Result<usize, Failed> {
        let faults = self.faults;
        for _ in 0..MOST_TRIES {
            match self.writer.write(from) {
                Ok(count) if count > 0 || from.is_empty() => return Ok(count),
                Err(error) if error.kind() == ErrorKind::Interrupted => {}
                Ok(_) => {
                    self.failure = Some(io::Error::from(ErrorKind::WriteZero));
                    break;
                }
                Err(error) => {
                    self.failure = Some(error);
                    break;
                }
            }
        }
        self.faults = faults.saturating_add(1);
        Err(Failed)
    }

    fn note(&mut self, note: &str) {
        let _ = writeln!(self.notes, "{note}");
    }
}
