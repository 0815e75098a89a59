//! The ways in which a run ends.

ghost use Rattle.std.specs.Prelude.{◌≡◌, List, ℕ};
ghost use Rattle.desk_ports.specs.Content.{Appended};

use crate::last_lines::{reply_line, words_line, write_damage, write_line_fault, write_too_long};
use desk_ports::{FileName, Sink, write_all};
use std::alloc::AllocError;
use text_lines::ReadRefusal;

/// How a run ends: with its work done, or by the first thing that stopped it.
#[derive(Debug, Drop)]
pub enum Ending {
    /// The command did its work.
    Done,
    /// Memory ran out.
    Memory,
    /// The words are no command.
    Words,
    /// The line with this number, from 1, is outside its grammar.
    Line(u32),
    /// A call of the source failed.
    Source,
    /// A call of the sink failed.
    Sink,
    /// A call of the disk failed.
    Disk,
    /// A call of the net failed.
    Net,
    /// The folder stands for no policy state: the file with the first fault, and the number of its line, from 1, or 0
    /// where the file as a whole is wrong or absent.
    Damaged { file: FileName, line: u32 },
    /// The bytes of a peer were a bad reply.
    Reply,
    /// A step of a script wanted a frame of so many bytes, which is above the limit.
    TooLong(u64),
}

impl Ending {
    ghost use Rattle.run_endings.specs.Ending.{status_of, SinkFaults};
    ghost use Rattle.run_endings.specs.Outside.{SinkSeen, sink_seen};
    ghost use Rattle.run_endings.specs.LastLine.{last_line};
    ghost use Rattle.run_endings.specs.Saying.{Said, IsTried, WritesAnswers, Writes};

    /// The status of the run.
    pub fn status(&self) -> u8
        ensures { result ≡ status_of self.now }
    {
        match self {
            Ending::Done => 0,
            Ending::Memory => 1,
            Ending::Words => 2,
            Ending::Line(_) => 3,
            Ending::Source => 4,
            Ending::Sink => 5,
            Ending::Disk => 6,
            Ending::Net => 7,
            Ending::Damaged { .. } => 8,
            Ending::Reply => 9,
            Ending::TooLong(_) => 10,
        }
    }

    /// Has the sink take the last line of the run, where the ending has one, behind the answers. It takes no memory;
    /// where a call of the sink fails, the line is cut there.
    pub fn write_last_line<K: Sink>(&self, sink: &mut K)
        ensures { (said : Said) (before : SinkSeen)
            → WritesAnswers self.now said before (sink_seen K.taken K.faults sink.old)
            → Writes self.now said before (sink_seen K.taken K.faults sink.new) }
    {
        self.try_last_line(sink);
    }

    // The same, by what is written now.
    fn try_last_line<K: Sink>(&self, sink: &mut K)
        ensures { (last : List ℕ) × Appended (K.taken sink.old) last (K.taken sink.new)
            × IsTried (K.faults sink.old) (K.faults sink.new) (last_line self.now) last }
    {
        // Where the sink fails, its count shows it; the status is that of the ending.
        let _ = match self {
            Ending::Words => write_all(sink, words_line()),
            Ending::Line(line) => write_line_fault(*line, sink),
            Ending::Damaged { file, line } => write_damage(file, *line, sink),
            Ending::Reply => write_all(sink, reply_line()),
            Ending::TooLong(length) => write_too_long(*length, sink),
            _ => Ok(()),
        };
    }
}

impl From<AllocError> for Ending {
    ghost use Rattle.std.specs.Prelude.{◌≡◌};
    ghost use Rattle.run_endings.specs.declared.endings.Ending.TheVariants.{Memory};

    ghost from_gives = { λ _ ending. ending ≡ Memory };

    fn from(_: AllocError) -> Ending {
        Ending::Memory
    }
}

impl From<ReadRefusal> for Ending {
    ghost use Rattle.run_endings.specs.Reading.{RefusesLine};

    ghost from_gives = { RefusesLine };

    fn from(refusal: ReadRefusal) -> Ending {
        match refusal {
            ReadRefusal::PastLimit(line) => Ending::Line(line),
            ReadRefusal::Source => Ending::Source,
            ReadRefusal::Memory(_) => Ending::Memory,
        }
    }
}
