// The last lines of runs, written in pieces: there may be no memory to print one.
ghost use Rattle.std.specs.Prelude.{◌≡◌, ◌++◌, decimal, codes, OnOk, OnErr};
ghost use Rattle.desk_ports.specs.Faults.{CountsFailure};
ghost use Rattle.desk_ports.specs.Content.{Appended, AppendedPart};
ghost use Rattle.run_endings.specs.LastLine.{words_text, reply_text, line_text, damaged_text, too_long_text};

use desk_ports::{Failed, FileName, Sink, write_all};
use itoa::Buffer;

/// `fault command line` with its newline.
#[tactic(auto, unfolding(crate::specs::LastLine::words_text))]
pub fn words_line() -> &'static [u8]
    ensures { result.now ≡ words_text }
{
    b"fault command line\n"
}

/// `fault reply` with its newline.
#[tactic(auto, unfolding(crate::specs::LastLine::reply_text))]
pub fn reply_line() -> &'static [u8]
    ensures { result.now ≡ reply_text }
{
    b"fault reply\n"
}

/// Has the sink take `syntax LINE` with its newline. Fails at the first call of the sink that does; a front of the line
/// was then taken, not all.
#[tactic(auto, unfolding(crate::specs::LastLine::line_text))]
pub fn write_line_fault<K: Sink>(line: u32, sink: &mut K) -> Result<(), Failed>
    ensures ok { OnOk result (Appended (K.taken sink.old) (line_text line) (K.taken sink.new)) }
    ensures err { OnErr result (AppendedPart (K.taken sink.old) (line_text line) (K.taken sink.new)) }
    ensures count { CountsFailure result (K.faults sink.old) (K.faults sink.new) }
{
    write_all(sink, b"syntax ")?;
    write_last_number(sink, line as u64)
}

/// Has the sink take `fault too-long LENGTH` with its newline. Fails as `write_line_fault` does.
#[tactic(auto, unfolding(crate::specs::LastLine::too_long_text))]
pub fn write_too_long<K: Sink>(length: u64, sink: &mut K) -> Result<(), Failed>
    ensures ok { OnOk result (Appended (K.taken sink.old) (too_long_text length) (K.taken sink.new)) }
    ensures err { OnErr result (AppendedPart (K.taken sink.old) (too_long_text length) (K.taken sink.new)) }
    ensures count { CountsFailure result (K.faults sink.old) (K.faults sink.new) }
{
    write_all(sink, b"fault too-long ")?;
    write_last_number(sink, length)
}

/// Has the sink take `damaged FILE LINE` with its newline. Fails as `write_line_fault` does.
#[tactic(auto, unfolding(crate::specs::LastLine::damaged_text))]
pub fn write_damage<K: Sink>(file: &FileName, line: u32, sink: &mut K) -> Result<(), Failed>
    ensures ok { OnOk result (Appended (K.taken sink.old) (damaged_text file.now line) (K.taken sink.new)) }
    ensures err { OnErr result (AppendedPart (K.taken sink.old) (damaged_text file.now line) (K.taken sink.new)) }
    ensures count { CountsFailure result (K.faults sink.old) (K.faults sink.new) }
{
    write_all(sink, b"damaged ")?;
    write_name(sink, file)?;
    write_all(sink, b" ")?;
    write_last_number(sink, line as u64)
}

fn write_name<K: Sink>(sink: &mut K, name: &FileName) -> Result<(), Failed>
    ensures ok { OnOk result (Appended (K.taken sink.old) name.now (K.taken sink.new)) }
    ensures err { OnErr result (AppendedPart (K.taken sink.old) name.now (K.taken sink.new)) }
    ensures count { CountsFailure result (K.faults sink.old) (K.faults sink.new) }
{
    write_all(sink, name.as_slice())
}

// The number that a line ends with.
fn write_last_number<K: Sink>(sink: &mut K, number: u64) -> Result<(), Failed>
    ensures ok { OnOk result (Appended (K.taken sink.old) (decimal number ++ codes "\n") (K.taken sink.new)) }
    ensures err { OnErr result (AppendedPart (K.taken sink.old) (decimal number ++ codes "\n") (K.taken sink.new)) }
    ensures count { CountsFailure result (K.faults sink.old) (K.faults sink.new) }
{
    write_number(sink, number)?;
    write_all(sink, b"\n")
}

fn write_number<K: Sink>(sink: &mut K, number: u64) -> Result<(), Failed>
    ensures ok { OnOk result (Appended (K.taken sink.old) (decimal number) (K.taken sink.new)) }
    ensures err { OnErr result (AppendedPart (K.taken sink.old) (decimal number) (K.taken sink.new)) }
    ensures count { CountsFailure result (K.faults sink.old) (K.faults sink.new) }
{
    write_all(sink, Buffer::new().format(number).as_bytes())
}
