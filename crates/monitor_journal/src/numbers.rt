// Numbers as text.
ghost use Rattle.std.specs.Prelude.{◌≡◌, ◌++◌, ◌<◌, decimal, OnOk, OnErr};
ghost use Rattle.monitor_journal.specs.Lines.{digit, moment_text, time_text};
ghost use Rattle.monitor_journal.specs.parts.Appending.{Lengthens};

use desk_ports::Bytes;
use itoa::Buffer;
use monitor_rule::Moment;
use std::alloc::AllocError;

/// Appends a number in decimal. Where memory runs out, a front of the text may stand at the end.
pub(crate) fn append_number(out: &mut Bytes, number: u64) -> Result<(), AllocError>
    ensures ok { OnOk result (out.new ≡ out.old ++ decimal number) }
    ensures err { OnErr result (Lengthens out.old out.new) }
{
    out.append(Buffer::new().format(number).as_bytes())
}

/// Appends the time, or `-` where none is told. Where memory runs out, a front of the text may stand at the end.
pub(crate) fn append_time(out: &mut Bytes, time: Option<Moment>) -> Result<(), AllocError>
    ensures ok { OnOk result (out.new ≡ out.old ++ time_text time) }
    ensures err { OnErr result (Lengthens out.old out.new) }
{
    match time {
        Some(moment) => append_moment(out, moment),
        None => out.append(b"-"),
    }
}

fn append_moment(out: &mut Bytes, moment: Moment) -> Result<(), AllocError>
    ensures ok { OnOk result (out.new ≡ out.old ++ moment_text moment) }
    ensures err { OnErr result (Lengthens out.old out.new) }
{
    out.append(&spelled(moment))
}

// A moment as the internet writes dates and times.
fn spelled(moment: Moment) -> [u8; 24]
    ensures { result ≡ moment_text moment }
{
    let Moment {
        year,
        month,
        day,
        hour,
        minute,
        second,
        millisecond,
    } = moment;
    [
        digit(1_000, year),
        digit(100, year),
        digit(10, year),
        digit(1, year),
        b'-',
        digit(10, u16::from(month)),
        digit(1, u16::from(month)),
        b'-',
        digit(10, u16::from(day)),
        digit(1, u16::from(day)),
        b'T',
        digit(10, u16::from(hour)),
        digit(1, u16::from(hour)),
        b':',
        digit(10, u16::from(minute)),
        digit(1, u16::from(minute)),
        b':',
        digit(10, u16::from(second)),
        digit(1, u16::from(second)),
        b'.',
        digit(100, millisecond),
        digit(10, millisecond),
        digit(1, millisecond),
        b'Z',
    ]
}

// The digit of a number that counts units of this size.
fn digit(size: u16, number: u16) -> u8
    requires { 0 < size }
    ensures { result ≡ digit size number }
{
    b'0' + (number / size % 10) as u8
}
