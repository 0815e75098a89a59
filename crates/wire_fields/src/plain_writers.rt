// The plain fields of messages, appended to a frame: numbers, flags, kinds, counts and texts.
ghost use Rattle.std.specs.Prelude.{◌≡◌, ◌∷◌, [], OnErr};
ghost use Rattle.std.specs.Int.{w16, w32, w64, to_be_bytes};
ghost use Rattle.wire_fields.specs.Format as format;
ghost use Rattle.wire_fields.specs.Field as field;
ghost use Rattle.wire_fields.specs.Appended.{Appended};

use byteorder::{BigEndian, ByteOrder};
use cynara_keys::Kind;
use desk_ports::Bytes;
use std::alloc::AllocError;

/// Puts one byte.
pub fn put1(out: &mut Bytes, n: u8) -> Result<(), AllocError>
    ensures { Appended result out.old out.new (n ∷ []) }
{
    out.append(&[n])
}

/// Puts two bytes, most significant first.
pub fn put2(out: &mut Bytes, n: u16) -> Result<(), AllocError>
    ensures { Appended result out.old out.new (to_be_bytes w16 n) }
{
    let mut bytes = [0; 2];
    BigEndian::write_u16(&mut bytes, n);
    out.append(&bytes)
}

/// Puts four bytes, most significant first.
pub fn put4(out: &mut Bytes, n: u32) -> Result<(), AllocError>
    ensures { Appended result out.old out.new (to_be_bytes w32 n) }
{
    let mut bytes = [0; 4];
    BigEndian::write_u32(&mut bytes, n);
    out.append(&bytes)
}

/// Puts eight bytes, most significant first.
pub fn put8(out: &mut Bytes, n: u64) -> Result<(), AllocError>
    ensures { Appended result out.old out.new (to_be_bytes w64 n) }
{
    let mut bytes = [0; 8];
    BigEndian::write_u64(&mut bytes, n);
    out.append(&bytes)
}

/// Puts 1 for true and 0 for false.
pub fn put_flag(out: &mut Bytes, flag: bool) -> Result<(), AllocError>
    ensures { Appended result out.old out.new (format.flag.spelled flag) }
{
    if flag { put1(out, 1) } else { put1(out, 0) }
}

/// Puts the number of a kind of result, in two bytes.
pub fn put_kind(out: &mut Bytes, kind: Kind) -> Result<(), AllocError>
    ensures { Appended result out.old out.new (field.kind.spelled kind) }
{
    put2(out, kind.0)
}

/// Puts how many there are, in four bytes.
pub fn put_count(out: &mut Bytes, count: usize) -> Result<(), AllocError>
    ensures { Appended result out.old out.new (to_be_bytes w32 count) }
{
    let mut bytes = [0; 8];
    BigEndian::write_u64(&mut bytes, count as u64);
    out.append(&bytes[4..])
}

/// Puts a text behind the number of its bytes, which has two bytes. Where it finds no memory, the buffer stays as it
/// was.
pub fn put_text(out: &mut Bytes, text: &[u8]) -> Result<(), AllocError>
    ensures appended { Appended result out.old out.new (format.text.spelled text.now) }
    ensures kept { OnErr result (out.new ≡ out.old) }
{
    let mut count = [0; 8];
    BigEndian::write_u64(&mut count, text.len() as u64);
    out.append_both(&count[6..], text)
}

/// Puts a byte, and a text as `put_text` does.
pub fn put1_and_text(out: &mut Bytes, n: u8, text: &[u8]) -> Result<(), AllocError>
    ensures { Appended result out.old out.new (n ∷ format.text.spelled text.now) }
{
    let mut count = [0; 8];
    BigEndian::write_u64(&mut count, text.len() as u64);
    out.append_both(&[n, count[6], count[7]], text)
}

/// Puts bytes of a file behind their number, which has four bytes.
pub fn put_part(out: &mut Bytes, part: &[u8]) -> Result<(), AllocError>
    ensures { Appended result out.old out.new (field.file_part.spelled part.now) }
{
    let mut count = [0; 8];
    BigEndian::write_u64(&mut count, part.len() as u64);
    out.append_both(&count[4..], part)
}
