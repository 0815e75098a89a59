// What is left of a frame, and the plain fields at its front.
ghost use Rattle.std.specs.Prelude.{◌≡◌, ◌≤◌, ◌==◌, length};
ghost use Rattle.std.specs.Int.{w8, w16, w32, w64};
ghost use Rattle.wire_fields.specs.Left.{IsBytes, Gives, GivesText, OnMemory, place};
ghost use Rattle.wire_fields.specs.Format.{number, text, sized, behind};

use crate::WireRefusal;
use std::marker::Model;

/// The fields of a frame that are left to read.
#[derive(Drop)]
pub struct Fields<'a> {
    end: u32,
    rest: &'a [u8],
}

impl<'a> Model for Fields<'a> {
    ghost use Rattle.wire_fields.specs.Left.{Left, IsLeft};

    ghost Value = { Left };

    ghost view = { λ fields. record { end = fields.end; rest = fields.rest.now } };

    ghost invariant = { λ fields. IsLeft (record { end = fields.end; rest = fields.rest.now }) };
}

impl<'a> Fields<'a> {
    /// All bytes of a frame.
    pub fn of(frame: &'a [u8]) -> Fields<'a>
        requires { length frame.now ≤ 1048580 }
        ensures { result ≡ record { end = length frame.now; rest = frame.now } }
    {
        Fields {
            end: frame.len() as u32,
            rest: frame,
        }
    }

    /// Steps over the length of a frame.
    pub fn skip_length(&mut self)
        requires { 4 ≤ length self.old.rest }
        ensures { self.new ≡ behind 4 self.old }
    {
        self.rest = &self.rest[4..];
    }

    /// The bytes that are left.
    pub fn rest(&self) -> &'a [u8]
        ensures rest { result.now ≡ self.now.rest }
        ensures bytes { IsBytes result.now }
    {
        known_bytes(self.rest)
    }

    /// Whether no byte is left.
    pub fn is_empty(&self) -> bool
        ensures { result ≡ (length self.now.rest == 0) }
    {
        self.rest.is_empty()
    }

    /// The place of the next byte.
    pub fn place(&self) -> u32
        ensures { result ≡ place self.now }
    {
        self.end - self.rest.len() as u32
    }

    /// The next byte, as a number. Refused where no byte is left.
    pub fn number1(&mut self) -> Result<u8, WireRefusal>
        ensures read { Gives result self.new ((number w8).read self.old) }
        ensures memory { OnMemory result ⊥ }
    {
        let Some((first, rest)) = self.rest.split_first() else {
            return Err(WireRefusal::BadField(self.place()));
        };
        self.rest = rest;
        Ok(*first)
    }

    /// The next two bytes, most significant first. Refused where fewer are left.
    pub fn number2(&mut self) -> Result<u16, WireRefusal>
        ensures read { Gives result self.new ((number w16).read self.old) }
        ensures memory { OnMemory result ⊥ }
    {
        if self.rest.len() < 2 {
            return Err(WireRefusal::BadField(self.place()));
        }
        let (front, rest) = self.rest.split_at(2);
        self.rest = rest;
        Ok(u16::from_be_bytes([front[0], front[1]]))
    }

    /// The next four bytes, most significant first. Refused where fewer are left.
    pub fn number4(&mut self) -> Result<u32, WireRefusal>
        ensures { Gives result self.new ((number w32).read self.old) }
    {
        if self.rest.len() < 4 {
            return Err(WireRefusal::BadField(self.place()));
        }
        let (front, rest) = self.rest.split_at(4);
        self.rest = rest;
        Ok(u32::from_be_bytes([front[0], front[1], front[2], front[3]]))
    }

    /// The next eight bytes, most significant first. Refused where fewer are left.
    pub fn number8(&mut self) -> Result<u64, WireRefusal>
        ensures { Gives result self.new ((number w64).read self.old) }
    {
        if self.rest.len() < 8 {
            return Err(WireRefusal::BadField(self.place()));
        }
        let (front, rest) = self.rest.split_at(8);
        self.rest = rest;
        Ok(u64::from_be_bytes([
            front[0], front[1], front[2], front[3], front[4], front[5], front[6], front[7],
        ]))
    }

    /// The bytes of a text field, which are not copied.
    pub fn text(&mut self) -> Result<&'a [u8], WireRefusal>
        ensures read { GivesText result self.new (text.read self.old) }
        ensures memory { OnMemory result ⊥ }
    {
        let place = self.place();
        let count = usize::from(self.number2()?);
        if self.rest.len() < count {
            return Err(WireRefusal::BadField(place));
        }
        let (front, rest) = self.rest.split_at(count);
        self.rest = rest;
        Ok(front)
    }

    /// The bytes of a field whose number of bytes has four bytes. They are not copied.
    pub fn long_text(&mut self) -> Result<&'a [u8], WireRefusal>
        ensures { GivesText result self.new ((sized w32).read self.old) }
    {
        let place = self.place();
        let count = self.number4()? as usize;
        if self.rest.len() < count {
            return Err(WireRefusal::BadField(place));
        }
        let (front, rest) = self.rest.split_at(count);
        self.rest = rest;
        Ok(front)
    }
}

// The same bytes. A function knows of what it is given that each byte is below 256; this one tells it to its caller.
fn known_bytes(bytes: &[u8]) -> &[u8]
    ensures same { result.now ≡ bytes.now }
    ensures bytes { IsBytes result.now }
{
    bytes
}
