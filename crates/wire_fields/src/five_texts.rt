// Five texts in one block of memory, one behind the other.
ghost use Rattle.std.specs.Prelude.{◌≡◌, ◌<◌, ◌+◌, IfOk, length};

use std::alloc::{AllocError, Global};
use std::marker::Model;

#[derive(Drop)]
pub struct FiveTexts {
    bytes: Vec<u8>,
    // Where each text behind the first begins.
    second: u16,
    third: u16,
    fourth: u16,
    fifth: u16,
}

impl Model for FiveTexts {
    ghost use Rattle.wire_fields.specs.parts.FiveTexts.{Texts, texts, ArePlaces};

    ghost Value = { Texts };

    ghost view = { λ five. texts five.bytes.items five.second five.third five.fourth five.fifth };

    ghost invariant = { λ five. ArePlaces five.bytes.items five.second five.third five.fourth five.fifth };
}

impl FiveTexts {
    /// Copies of these texts, which have fewer than 65,536 bytes together. Asks for memory once, and not at all where
    /// each is empty.
    pub fn of(
        alloc: Global,
        first: &[u8],
        second: &[u8],
        third: &[u8],
        fourth: &[u8],
        fifth: &[u8],
    ) -> Result<FiveTexts, AllocError>
        requires { length first.now + (length second.now
            + (length third.now + (length fourth.now + length fifth.now))) < 65536 }
        ensures { IfOk result (λ five. five ≡ record {
          first = first.now;
          second = second.now;
          third = third.now;
          fourth = fourth.now;
          fifth = fifth.now;
        }) }
    {
        let at_third = first.len() + second.len();
        let at_fourth = at_third + third.len();
        let at_fifth = at_fourth + fourth.len();
        let mut bytes = Vec::with_capacity(alloc, at_fifth + fifth.len())?;
        bytes.extend_from_slice(first)?;
        bytes.extend_from_slice(second)?;
        bytes.extend_from_slice(third)?;
        bytes.extend_from_slice(fourth)?;
        bytes.extend_from_slice(fifth)?;
        Ok(FiveTexts {
            bytes,
            second: first.len() as u16,
            third: at_third as u16,
            fourth: at_fourth as u16,
            fifth: at_fifth as u16,
        })
    }

    /// The first text.
    pub fn first(&self) -> &[u8]
        ensures { result.now ≡ self.now.first }
    {
        &self.bytes[..usize::from(self.second)]
    }

    /// The second text.
    pub fn second(&self) -> &[u8]
        ensures { result.now ≡ self.now.second }
    {
        &self.bytes[usize::from(self.second)..usize::from(self.third)]
    }

    /// The third text.
    pub fn third(&self) -> &[u8]
        ensures { result.now ≡ self.now.third }
    {
        &self.bytes[usize::from(self.third)..usize::from(self.fourth)]
    }

    /// The fourth text.
    pub fn fourth(&self) -> &[u8]
        ensures { result.now ≡ self.now.fourth }
    {
        &self.bytes[usize::from(self.fourth)..usize::from(self.fifth)]
    }

    /// The fifth text.
    pub fn fifth(&self) -> &[u8]
        ensures { result.now ≡ self.now.fifth }
    {
        &self.bytes[usize::from(self.fifth)..]
    }
}
