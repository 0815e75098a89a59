ghost use Rattle.cynara_keys.specs.Limits.{most_short_bytes};
ghost use Rattle.std.specs.Prelude.{◌≡◌, ◌≤◌, length};
ghost use Rattle.cynara_keys.specs.Text.{same_text};
ghost use Rattle.std.specs.Cmp.{partial_equiv_from_equiv};
ghost use Rattle.std.proofs.lemmas.Cmp.{nat_list_eq_equiv};

use crate::MOST_SHORT_BYTES;
use std::marker::Model;

/// A list of at most 255 bytes in a fixed array: a name or metadata where no memory may be taken.
#[derive(Clone, Copy, Debug)]
pub struct Short {
    count: usize,
    bytes: [u8; MOST_SHORT_BYTES],
}

impl Model for Short {
    ghost use Rattle.std.specs.Prelude.{List, ℕ, take, length};
    ghost use Rattle.std.proofs.Common.{sym};
    ghost use Rattle.cynara_keys.specs.parts.Short.{padded, HoldsText};

    ghost Value = { List ℕ };

    ghost view = { λ short. take short.count short.bytes };

    // Zeros behind the text make the array a function of the text.
    ghost invariant = { λ short. HoldsText short.count short.bytes };

    ghost inverse = { λ text. record { count = length text; bytes = padded text } };

    ghost inverse_ok = { λ short h i. record { count = h.counted i; bytes = sym h.zeros i } };
}

impl Short {
    /// A copy of the bytes, of which there are at most 255. Takes no memory.
    pub fn of(bytes: &[u8]) -> Short
        requires { length bytes.now ≤ most_short_bytes }
        ensures { result ≡ bytes.now }
    {
        let mut array = [0; MOST_SHORT_BYTES];
        array[..bytes.len()].copy_from_slice(bytes);
        Short {
            count: bytes.len(),
            bytes: array,
        }
    }

    /// The bytes, as they were given.
    pub fn as_slice(&self) -> &[u8]
        ensures bytes { result.now ≡ self.now }
        ensures short { length self.now ≤ most_short_bytes }
    {
        &self.bytes[..self.count]
    }
}

impl PartialEq for Short {
    ghost eq = { same_text };

    ghost laws = { partial_equiv_from_equiv nat_list_eq_equiv };

    fn eq(&self, other: &Short) -> bool {
        self.as_slice() == other.as_slice()
    }
}

impl Eq for Short {
    ghost laws = { nat_list_eq_equiv };
}
