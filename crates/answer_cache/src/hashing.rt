// Hashes the texts that entries stand under.
ghost use Rattle.std.specs.Prelude.{◌≡◌};
ghost use Rattle.answer_cache.specs.parts.Hashing as hashing;

use std::hash::Hasher;

/// A hasher for texts. A text comes byte by byte, and a byte costs a rotation: std's hasher multiplies for each, which
/// takes longer than all else of a look-up. Of a number that comes with several bytes the lowest counts.
#[derive(Clone, Copy)]
pub struct TextHasher {
    state: u64,
}

impl Default for TextHasher {
    ghost is_default = { λ hasher. hasher ≡ hashing.initial };

    fn default() -> TextHasher {
        TextHasher {
            state: 0x243f_6a88_85a3_08d3,
        }
    }
}

impl Hasher for TextHasher {
    ghost write = { hashing.write };

    ghost finish = { hashing.finish };

    fn finish(&self) -> u64 {
        mixed(self.state)
    }

    fn write(&mut self, bytes: &[u8]) {
        self.state = step(self.state, first(bytes));
    }
}

fn first(bytes: &[u8]) -> u64
    ensures { result ≡ hashing.first bytes.now }
{
    match bytes.first() {
        Some(byte) => u64::from(*byte),
        None => 0,
    }
}

// Seven bits to the left, round, and the byte.
fn step(state: u64, byte: u64) -> u64
    ensures { result ≡ hashing.step state byte }
{
    (state << 7 | state >> 57) ^ byte
}

fn mixed(state: u64) -> u64
    ensures { result ≡ hashing.mixed state }
{
    let product = state.wrapping_mul(0x9e37_79b9_7f4a_7c15);
    product ^ (product >> 32)
}
