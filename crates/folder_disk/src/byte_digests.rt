// What the bytes of a file come to, by which they are known again without being kept.
use sha2::{Digest, Sha256};
use std::fs;
use std::hash::{BuildHasher, Hasher, RandomState};
use std::io::{self, Read};
use std::random::RandomSource;
use std::rt::Files;

/// Where the machine gives random bytes.
const RANDOM_BYTES: &str = "/dev/urandom";

/// How many bytes a digest has.
const DIGEST_BYTES: usize = 32;

/// What bytes come to, within one run of the program. Two texts of one length that come to the same are not known.
pub type BytesDigest = [u8; DIGEST_BYTES];

/// Two keys that the machine has drawn for this run alone, each of a SipHash. Nobody can choose a text by what it comes
/// to, and two texts come to the same by a chance of 1 in 2 to the 128.
#[derive(Clone, Copy)]
struct Keys {
    first: RandomState,
    second: RandomState,
}

/// Reckons digests.
#[derive(Drop)]
pub struct ByteDigests {
    keys: Option<Keys>,
}

impl ByteDigests {
    /// By keys that the machine draws, or by SHA-256 where it draws none.
    pub fn new<R: Files + Drop>(rt: &R) -> ByteDigests {
        ByteDigests {
            keys: drawn_keys(rt).ok(),
        }
    }

    /// The bytes themselves with zeros behind them, where there is room for that. Else their hashes by the two keys, or
    /// their digest by SHA-256.
    pub fn of(&self, bytes: &[u8]) -> BytesDigest {
        let mut digest = [0; DIGEST_BYTES];
        if let Some(front) = digest.get_mut(..bytes.len()) {
            front.copy_from_slice(bytes);
            return digest;
        }
        match &self.keys {
            Some(keys) => keys.digest_of(bytes),
            None => Sha256::digest(bytes),
        }
    }
}

impl Keys {
    fn digest_of(&self, bytes: &[u8]) -> BytesDigest {
        let mut digest = [0; DIGEST_BYTES];
        digest[..8].copy_from_slice(&hash_by(&self.first, bytes).to_le_bytes());
        digest[8..16].copy_from_slice(&hash_by(&self.second, bytes).to_le_bytes());
        digest
    }
}

fn hash_by(key: &RandomState, bytes: &[u8]) -> u64 {
    let mut hasher = key.build_hasher();
    hasher.write(bytes);
    hasher.finish()
}

// A file of random bytes as a source of them.
#[derive(Drop)]
struct RandomFile<'a, R: Files + Drop> {
    rt: &'a R,
}

impl<R: Files + Drop> RandomSource for RandomFile<'_, R> {
    fn fill_bytes(&self, buf: &mut [u8]) -> io::Result<()> {
        fs::open(self.rt, RANDOM_BYTES)?.read_exact(buf)
    }
}

fn drawn_keys<R: Files + Drop>(rt: &R) -> io::Result<Keys> {
    let source = RandomFile { rt };
    Ok(Keys {
        first: RandomState::new(&source)?,
        second: RandomState::new(&source)?,
    })
}
