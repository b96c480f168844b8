// HMAC of a key and of a text that comes piece by piece. Departs from the standard's form: the two hash states after the
// padded key are kept, so that each text under a key that is set up costs no compression of the key.
ghost use Rattle.std.specs.Prelude.{◌≡◌, ◌≤◌, ◌++◌, [], List, ℕ, length};
ghost use Rattle.hmac_core.specs.declared.hash.Hash.{Hash};
ghost use Rattle.hmac_core.specs.Hmac.{block_len, zero_padded, xor_each, hmac};
ghost use Rattle.hmac_core.specs.Holds.{HoldsText, StartsFrom};

use crate::Hash;
use crate::states::{States, digest_of};
use rbg_bytes::Fixed;

// The longest block of the hash functions.
const MAX_BLOCK: usize = 128;

// The key, with zeros after it.
fn padded(key: &[u8]) -> [u8; MAX_BLOCK]
    requires { length key.now ≤ 128 }
    ensures { result ≡ zero_padded 128 key.now }
{
    let mut block = [0u8; MAX_BLOCK];
    block[..key.len()].copy_from_slice(key);
    block
}

// Each byte xor the byte of a pad.
fn xored(pad: u8, block: &[u8; MAX_BLOCK]) -> [u8; MAX_BLOCK]
    ensures { result ≡ xor_each pad block.now }
{
    let mut padded = [0u8; MAX_BLOCK];
    for i in 0..MAX_BLOCK {
        padded[i] = block[i] ^ pad;
    }
    padded
}

/// HMAC of a key and of a text that comes piece by piece (FIPS 198-1). It keeps the two hash states after the padded key, so
/// that `finish_with` serves many texts under a key that was set up once: each is the text so far with other bytes behind it.
#[derive(Drop)]
pub struct Mac {
    states: States,
}

impl Mac {
    /// The key, of any length, and no text yet.
    pub fn new(hash: Hash, key: &[u8]) -> Mac
        ensures { HoldsText result hash key.now [] }
    {
        if hash.block_len() < key.len() {
            let short = digest_of(hash, key);
            Mac::of_block(hash, short.as_slice())
        } else {
            Mac::of_block(hash, key)
        }
    }

    /// Adds the bytes to the text.
    pub fn update(&mut self, bytes: &[u8])
        ensures { (hash : Hash) (key text : List ℕ) → HoldsText self.old hash key text → HoldsText self.new hash key (text ++ bytes.now) }
    {
        self.states.update(bytes);
    }

    /// HMAC of the key and the text, however the text was cut into pieces, in as many bytes as a digest has.
    #[tactic(auto, using(std::proofs::lemmas::Grind::common_steps))]
    pub fn finish(self) -> Fixed<64>
        ensures { (hash : Hash) (key text : List ℕ) → HoldsText self hash key text → result ≡ hmac hash key text }
    {
        self.finish_with(&[])
    }

    /// HMAC of the key, the text and these bytes after it. The text stays as it is.
    #[tactic(auto, unfolding(crate::specs::Hmac::hmac))]
    pub fn finish_with(&self, bytes: &[u8]) -> Fixed<64>
        ensures { (hash : Hash) (key text : List ℕ) → HoldsText self.now hash key text → result ≡ hmac hash key (text ++ bytes.now) }
    {
        self.states.finish_with(bytes)
    }

    /// The same key and text once more. It takes no memory.
    pub fn copy(&self) -> Mac
        ensures { result ≡ self.now }
    {
        Mac {
            states: self.states.clone().unwrap(),
        }
    }

    // The key, which fits into a block.
    fn of_block(hash: Hash, key: &[u8]) -> Mac
        requires { length key.now ≤ block_len hash }
        ensures { StartsFrom result hash (zero_padded (block_len hash) key.now) }
    {
        let len = hash.block_len();
        let block = padded(key);
        let inner = xored(0x36, &block);
        let outer = xored(0x5c, &block);
        Mac {
            states: States::of(hash, &inner[..len], &outer[..len]),
        }
    }
}
