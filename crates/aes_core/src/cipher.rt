// A key that is set up for use.
use crate::four::{first, four_times, joined, parted};
use crate::keys;
use crate::rounds::{last_round, round, with_first_key};
use std::marker::Model;
use std::simd::prelude::*;

/// The key has another length than 16, 24 or 32 bytes. `len` is its length.
#[derive(Clone, Copy, Debug, PartialEq, Eq)]
pub struct BadKeyLength {
    pub len: usize,
}

/// AES under one key, with the key expanded once (FIPS 197, 5.2). Contracts see it as that key.
#[derive(Drop)]
pub struct Aes {
    keys: [u8; 240],
    rounds: usize,
}

impl Model for Aes {
    ghost use Rattle.std.specs.Prelude.{List, ℕ};
    ghost use Rattle.aes_core.specs.Keys.{IsExpanded, key_of};

    ghost Value = { List ℕ };

    ghost view = { λ a. key_of a.rounds a.keys };

    ghost invariant = { λ a. IsExpanded a.rounds a.keys };
}

impl Aes {
    ghost use Rattle.std.specs.Prelude.{◌≡◌, ◌↔◌, length, map, IsOk, IfErr, IfOk};
    ghost use Rattle.aes_core.specs.Aes.{aes};
    ghost use Rattle.aes_core.specs.Keys.{IsKeyLength};

    /// AES under a key of 16, 24 or 32 bytes; every other length is refused (FIPS 197, 5).
    pub fn new(key: &[u8]) -> Result<Aes, BadKeyLength>
        ensures accepted { IsOk result ↔ IsKeyLength (length key.now) }
        ensures key { IfOk result (λ a. a ≡ key.now) }
        ensures refused { IfErr result (λ e. e.len ≡ length key.now) }
    {
        let len = key.len();
        if len != 16 && len != 24 && len != 32 {
            return Err(BadKeyLength { len });
        }
        Ok(Aes {
            keys: keys::expanded(key),
            rounds: len / 4 + 6,
        })
    }

    /// Replaces a block of 16 bytes by its encryption (FIPS 197, 5.1).
    pub fn encrypt(&self, block: &mut [u8; 16])
        ensures value { block.new ≡ aes self.now block.old }
        ensures key { IsKeyLength (length self.now) }
    {
        let mut s = with_first_key(&self.keys, u8x16::from_array(*block));
        'rounds: for n in 1..self.rounds {
            s = first(round(&self.keys, n, four_times(s)));
        }
        *block = first(last_round(&self.keys, self.rounds, four_times(s))).to_array();
    }

    /// Replaces each of four blocks of 16 bytes by its encryption (FIPS 197, 5.1).
    pub fn encrypt4(&self, blocks: &mut [[u8; 16]; 4])
        ensures value { blocks.new ≡ map (aes self.now) blocks.old }
        ensures key { IsKeyLength (length self.now) }
    {
        let mut s = joined(
            with_first_key(&self.keys, u8x16::from_array(blocks[0])),
            with_first_key(&self.keys, u8x16::from_array(blocks[1])),
            with_first_key(&self.keys, u8x16::from_array(blocks[2])),
            with_first_key(&self.keys, u8x16::from_array(blocks[3])),
        );
        'rounds: for n in 1..self.rounds {
            s = round(&self.keys, n, s);
        }
        *blocks = parted(last_round(&self.keys, self.rounds, s));
    }
}
