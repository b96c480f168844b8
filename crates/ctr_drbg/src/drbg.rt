// The working state, and the calls that change it.
ghost use Rattle.std.specs.Prelude.{◌≡◌, ◌<◌, ◌≤◌, ◌+◌, ◌^◌, ◌↔◌, ℕ, List, length, take, replicate, IsOk, IsErrOf, IfOk, OnOk, OnErr, MatchOption};
ghost use Rattle.aes_core.specs.Keys.{IsKeyLength};
ghost use Rattle.df_core.specs.KeyLen.{key_bytes};
ghost use Rattle.df_core.specs.Df.{blocks_for};
ghost use Rattle.ctr_drbg.specs.CtrDrbg.{additional_seed, after_generate, generated, instantiated, reseeded, seed_len, stream, update, with_additional};
ghost use Rattle.ctr_drbg.specs.State.{working, IsWellFormed};
ghost use Rattle.ctr_drbg.specs.Lengths.{bad_length, FitsSeed};
ghost use Rattle.ctr_drbg.specs.Refusals.{generate_refusal};

use crate::seeds::{BadSeedLength, Mode, check_string, keylen_of, seed_of, stretched, zeros};
use crate::stream::{block_at, fill_and_seed};
use aes_core::Aes;
use df_core::KeyLen;
use rbg_bytes::{Fixed, xor_bytes};

/// The working state Key and V, the reseed counter, and whether the derivation function is used (SP 800-90A Rev. 1,
/// 10.2.1.1). The key has 16, 24 or 32 bytes. The counter is 1 after an instantiation or a reseed, and grows by 1 with each
/// generate.
#[derive(Drop)]
pub struct CtrDrbg {
    pub key: Fixed<32>,
    pub v: [u8; 16],
    pub counter: u64,
    pub mode: Mode,
}

/// Why a generate is refused: the counter is above the interval, or else, without the derivation function, the additional
/// input has `len` bytes, which is more than seedlen, `want`.
#[derive(Clone, Copy, Debug, PartialEq, Eq)]
pub enum CtrRefusal {
    ReseedRequired { counter: u64 },
    BadSeedLength { len: usize, want: usize },
}

// The cipher of a key.
fn cipher(key: &[u8]) -> Aes
    requires { IsKeyLength (length key.now) }
    ensures { result ≡ key.now }
{
    match Aes::new(key) {
        Ok(aes) => aes,
        Err(_) => unreachable!(),
    }
}

impl CtrDrbg {
    /// A state made of entropy, a nonce and a personalization string (10.2.1.3). With the derivation function each has any
    /// length up to 65,536 bytes. Without it the entropy has seedlen bytes, the personalization string at most as many, else
    /// they are refused, and the nonce isn't used.
    pub fn instantiate(
        mode: Mode,
        keylen: KeyLen,
        entropy: &[u8],
        nonce: &[u8],
        pers: &[u8],
    ) -> Result<CtrDrbg, BadSeedLength>
        requires entropy { length entropy.now ≤ 65536 }
        requires nonce { length nonce.now ≤ 65536 }
        requires pers { length pers.now ≤ 65536 }
        ensures refused { let want = seed_len (key_bytes keylen) in MatchOption (bad_length mode want entropy.now pers.now)
            (IsOk result) (λ len. IsErrOf result (record { len = len; want = want })) }
        ensures state { IfOk result (λ d. working d ≡ instantiated mode (key_bytes keylen) entropy.now nonce.now pers.now) }
        ensures mode { IfOk result (λ d. d.mode ≡ mode) }
        ensures counter { IfOk result (λ d. d.counter ≡ 1) }
        ensures formed { IfOk result (λ d. length d.key ≡ key_bytes keylen) }
    {
        let seed = seed_of(mode, keylen, entropy, nonce, pers)?;
        Ok(CtrDrbg::begun(mode, keylen.bytes(), seed.as_slice()))
    }

    /// Mixes entropy and an additional string into the state (10.2.1.4). Lengths are as for an instantiation; a refusal
    /// changes nothing.
    pub fn reseed(&mut self, entropy: &[u8], add: &[u8]) -> Result<(), BadSeedLength>
        requires formed { IsWellFormed self.old }
        requires entropy { length entropy.now ≤ 65536 }
        requires add { length add.now ≤ 65536 }
        ensures refused { let want = seed_len (length self.old.key) in MatchOption (bad_length self.old.mode want entropy.now add.now)
            (IsOk result) (λ len. IsErrOf result (record { len = len; want = want })) }
        ensures err { OnErr result (self.new ≡ self.old) }
        ensures state { OnOk result (working self.new ≡ reseeded self.old.mode entropy.now add.now (working self.old)) }
        ensures counter { OnOk result (self.new.counter ≡ 1) }
        ensures mode { self.new.mode ≡ self.old.mode }
        ensures key { length self.new.key ≡ length self.old.key }
    {
        let keylen = keylen_of(self.key.as_slice());
        let seed = seed_of(self.mode, keylen, entropy, &[], add)?;
        self.update(seed.as_slice());
        self.counter = 1;
        Ok(())
    }

    /// Fills `out`, at most 65,536 bytes (10.2.1.5). It is refused where the counter is above the interval, from 1 to 2^48,
    /// or else where additional input without the derivation function is longer than seedlen; a refusal changes nothing.
    pub fn generate(&mut self, add: &[u8], interval: u64, out: &mut [u8]) -> Result<(), CtrRefusal>
        requires formed { IsWellFormed self.old }
        requires interval { (1 ≤ interval) × (interval ≤ 2 ^ 48) }
        requires bound { length out.old ≤ 65536 }
        requires add { length add.now ≤ 65536 }
        ensures refused { MatchOption (generate_refusal self.old interval add.now) (IsOk result) (λ e. IsErrOf result e) }
        ensures err { OnErr result ((self.new ≡ self.old) × (out.new ≡ out.old)) }
        ensures bytes { OnOk result (out.new ≡ generated self.old.mode add.now (length out.old) (working self.old)) }
        ensures state { OnOk result (working self.new ≡ after_generate self.old.mode add.now (length out.old) (working self.old)) }
        ensures counter { OnOk result (self.new.counter ≡ self.old.counter + 1) }
        ensures mode { self.new.mode ≡ self.old.mode }
        ensures key { length self.new.key ≡ length self.old.key }
    {
        if self.counter > interval {
            return Err(CtrRefusal::ReseedRequired {
                counter: self.counter,
            });
        }
        let want = self.key.as_slice().len() + 16;
        if let Err(BadSeedLength { len, want }) = check_string(self.mode, want, add) {
            return Err(CtrRefusal::BadSeedLength { len, want });
        }
        self.give(add, out);
        self.counter += 1;
        Ok(())
    }

    // A state of zeros, brought up by a seed.
    fn begun(mode: Mode, keylen: usize, seed: &[u8]) -> CtrDrbg
        requires key { IsKeyLength keylen }
        requires seed { length seed.now ≡ seed_len keylen }
        ensures state { working result ≡ update seed.now (record { key = replicate keylen 0; value = replicate 16 0 }) }
        ensures mode { result.mode ≡ mode }
        ensures counter { result.counter ≡ 1 }
        ensures formed { length result.key ≡ keylen }
    {
        let zeros = [0u8; 32];
        let mut state = CtrDrbg {
            key: Fixed::of(&zeros[..keylen]),
            v: [0; 16],
            counter: 1,
            mode,
        };
        state.update(seed);
        state
    }

    // The bytes and the state of a generate. One cipher serves the bytes and the update after them, and their blocks are encrypted together.
    fn give(&mut self, add: &[u8], out: &mut [u8])
        requires formed { IsWellFormed self.old }
        requires bound { length out.old ≤ 65536 }
        requires add { length add.now ≤ 65536 }
        requires fits { FitsSeed self.old.mode (seed_len (length self.old.key)) add.now }
        ensures bytes { out.new ≡ generated self.old.mode add.now (length out.old) (working self.old) }
        ensures state { working self.new ≡ after_generate self.old.mode add.now (length out.old) (working self.old) }
        ensures kept { (self.new.mode ≡ self.old.mode) × (self.new.counter ≡ self.old.counter) }
        ensures key { length self.new.key ≡ length self.old.key }
    {
        let seed = self.absorbed(add);
        let aes = cipher(self.key.as_slice());
        let bytes = fill_and_seed(&aes, self.v, self.key.as_slice().len() + 16, out);
        self.update_by(bytes, seed.as_slice());
    }

    // Mixes the additional input into the state, where there is any, and gives what the last update takes.
    fn absorbed(&mut self, add: &[u8]) -> Fixed<64>
        requires formed { IsWellFormed self.old }
        requires add { length add.now ≤ 65536 }
        requires fits { FitsSeed self.old.mode (seed_len (length self.old.key)) add.now }
        ensures state { working self.new ≡ with_additional self.old.mode add.now (working self.old) }
        ensures seed { result ≡ additional_seed self.old.mode (length self.old.key) add.now }
        ensures long { length result ≡ seed_len (length self.old.key) }
        ensures kept { (self.new.mode ≡ self.old.mode) × (self.new.counter ≡ self.old.counter) }
        ensures key { length self.new.key ≡ length self.old.key }
    {
        if add.is_empty() {
            return zeros(self.key.as_slice().len() + 16);
        }
        let seed = stretched(self.mode, keylen_of(self.key.as_slice()), add);
        self.update(seed.as_slice());
        seed
    }

    // CTR_DRBG_Update (10.2.1.2).
    fn update(&mut self, provided: &[u8])
        requires formed { IsWellFormed self.old }
        requires provided { length provided.now ≡ seed_len (length self.old.key) }
        ensures state { working self.new ≡ update provided.now (working self.old) }
        ensures kept { (self.new.mode ≡ self.old.mode) × (self.new.counter ≡ self.old.counter) }
        ensures key { length self.new.key ≡ length self.old.key }
    {
        let aes = cipher(self.key.as_slice());
        let bytes = fill_and_seed(&aes, self.v, self.key.as_slice().len() + 16, &mut []);
        self.update_by(bytes, provided);
    }

    // CTR_DRBG_Update with the encryptions of the values after some V, `bytes`, which other bytes follow.
    fn update_by(&mut self, bytes: [u8; 64], provided: &[u8])
        requires formed { IsWellFormed self.old }
        requires provided { length provided.now ≡ seed_len (length self.old.key) }
        ensures state { (v : List ℕ) → (let n = seed_len (length self.old.key) in take n bytes ≡ take n (stream self.old.key v (blocks_for n))) →
            working self.new ≡ update provided.now (record { key = self.old.key; value = v }) }
        ensures kept { (self.new.mode ≡ self.old.mode) × (self.new.counter ≡ self.old.counter) }
        ensures key { length self.new.key ≡ length self.old.key }
    {
        let keylen = self.key.as_slice().len();
        let mut temp = bytes;
        xor_bytes(&mut temp[..keylen + 16], provided);
        self.key = Fixed::of(&temp[..keylen]);
        self.v = block_at(&temp, keylen);
    }
}
