// The working state with its reseed counter, and its calls. Departs from the standard's form: a key is set up once for all
// the HMACs under it in one call.
ghost use Rattle.std.specs.Prelude.{◌≡◌, ◌<◌, ◌≤◌, ◌+◌, ◌-◌, ◌^◌, ◌↔◌, ◌++◌, [], length, take, OnOk, OnErr, IsErr, IfErr};
ghost use Rattle.hmac_core.specs.Hmac.{hmac, out_len};
ghost use Rattle.hmac_core.specs.Holds.{HoldsText};
ghost use Rattle.hmac_drbg.specs.HmacDrbg.{half_update, update, instantiated, reseeded, with_additional, generated, after_generate, turned, gathered, blocks_for};
ghost use Rattle.hmac_drbg.specs.State.{working, IsWellFormed};

use crate::parts::{is_any, mac_of_parts};
use hmac_core::{Hash, Mac};
use rbg_bytes::{Fixed, put_fitting};

/// The working state Key and V, each as long as a digest, with its hash function and its reseed counter, which is one more
/// than the number of generates since the last seeding (SP 800-90A Rev. 1, 10.1.2.1).
#[derive(Drop)]
pub struct HmacDrbg {
    pub k: Fixed<64>,
    pub v: Fixed<64>,
    pub counter: u64,
    pub hash: Hash,
}

/// A generate was refused: the reseed counter, told here, is above the reseed interval (SP 800-90A Rev. 1, 10.1.2.5, step 1).
#[derive(Clone, Copy, Debug, PartialEq, Eq)]
pub struct ReseedRequired {
    pub counter: u64,
}

impl HmacDrbg {
    /// The state that the entropy, the nonce and the personalization string give, with the counter at 1 (SP 800-90A Rev. 1,
    /// 10.1.2.3). Each may have any length; the standard asks for as much entropy as the strength, and at most 2^32 bytes of each.
    #[tactic(auto, using(std::proofs::lemmas::Grind::common_steps), unfolding(crate::specs::HmacDrbg::instantiated))]
    pub fn instantiate(hash: Hash, entropy: &[u8], nonce: &[u8], pers: &[u8]) -> HmacDrbg
        ensures state { working result ≡ instantiated hash entropy.now nonce.now pers.now }
        ensures hash { result.hash ≡ hash }
        ensures counter { result.counter ≡ 1 }
        ensures formed { IsWellFormed result }
    {
        let len = hash.out_len();
        let zeros = [0u8; 64];
        let ones = [1u8; 64];
        let mut state = HmacDrbg {
            k: Fixed::of(&zeros[..len]),
            v: Fixed::of(&ones[..len]),
            counter: 1,
            hash,
        };
        let keyed = state.keyed();
        state.update(keyed, entropy, nonce, pers);
        state
    }

    /// Mixes entropy and additional input, which may be empty, into the state, and sets the counter to 1 (SP 800-90A Rev. 1,
    /// 10.1.2.4). The lengths are free, as in `instantiate`.
    #[tactic(auto, unfolding(crate::specs::HmacDrbg::reseeded))]
    pub fn reseed(&mut self, entropy: &[u8], add: &[u8])
        ensures state { working self.new ≡ reseeded self.old.hash entropy.now add.now (working self.old) }
        ensures hash { self.new.hash ≡ self.old.hash }
        ensures counter { self.new.counter ≡ 1 }
        ensures formed { IsWellFormed self.new }
    {
        let keyed = self.keyed();
        self.update(keyed, entropy, add, &[]);
        self.counter = 1;
    }

    /// Fills `out` with the next bytes, after mixing in the additional input where there is any, and counts one generate
    /// (SP 800-90A Rev. 1, 10.1.2.5). It is refused where the counter is above the interval, and then nothing changes. The
    /// standard allows at most 65,536 bytes and an interval of at most 2^48; the interval's bound here keeps the counter's sum in range.
    pub fn generate(
        &mut self,
        add: &[u8],
        interval: u64,
        out: &mut [u8],
    ) -> Result<(), ReseedRequired>
        requires formed { IsWellFormed self.old }
        requires interval { interval < 2 ^ 64 - 1 }
        ensures refused { IsErr result ↔ (interval < self.old.counter) }
        ensures err { OnErr result ((self.new ≡ self.old) × (out.new ≡ out.old)) }
        ensures counted { IfErr result (λ e. e.counter ≡ self.old.counter) }
        ensures bytes { OnOk result (out.new ≡ generated self.old.hash add.now (length out.old) (working self.old)) }
        ensures state { OnOk result (working self.new ≡ after_generate self.old.hash add.now (length out.old) (working self.old)) }
        ensures counter { OnOk result (self.new.counter ≡ self.old.counter + 1) }
        ensures hash { self.new.hash ≡ self.old.hash }
        ensures formed { IsWellFormed self.new }
    {
        if self.counter > interval {
            return Err(ReseedRequired {
                counter: self.counter,
            });
        }
        self.give(add, out);
        self.counter += 1;
        Ok(())
    }

    // The bytes and the state of a generate.
    #[tactic(auto, unfolding(crate::specs::HmacDrbg::generated, crate::specs::HmacDrbg::after_generate))]
    fn give(&mut self, add: &[u8], out: &mut [u8])
        requires { IsWellFormed self.old }
        ensures bytes { out.new ≡ generated self.old.hash add.now (length out.old) (working self.old) }
        ensures state { working self.new ≡ after_generate self.old.hash add.now (length out.old) (working self.old) }
        ensures kept { (self.new.hash ≡ self.old.hash) × (self.new.counter ≡ self.old.counter) }
        ensures formed { IsWellFormed self.new }
    {
        let keyed = self.absorb(add);
        self.fill(&keyed, out);
        self.update(keyed, add, &[], &[]);
    }

    // Mixes the additional input into the state, where there is any, and gives the key set up.
    #[tactic(auto, using(crate::proofs::Updating::absorbing))]
    fn absorb(&mut self, add: &[u8]) -> Mac
        requires { IsWellFormed self.old }
        ensures state { working self.new ≡ with_additional self.old.hash add.now (working self.old) }
        ensures kept { (self.new.hash ≡ self.old.hash) × (self.new.counter ≡ self.old.counter) }
        ensures formed { IsWellFormed self.new }
        ensures key { HoldsText result self.new.hash self.new.k [] }
    {
        let keyed = self.keyed();
        if add.is_empty() {
            return keyed;
        }
        self.update(keyed, add, &[], &[])
    }

    // Fills the bytes with the values of V, one after another, and keeps the last.
    fn fill(&mut self, keyed: &Mac, out: &mut [u8])
        requires formed { IsWellFormed self.old }
        requires key { HoldsText keyed.now self.old.hash self.old.k [] }
        ensures bytes { out.new ≡ take (length out.old) (gathered self.old.hash self.old.k self.old.v (blocks_for self.old.hash (length out.old))) }
        ensures state { self.new ≡ record self.old { v = turned self.old.hash self.old.k self.old.v (blocks_for self.old.hash (length out.old)) } }
        ensures formed { IsWellFormed self.new }
    {
        let len = self.hash.out_len();
        let blocks = (out.len() + (len - 1)) / len;
        for i in 0..blocks {
            self.next_block(keyed, out, i * len);
        }
    }

    // V = HMAC(K, V). As much of it as there is room for is put at a place.
    #[tactic(auto, using(crate::proofs::Updating::halving))]
    fn next_block(&mut self, keyed: &Mac, out: &mut [u8], at: usize)
        requires key { HoldsText keyed.now self.old.hash self.old.k [] }
        requires room { at ≤ length out.old }
        ensures bytes { take (at + out_len self.old.hash) out.new
            ≡ take at out.old ++ take (length out.old - at) (hmac self.old.hash self.old.k self.old.v) }
        ensures state { self.new ≡ record self.old { v = hmac self.old.hash self.old.k self.old.v } }
    {
        self.v = keyed.finish_with(self.v.as_slice());
        put_fitting(out, at, self.v.as_slice());
    }

    // The update with provided data in three parts, under the key set up. It gives the new key set up.
    #[tactic(auto, using(crate::proofs::Updating::updating))]
    fn update(&mut self, keyed: Mac, first: &[u8], second: &[u8], third: &[u8]) -> Mac
        requires { HoldsText keyed self.old.hash self.old.k [] }
        ensures state { working self.new ≡ update self.old.hash (first.now ++ second.now ++ third.now) (working self.old) }
        ensures kept { (self.new.hash ≡ self.old.hash) × (self.new.counter ≡ self.old.counter) }
        ensures formed { IsWellFormed self.new }
        ensures key { HoldsText result self.new.hash self.new.k [] }
    {
        let half = self.half_update(keyed, 0, first, second, third);
        if !is_any(first, second, third) {
            return half;
        }
        self.half_update(half, 1, first, second, third)
    }

    // One half of the update: K = HMAC(K, V || mark || provided), V = HMAC(K, V).
    #[tactic(auto, using(crate::proofs::Updating::halving))]
    fn half_update(
        &mut self,
        keyed: Mac,
        mark: u8,
        first: &[u8],
        second: &[u8],
        third: &[u8],
    ) -> Mac
        requires { HoldsText keyed self.old.hash self.old.k [] }
        ensures state { working self.new ≡ half_update self.old.hash mark (first.now ++ second.now ++ third.now) (working self.old) }
        ensures kept { (self.new.hash ≡ self.old.hash) × (self.new.counter ≡ self.old.counter) }
        ensures formed { IsWellFormed self.new }
        ensures key { HoldsText result self.new.hash self.new.k [] }
    {
        self.k = mac_of_parts(keyed, self.v.as_slice(), mark, first, second, third);
        let changed = self.keyed();
        self.v = changed.finish_with(self.v.as_slice());
        changed
    }

    // The key set up.
    fn keyed(&self) -> Mac
        ensures { HoldsText result self.now.hash self.now.k [] }
    {
        Mac::new(self.hash, self.k.as_slice())
    }
}
