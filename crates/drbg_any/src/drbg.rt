// A DRBG of any kind that is served.
ghost use Rattle.std.specs.Prelude.{◌≡◌, ◌<◌, ◌≤◌, ◌+◌, ◌-◌, ◌^◌, ◌↔◌, [], length, OnOk, OnErr, IsErr, IfErr, IsTrue};
ghost use Rattle.hmac_core.specs.declared.hash.Hash.{Hash};
ghost use Rattle.drbg_any.specs.Drbg.{instantiated, reseeded, generated, after_generate};
ghost use Rattle.drbg_any.specs.State.{kind_of, working, counter_of, IsWellFormed};

use crate::ReseedRequired;
use crate::with_df::{begin, generate, reseed};
use ctr_drbg::{CtrDrbg, KeyLen};
use hmac_core::Hash;
use hmac_drbg::HmacDrbg;
use rbg_bytes::Kind;

/// A DRBG of any kind that is served. Its state, its kind and its reseed counter are seen by `working`, `kind_of` and
/// `counter_of`; a value that is built from its fields has to be well formed, and each call leaves it so.
#[derive(Drop)]
pub enum Drbg {
    Hmac(HmacDrbg),
    Ctr(CtrDrbg),
}

impl Drbg {
    /// The state that the entropy, the nonce and the personalization string give, with the counter at 1 (SP 800-90A Rev. 1,
    /// 9.1). Each string has at most 65,536 bytes; the standard asks for as much entropy as the kind's strength.
    #[tactic(auto, unfolding(crate::specs::Drbg::instantiated))]
    pub fn instantiate(kind: Kind, entropy: &[u8], nonce: &[u8], pers: &[u8]) -> Drbg
        requires entropy { length entropy.now ≤ 65536 }
        requires nonce { length nonce.now ≤ 65536 }
        requires pers { length pers.now ≤ 65536 }
        ensures state { working result ≡ instantiated kind entropy.now nonce.now pers.now }
        ensures kind { kind_of result ≡ kind }
        ensures counter { counter_of result ≡ 1 }
        ensures formed { IsWellFormed result }
    {
        match kind {
            Kind::HmacSha256 => Drbg::Hmac(HmacDrbg::instantiate(
                Hash::Sha256,
                entropy,
                nonce,
                pers,
            )),
            Kind::HmacSha384 => Drbg::Hmac(HmacDrbg::instantiate(
                Hash::Sha384,
                entropy,
                nonce,
                pers,
            )),
            Kind::HmacSha512 => Drbg::Hmac(HmacDrbg::instantiate(
                Hash::Sha512,
                entropy,
                nonce,
                pers,
            )),
            Kind::CtrAes128 => Drbg::Ctr(begin(KeyLen::K16, entropy, nonce, pers)),
            Kind::CtrAes192 => Drbg::Ctr(begin(KeyLen::K24, entropy, nonce, pers)),
            Kind::CtrAes256 => Drbg::Ctr(begin(KeyLen::K32, entropy, nonce, pers)),
        }
    }

    /// Mixes entropy and additional input, which may be empty, into the state, and sets the counter to 1 (SP 800-90A Rev. 1,
    /// 9.2). Each string has at most 65,536 bytes.
    #[tactic(auto, unfolding(crate::specs::Drbg::reseeded))]
    pub fn reseed(&mut self, entropy: &[u8], add: &[u8])
        requires formed { IsWellFormed self.old }
        requires entropy { length entropy.now ≤ 65536 }
        requires add { length add.now ≤ 65536 }
        ensures state { working self.new ≡ reseeded (kind_of self.old) entropy.now add.now (working self.old) }
        ensures kind { kind_of self.new ≡ kind_of self.old }
        ensures counter { counter_of self.new ≡ 1 }
        ensures formed { IsWellFormed self.new }
    {
        match self {
            Drbg::Hmac(drbg) => drbg.reseed(entropy, add),
            Drbg::Ctr(drbg) => reseed(drbg, entropy, add),
        }
    }

    /// Fills `out` with the next bytes, after mixing in the additional input where there is any, and counts one generate
    /// (SP 800-90A Rev. 1, 9.3). It is refused where the counter is above the interval, and then nothing changes. `out` and
    /// the additional input have at most 65,536 bytes, and the interval is 1 to 2^48.
    #[tactic(auto, unfolding(crate::specs::Drbg::generated, crate::specs::Drbg::after_generate))]
    pub fn generate(
        &mut self,
        add: &[u8],
        interval: u64,
        out: &mut [u8],
    ) -> Result<(), ReseedRequired>
        requires formed { IsWellFormed self.old }
        requires interval { (1 ≤ interval) × (interval ≤ 2 ^ 48) }
        requires bound { length out.old ≤ 65536 }
        requires add { length add.now ≤ 65536 }
        ensures refused { IsErr result ↔ (interval < counter_of self.old) }
        ensures err { OnErr result ((self.new ≡ self.old) × (out.new ≡ out.old)) }
        ensures counted { IfErr result (λ e. e.counter ≡ counter_of self.old) }
        ensures bytes { OnOk result (out.new ≡ generated (kind_of self.old) add.now (length out.old) (working self.old)) }
        ensures state { OnOk result (working self.new ≡ after_generate (kind_of self.old) add.now (length out.old) (working self.old)) }
        ensures counter { OnOk result (counter_of self.new ≡ counter_of self.old + 1) }
        ensures kind { kind_of self.new ≡ kind_of self.old }
        ensures formed { IsWellFormed self.new }
    {
        match self {
            Drbg::Hmac(drbg) => drbg.generate(add, interval, out),
            Drbg::Ctr(drbg) => generate(drbg, add, interval, out),
        }
    }

    /// Reseeds with the entropy and the additional input, and then fills `out` by a generate with an empty additional input,
    /// which can't be refused (SP 800-90A Rev. 1, 9.3.1, steps 7 and 8). So the additional input is used once.
    pub fn generate_fresh(&mut self, entropy: &[u8], add: &[u8], out: &mut [u8])
        requires formed { IsWellFormed self.old }
        requires entropy { length entropy.now ≤ 65536 }
        requires add { length add.now ≤ 65536 }
        requires bound { length out.old ≤ 65536 }
        ensures bytes { let fresh = reseeded (kind_of self.old) entropy.now add.now (working self.old) in
            out.new ≡ generated (kind_of self.old) [] (length out.old) fresh }
        ensures state { let fresh = reseeded (kind_of self.old) entropy.now add.now (working self.old) in
            working self.new ≡ after_generate (kind_of self.old) [] (length out.old) fresh }
        ensures kind { kind_of self.new ≡ kind_of self.old }
        ensures counter { counter_of self.new ≡ 2 }
        ensures formed { IsWellFormed self.new }
    {
        self.reseed(entropy, add);
        match self.generate(&[], 1, out) {
            Ok(()) => {}
            Err(_) => unreachable!(),
        }
    }

    /// The reseed counter: one more than the number of generates since the last seeding.
    pub fn counter(&self) -> u64
        ensures { result ≡ counter_of self.now }
    {
        match self {
            Drbg::Hmac(drbg) => drbg.counter,
            Drbg::Ctr(drbg) => drbg.counter,
        }
    }

    /// Whether a generate under this interval would be refused.
    pub fn due(&self, interval: u64) -> bool
        ensures { IsTrue result ↔ (interval < counter_of self.now) }
    {
        self.counter() > interval
    }
}
