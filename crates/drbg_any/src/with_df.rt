// CTR_DRBG with the derivation function, which refuses no lengths.
ghost use Rattle.std.specs.Prelude.{◌≡◌, ◌<◌, ◌≤◌, ◌+◌, ◌^◌, ◌↔◌, length, OnOk, OnErr, IsErr, IfErr};
ghost use Rattle.aes_core.specs.Keys.{IsKeyLength};
ghost use Rattle.df_core.specs.KeyLen.{key_bytes};
ghost use Rattle.ctr_drbg.specs.CtrDrbg.{instantiated, reseeded, generated, after_generate};
ghost use Rattle.ctr_drbg.specs.State.{working, IsWellFormed};
ghost use Rattle.ctr_drbg.specs.declared.seeds.Mode.TheVariants.{UseDf};

use crate::ReseedRequired;
use ctr_drbg::{CtrDrbg, CtrRefusal, KeyLen, Mode};

/// The state that the entropy, the nonce and the personalization string give.
pub fn begin(keylen: KeyLen, entropy: &[u8], nonce: &[u8], pers: &[u8]) -> CtrDrbg
    requires entropy { length entropy.now ≤ 65536 }
    requires nonce { length nonce.now ≤ 65536 }
    requires pers { length pers.now ≤ 65536 }
    ensures state { working result ≡ instantiated UseDf (key_bytes keylen) entropy.now nonce.now pers.now }
    ensures mode { result.mode ≡ UseDf }
    ensures counter { result.counter ≡ 1 }
    ensures key { length result.key ≡ key_bytes keylen }
{
    match CtrDrbg::instantiate(Mode::UseDf, keylen, entropy, nonce, pers) {
        Ok(drbg) => drbg,
        Err(_) => unreachable!(),
    }
}

/// Mixes entropy and additional input into the state.
pub fn reseed(drbg: &mut CtrDrbg, entropy: &[u8], add: &[u8])
    requires formed { IsWellFormed drbg.old }
    requires mode { drbg.old.mode ≡ UseDf }
    requires entropy { length entropy.now ≤ 65536 }
    requires add { length add.now ≤ 65536 }
    ensures state { working drbg.new ≡ reseeded UseDf entropy.now add.now (working drbg.old) }
    ensures counter { drbg.new.counter ≡ 1 }
    ensures mode { drbg.new.mode ≡ UseDf }
    ensures key { length drbg.new.key ≡ length drbg.old.key }
{
    match drbg.reseed(entropy, add) {
        Ok(()) => {}
        Err(_) => unreachable!(),
    }
}

/// Fills `out`, or refuses where the counter is above the interval.
pub fn generate(
    drbg: &mut CtrDrbg,
    add: &[u8],
    interval: u64,
    out: &mut [u8],
) -> Result<(), ReseedRequired>
    requires formed { IsWellFormed drbg.old }
    requires mode { drbg.old.mode ≡ UseDf }
    requires interval { (1 ≤ interval) × (interval ≤ 2 ^ 48) }
    requires bound { length out.old ≤ 65536 }
    requires add { length add.now ≤ 65536 }
    ensures refused { IsErr result ↔ (interval < drbg.old.counter) }
    ensures err { OnErr result ((drbg.new ≡ drbg.old) × (out.new ≡ out.old)) }
    ensures counted { IfErr result (λ e. e.counter ≡ drbg.old.counter) }
    ensures bytes { OnOk result (out.new ≡ generated UseDf add.now (length out.old) (working drbg.old)) }
    ensures state { OnOk result (working drbg.new ≡ after_generate UseDf add.now (length out.old) (working drbg.old)) }
    ensures counter { OnOk result (drbg.new.counter ≡ drbg.old.counter + 1) }
    ensures mode { drbg.new.mode ≡ UseDf }
    ensures key { length drbg.new.key ≡ length drbg.old.key }
{
    match drbg.generate(add, interval, out) {
        Ok(()) => Ok(()),
        Err(CtrRefusal::ReseedRequired { counter }) => Err(ReseedRequired { counter }),
        Err(CtrRefusal::BadSeedLength { .. }) => unreachable!(),
    }
}
