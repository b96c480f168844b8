// A DRBG's state in the caller's memory, read and written.
ghost use Rattle.std.specs.Prelude.{◌≡◌, ◌≤◌, ◌-◌, ◌++◌, length, take, replicate, MatchOption};
ghost use Rattle.hmac_core.specs.Hmac.{out_len};
ghost use Rattle.hmac_drbg.specs.State.{IsWellFormed as hmac_formed};
ghost use Rattle.ctr_drbg.specs.declared.seeds.Mode.TheVariants.{UseDf};
ghost use Rattle.drbg_any.specs.State.{working, counter_of, IsWellFormed};
ghost use Rattle.rbg.specs.State.{kind_numbered, kind_in, stored, IsRead};

use ctr_drbg::{CtrDrbg, Mode};
use drbg_any::Drbg;
use hmac_core::Hash;
use hmac_drbg::HmacDrbg;
use rbg_bytes::{Fixed, Kind, put_front};

/// The state of a DRBG in the caller's memory, 144 bytes without padding. The kind is a number from 1 to 6, the counter is
/// the reseed counter, the reserved number is 0. Key and V stand at the front of their fields, and zeros behind them.
#[repr(C)]
#[derive(Drop)]
pub struct RbgDrbg {
    pub counter: u64,
    pub kind: u32,
    pub reserved: u32,
    pub key: [u8; 64],
    pub value: [u8; 64],
}

/// The kind with this number.
pub fn kind_of_number(number: u32) -> Option<Kind>
    ensures { result ≡ kind_numbered number }
{
    match number {
        1 => Some(Kind::HmacSha256),
        2 => Some(Kind::HmacSha384),
        3 => Some(Kind::HmacSha512),
        4 => Some(Kind::CtrAes128),
        5 => Some(Kind::CtrAes192),
        6 => Some(Kind::CtrAes256),
        _ => None,
    }
}

/// The kind of a state, where it is one.
pub fn kind_of_state(state: &RbgDrbg) -> Option<Kind>
    ensures { result ≡ kind_in state.now }
{
    if state.counter == 0 || state.reserved != 0 {
        return None;
    }
    kind_of_number(state.kind)
}

// HMAC_DRBG over a hash function, with Key and V from a state.
fn hmac_of(state: &RbgDrbg, hash: Hash) -> HmacDrbg
    ensures key { result.k ≡ take (out_len hash) state.now.key }
    ensures value { result.v ≡ take (out_len hash) state.now.value }
    ensures counter { result.counter ≡ state.now.counter }
    ensures hash { result.hash ≡ hash }
    ensures formed { hmac_formed result }
{
    let len = hash.out_len();
    HmacDrbg {
        k: Fixed::of(&state.key[..len]),
        v: Fixed::of(&state.value[..len]),
        counter: state.counter,
        hash,
    }
}

// CTR_DRBG with a key of AES of so many bytes, with Key and V from a state.
fn ctr_of(state: &RbgDrbg, len: usize) -> CtrDrbg
    requires { len ≤ 32 }
    ensures key { result.key ≡ take len state.now.key }
    ensures value { result.v ≡ take 16 state.now.value }
    ensures counter { result.counter ≡ state.now.counter }
    ensures mode { result.mode ≡ UseDf }
    ensures long { length result.key ≡ len }
{
    let mut v = [0u8; 16];
    v.copy_from_slice(&state.value[..16]);
    CtrDrbg {
        key: Fixed::of(&state.key[..len]),
        v,
        counter: state.counter,
        mode: Mode::UseDf,
    }
}

/// The DRBG of a state, where it is one.
pub fn opened(state: &RbgDrbg) -> Option<Drbg>
    ensures { MatchOption result (kind_in state.now ≡ None) (λ d. IsRead state.now d) }
{
    match kind_of_state(state)? {
        Kind::HmacSha256 => Some(Drbg::Hmac(hmac_of(state, Hash::Sha256))),
        Kind::HmacSha384 => Some(Drbg::Hmac(hmac_of(state, Hash::Sha384))),
        Kind::HmacSha512 => Some(Drbg::Hmac(hmac_of(state, Hash::Sha512))),
        Kind::CtrAes128 => Some(Drbg::Ctr(ctr_of(state, 16))),
        Kind::CtrAes192 => Some(Drbg::Ctr(ctr_of(state, 24))),
        Kind::CtrAes256 => Some(Drbg::Ctr(ctr_of(state, 32))),
    }
}

// Bytes, and zeros behind them.
fn padded(bytes: &[u8]) -> [u8; 64]
    requires { length bytes.now ≤ 64 }
    ensures { result ≡ bytes.now ++ replicate (64 - length bytes.now) 0 }
{
    let mut all = [0u8; 64];
    put_front(&mut all, bytes);
    all
}

/// Writes a DRBG back into its state.
pub fn keep(state: &mut RbgDrbg, drbg: &Drbg)
    requires { IsWellFormed drbg.now }
    ensures { state.new ≡ stored state.old.kind (counter_of drbg.now) (working drbg.now) }
{
    state.counter = drbg.counter();
    state.reserved = 0;
    match drbg {
        Drbg::Hmac(drbg) => {
            state.key = padded(drbg.k.as_slice());
            state.value = padded(drbg.v.as_slice());
        }
        Drbg::Ctr(drbg) => {
            state.key = padded(drbg.key.as_slice());
            state.value = padded(&drbg.v);
        }
    }
}
