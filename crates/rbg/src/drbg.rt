// The calls on a DRBG's state.
ghost use Rattle.std.specs.Prelude.{◌≡◌, ◌≢◌, ◌+◌, [], length, replicate, Some};
ghost use Rattle.rbg_bytes.specs.declared.kind.Kind.{Kind};
ghost use Rattle.drbg_any.specs.Drbg.{instantiated, reseeded, generated, after_generate};
ghost use Rattle.rbg.specs.State.{kind_numbered, kind_in, held, stored};
ghost use Rattle.rbg.specs.Statuses.{instantiate_status, reseed_status, generate_status, fresh_status, counter_status, due_status};

use crate::state::{RbgDrbg, keep, kind_of_number, kind_of_state, opened};
use crate::status::{
    BAD_INTERVAL, BAD_KIND, BAD_STATE, DONE, LONG_ENTROPY, LONG_NONCE, LONG_OUTPUT, LONG_STRING,
    RESEED_REQUIRED,
};
use drbg_any::Drbg;

// The longest string and the longest output, in bytes.
const MAX_LEN: usize = 65_536;

// The greatest reseed interval.
const MAX_INTERVAL: u64 = 1 << 48;

/// Makes a state of the kind with this number of entropy, a nonce and a personalization string, with the counter at 1 (SP
/// 800-90A Rev. 1, 9.1). What stood in the state before is not looked at. Each string has at most 65,536 bytes; the standard
/// asks for as much entropy as the kind's strength.
#[unsafe(no_mangle)]
pub extern "C" fn rbg_drbg_instantiate(
    state: &mut RbgDrbg,
    kind: u32,
    entropy: &[u8],
    nonce: &[u8],
    pers: &[u8],
) -> u32
    ensures status { result ≡ instantiate_status kind entropy.now nonce.now pers.now }
    ensures refused { result ≢ DONE → state.new ≡ state.old }
    ensures state { (k : Kind) → kind_numbered kind ≡ Some k → result ≡ DONE →
        state.new ≡ stored kind 1 (instantiated k entropy.now nonce.now pers.now) }
{
    let Some(served) = kind_of_number(kind) else {
        return BAD_KIND;
    };
    if entropy.len() > MAX_LEN {
        return LONG_ENTROPY;
    }
    if nonce.len() > MAX_LEN {
        return LONG_NONCE;
    }
    if pers.len() > MAX_LEN {
        return LONG_STRING;
    }
    let drbg = Drbg::instantiate(served, entropy, nonce, pers);
    state.kind = kind;
    keep(state, &drbg);
    DONE
}

/// Mixes entropy and additional input into the state, and sets its counter to 1 (SP 800-90A Rev. 1, 9.2). Each string has at
/// most 65,536 bytes.
#[unsafe(no_mangle)]
pub extern "C" fn rbg_drbg_reseed(state: &mut RbgDrbg, entropy: &[u8], add: &[u8]) -> u32
    ensures status { result ≡ reseed_status state.old entropy.now add.now }
    ensures refused { result ≢ DONE → state.new ≡ state.old }
    ensures state { (k : Kind) → kind_in state.old ≡ Some k → result ≡ DONE →
        state.new ≡ stored state.old.kind 1 (reseeded k entropy.now add.now (held k state.old)) }
{
    let Some(mut drbg) = opened(state) else {
        return BAD_STATE;
    };
    if entropy.len() > MAX_LEN {
        return LONG_ENTROPY;
    }
    if add.len() > MAX_LEN {
        return LONG_STRING;
    }
    drbg.reseed(entropy, add);
    keep(state, &drbg);
    DONE
}

/// Fills `out` with the next bytes, at most 65,536, after mixing in the additional input where there is any, and counts one
/// generate (SP 800-90A Rev. 1, 9.3). The interval is 1 to 2^48; where the counter is above it a reseed is required.
#[unsafe(no_mangle)]
pub extern "C" fn rbg_drbg_generate(
    state: &mut RbgDrbg,
    add: &[u8],
    interval: u64,
    out: &mut [u8],
) -> u32
    ensures status { result ≡ generate_status state.old add.now interval (length out.old) }
    ensures refused { result ≢ DONE → (state.new ≡ state.old) × (out.new ≡ out.old) }
    ensures bytes { (k : Kind) → kind_in state.old ≡ Some k → result ≡ DONE →
        out.new ≡ generated k add.now (length out.old) (held k state.old) }
    ensures state { (k : Kind) → kind_in state.old ≡ Some k → result ≡ DONE →
        state.new ≡ stored state.old.kind (state.old.counter + 1) (after_generate k add.now (length out.old) (held k state.old)) }
{
    let Some(mut drbg) = opened(state) else {
        return BAD_STATE;
    };
    if add.len() > MAX_LEN {
        return LONG_STRING;
    }
    if interval == 0 || interval > MAX_INTERVAL {
        return BAD_INTERVAL;
    }
    if out.len() > MAX_LEN {
        return LONG_OUTPUT;
    }
    match drbg.generate(add, interval, out) {
        Ok(()) => {
            keep(state, &drbg);
            DONE
        }
        Err(_) => RESEED_REQUIRED,
    }
}

/// Reseeds with entropy and additional input, and fills `out` by a generate without additional input, which leaves the counter
/// at 2 (prediction resistance, SP 800-90A Rev. 1, 9.3.1, steps 7 and 8). Each string and `out` have at most 65,536 bytes.
#[unsafe(no_mangle)]
pub extern "C" fn rbg_drbg_generate_fresh(
    state: &mut RbgDrbg,
    entropy: &[u8],
    add: &[u8],
    out: &mut [u8],
) -> u32
    ensures status { result ≡ fresh_status state.old entropy.now add.now (length out.old) }
    ensures refused { result ≢ DONE → (state.new ≡ state.old) × (out.new ≡ out.old) }
    ensures bytes { (k : Kind) → kind_in state.old ≡ Some k → result ≡ DONE →
        let fresh = reseeded k entropy.now add.now (held k state.old) in
        out.new ≡ generated k [] (length out.old) fresh }
    ensures state { (k : Kind) → kind_in state.old ≡ Some k → result ≡ DONE →
        let fresh = reseeded k entropy.now add.now (held k state.old) in
        state.new ≡ stored state.old.kind 2 (after_generate k [] (length out.old) fresh) }
{
    let Some(mut drbg) = opened(state) else {
        return BAD_STATE;
    };
    if entropy.len() > MAX_LEN {
        return LONG_ENTROPY;
    }
    if add.len() > MAX_LEN {
        return LONG_STRING;
    }
    if out.len() > MAX_LEN {
        return LONG_OUTPUT;
    }
    drbg.generate_fresh(entropy, add, out);
    keep(state, &drbg);
    DONE
}

/// Writes the reseed counter, one more than the number of generates since the last seeding.
#[unsafe(no_mangle)]
pub extern "C" fn rbg_drbg_counter(state: &RbgDrbg, counter: &mut u64) -> u32
    ensures status { result ≡ counter_status state.now }
    ensures refused { result ≢ DONE → counter.new ≡ counter.old }
    ensures value { result ≡ DONE → counter.new ≡ state.now.counter }
{
    if kind_of_state(state).is_none() {
        return BAD_STATE;
    }
    *counter = state.counter;
    DONE
}

/// Whether a generate under this interval, from 1 to 2^48, would ask for a reseed first: the answer is then `RESEED_REQUIRED`,
/// else `DONE`.
#[unsafe(no_mangle)]
pub extern "C" fn rbg_drbg_due(state: &RbgDrbg, interval: u64) -> u32
    ensures { result ≡ due_status state.now interval }
{
    if kind_of_state(state).is_none() {
        return BAD_STATE;
    }
    if interval == 0 || interval > MAX_INTERVAL {
        return BAD_INTERVAL;
    }
    if state.counter > interval {
        return RESEED_REQUIRED;
    }
    DONE
}

/// Leaves zeros in every field (SP 800-90A Rev. 1, 9.4). It takes any state, and what it leaves is no state.
#[unsafe(no_mangle)]
pub extern "C" fn rbg_drbg_clear(state: &mut RbgDrbg)
    ensures { state.new ≡ record { counter = 0; kind = 0; reserved = 0; key = replicate 64 0; value = replicate 64 0 } }
{
    state.counter = 0;
    state.kind = 0;
    state.reserved = 0;
    state.key = [0; 64];
    state.value = [0; 64];
}
