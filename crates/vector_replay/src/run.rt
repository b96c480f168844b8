// The run of a case.
ghost use Rattle.std.specs.Prelude.{◌≡◌, ◌≤◌, ◌+◌, ◌^◌, length, is_some, not, IfSome, IfNone};
ghost use Rattle.std.specs.Bool.{OnTrue};
ghost use Rattle.std.specs.Prelude.{◌&&◌, Some};
ghost use Rattle.df_core.specs.KeyLen.{key_bytes};
ghost use Rattle.hmac_drbg.specs.HmacDrbg as hmac_spec;
ghost use Rattle.hmac_drbg.specs.State as hmac_state;
ghost use Rattle.ctr_drbg.specs.State as ctr_state;
ghost use Rattle.ctr_drbg.specs.CtrDrbg as ctr_spec;
ghost use Rattle.ctr_drbg.specs.CtrDrbg.{seed_len};
ghost use Rattle.ctr_drbg.specs.Lengths.{bad_length, long_string};
ghost use Rattle.vector_replay.specs.Run.{ctr, give_refused, given, hmac, left, output_of, readied, run_refused, second_output, verdict_of};

use crate::judgement::Verdict;
use ctr_drbg::{CtrDrbg, KeyLen, Mode};
use hmac_core::Hash;
use hmac_drbg::HmacDrbg;
use rbg_bytes::Fixed;
use vector_text::{Case, Mech};

/// The reseed interval of a run, 2^48, the greatest that the standard allows (SP 800-90A Rev. 1, tables 2 and 3).
const INTERVAL: u64 = 1 << 48;

// A generate of HMAC_DRBG, which the interval doesn't refuse.
fn hmac_generate(drbg: &mut HmacDrbg, add: &[u8], out: &mut [u8])
    requires formed { hmac_state.IsWellFormed drbg.old }
    requires counter { drbg.old.counter ≤ 2 ^ 48 }
    ensures bytes { out.new ≡ (hmac drbg.old.hash).bytes add.now (length out.old) (hmac_state.working drbg.old) }
    ensures state { hmac_state.working drbg.new ≡ (hmac drbg.old.hash).behind add.now (length out.old) (hmac_state.working drbg.old) }
    ensures hash { drbg.new.hash ≡ drbg.old.hash }
    ensures counter { drbg.new.counter ≤ drbg.old.counter + 1 }
    ensures formed { hmac_state.IsWellFormed drbg.new }
{
    match drbg.generate(add, INTERVAL, out) {
        Ok(()) => {}
        Err(_) => unreachable!(),
    }
}

// One generate of a case by HMAC_DRBG.
fn hmac_give(drbg: &mut HmacDrbg, pr: bool, entropy: &[u8], add: &[u8], out: &mut [u8])
    requires formed { hmac_state.IsWellFormed drbg.old }
    requires counter { drbg.old.counter + 1 ≤ 2 ^ 48 }
    ensures bytes { out.new ≡ given (hmac drbg.old.hash) pr entropy.now add.now (length out.old) (hmac_state.working drbg.old) }
    ensures state { hmac_state.working drbg.new ≡ left (hmac drbg.old.hash) pr entropy.now add.now (length out.old) (hmac_state.working drbg.old) }
    ensures hash { drbg.new.hash ≡ drbg.old.hash }
    ensures counter { drbg.new.counter ≤ drbg.old.counter + 2 }
    ensures formed { hmac_state.IsWellFormed drbg.new }
{
    if pr {
        drbg.reseed(entropy, add);
        hmac_generate(drbg, &[], out);
    } else {
        hmac_generate(drbg, add, out);
    }
}

// The reseed before the generates of a case by HMAC_DRBG.
fn hmac_ready(drbg: &mut HmacDrbg, case: &Case)
    requires formed { hmac_state.IsWellFormed drbg.old }
    requires counter { drbg.old.counter ≡ 1 }
    ensures state { hmac_state.working drbg.new ≡ readied (hmac drbg.old.hash) case.now (hmac_state.working drbg.old) }
    ensures hash { drbg.new.hash ≡ drbg.old.hash }
    ensures counter { drbg.new.counter ≡ 1 }
    ensures formed { hmac_state.IsWellFormed drbg.new }
{
    if case.has_reseed {
        drbg.reseed(case.reseed.as_slice(), case.add_reseed.as_slice());
    }
}

// The run of a case by HMAC_DRBG; `out` gets the second output.
fn hmac_run(hash: Hash, case: &Case, out: &mut [u8])
    requires { length out.old ≡ length case.now.returned }
    ensures { out.new ≡ second_output (hmac hash) case.now (hmac_spec.instantiated hash case.now.entropy case.now.nonce case.now.pers) }
{
    let mut drbg = HmacDrbg::instantiate(
        hash,
        case.entropy.as_slice(),
        case.nonce.as_slice(),
        case.pers.as_slice(),
    );
    hmac_ready(&mut drbg, case);
    hmac_give(
        &mut drbg,
        case.pr,
        case.pr1.as_slice(),
        case.add1.as_slice(),
        out,
    );
    hmac_give(
        &mut drbg,
        case.pr,
        case.pr2.as_slice(),
        case.add2.as_slice(),
        out,
    );
}

// A generate of CTR_DRBG, which the interval doesn't refuse; says whether the length of the additional input was allowed.
fn ctr_generate(drbg: &mut CtrDrbg, add: &[u8], out: &mut [u8]) -> bool
    requires formed { ctr_state.IsWellFormed drbg.old }
    requires counter { drbg.old.counter ≤ 2 ^ 48 }
    requires add { length add.now ≤ 4096 }
    requires out { length out.old ≤ 4096 }
    ensures done { result ≡ not (is_some (long_string drbg.old.mode (seed_len (length drbg.old.key)) add.now)) }
    ensures bytes { OnTrue result (out.new ≡ ctr_spec.generated drbg.old.mode add.now (length out.old) (ctr_state.working drbg.old)) }
    ensures state { OnTrue result (ctr_state.working drbg.new ≡ ctr_spec.after_generate drbg.old.mode add.now (length out.old) (ctr_state.working drbg.old)) }
    ensures mode { drbg.new.mode ≡ drbg.old.mode }
    ensures key { length drbg.new.key ≡ length drbg.old.key }
    ensures counter { drbg.new.counter ≤ drbg.old.counter + 1 }
{
    match drbg.generate(add, INTERVAL, out) {
        Ok(()) => true,
        Err(_) => false,
    }
}

// One generate of a case by CTR_DRBG; says whether its lengths were allowed.
fn ctr_give(drbg: &mut CtrDrbg, pr: bool, entropy: &[u8], add: &[u8], out: &mut [u8]) -> bool
    requires formed { ctr_state.IsWellFormed drbg.old }
    requires counter { drbg.old.counter + 1 ≤ 2 ^ 48 }
    requires entropy { length entropy.now ≤ 4096 }
    requires add { length add.now ≤ 4096 }
    requires out { length out.old ≤ 4096 }
    ensures done { result ≡ not (give_refused drbg.old.mode (seed_len (length drbg.old.key)) pr entropy.now add.now) }
    ensures bytes { OnTrue result (out.new ≡ given (ctr drbg.old.mode) pr entropy.now add.now (length out.old) (ctr_state.working drbg.old)) }
    ensures state { OnTrue result (ctr_state.working drbg.new ≡ left (ctr drbg.old.mode) pr entropy.now add.now (length out.old) (ctr_state.working drbg.old)) }
    ensures mode { drbg.new.mode ≡ drbg.old.mode }
    ensures key { length drbg.new.key ≡ length drbg.old.key }
    ensures counter { drbg.new.counter ≤ drbg.old.counter + 2 }
{
    if !pr {
        return ctr_generate(drbg, add, out);
    }
    match drbg.reseed(entropy, add) {
        Ok(()) => ctr_generate(drbg, &[], out),
        Err(_) => false,
    }
}

// The reseed before the generates of a case by CTR_DRBG; says whether its lengths were allowed.
fn ctr_ready(drbg: &mut CtrDrbg, case: &Case) -> bool
    requires formed { ctr_state.IsWellFormed drbg.old }
    requires counter { drbg.old.counter ≡ 1 }
    ensures done { result ≡ not (case.now.has_reseed && is_some (bad_length drbg.old.mode (seed_len (length drbg.old.key)) case.now.reseed case.now.add_reseed)) }
    ensures state { OnTrue result (ctr_state.working drbg.new ≡ readied (ctr drbg.old.mode) case.now (ctr_state.working drbg.old)) }
    ensures mode { drbg.new.mode ≡ drbg.old.mode }
    ensures key { length drbg.new.key ≡ length drbg.old.key }
    ensures counter { drbg.new.counter ≡ 1 }
{
    if !case.has_reseed {
        return true;
    }
    match drbg.reseed(case.reseed.as_slice(), case.add_reseed.as_slice()) {
        Ok(()) => true,
        Err(_) => false,
    }
}

// The instantiation of a case by CTR_DRBG, where its lengths were allowed.
fn ctr_begun(keylen: KeyLen, mode: Mode, case: &Case) -> Option<CtrDrbg>
    ensures done { is_some result ≡ not (is_some (bad_length mode (seed_len (key_bytes keylen)) case.now.entropy case.now.pers)) }
    ensures state { IfSome result (λ d. ctr_state.working d ≡ ctr_spec.instantiated mode (key_bytes keylen) case.now.entropy case.now.nonce case.now.pers) }
    ensures mode { IfSome result (λ d. d.mode ≡ mode) }
    ensures key { IfSome result (λ d. length d.key ≡ key_bytes keylen) }
    ensures counter { IfSome result (λ d. d.counter ≡ 1) }
{
    let begun = CtrDrbg::instantiate(
        mode,
        keylen,
        case.entropy.as_slice(),
        case.nonce.as_slice(),
        case.pers.as_slice(),
    );
    match begun {
        Ok(drbg) => Some(drbg),
        Err(_) => None,
    }
}

// The run of a case by CTR_DRBG; says whether its lengths were allowed, and then `out` gets the second output.
fn ctr_run(keylen: KeyLen, mode: Mode, case: &Case, out: &mut [u8]) -> bool
    requires length { length out.old ≡ length case.now.returned }
    requires bound { length out.old ≤ 4096 }
    ensures done { result ≡ not (run_refused mode (seed_len (key_bytes keylen)) case.now) }
    ensures bytes { OnTrue result (out.new ≡ second_output (ctr mode) case.now (ctr_spec.instantiated mode (key_bytes keylen) case.now.entropy case.now.nonce case.now.pers)) }
{
    let Some(mut drbg) = ctr_begun(keylen, mode, case) else {
        return false;
    };
    if !ctr_ready(&mut drbg, case) {
        return false;
    }
    if !ctr_give(
        &mut drbg,
        case.pr,
        case.pr1.as_slice(),
        case.add1.as_slice(),
        out,
    ) {
        return false;
    }
    ctr_give(
        &mut drbg,
        case.pr,
        case.pr2.as_slice(),
        case.add2.as_slice(),
        out,
    )
}

// The run of a case; says whether its lengths were allowed, and then `out` gets the second output.
fn run(case: &Case, out: &mut [u8]) -> bool
    requires length { length out.old ≡ length case.now.returned }
    requires bound { length out.old ≤ 4096 }
    ensures done { result ≡ is_some (output_of case.now) }
    ensures bytes { OnTrue result (output_of case.now ≡ Some out.new) }
{
    match case.mech {
        Mech::Hmac(hash) => {
            hmac_run(hash, case, out);
            true
        }
        Mech::Ctr(keylen, mode) => ctr_run(keylen, mode, case, out),
    }
}

/// Runs a case by the functions of its mechanism, with an interval of 2^48: an instantiation, a reseed where there is one, and
/// two generates of as many bytes as the case wants. `got` becomes the second output; where the lengths are bad it stays as
/// it was.
pub fn verdict(case: &Case, got: &mut Fixed<4096>) -> Verdict
    ensures verdict { result ≡ verdict_of case.now }
    ensures got { IfSome (output_of case.now) (λ bytes. got.new ≡ bytes) }
    ensures kept { IfNone (output_of case.now) (got.new ≡ got.old) }
{
    let mut bytes = [0u8; 4096];
    let out = &mut bytes[..case.returned.as_slice().len()];
    if !run(case, out) {
        return Verdict::BadLengths;
    }
    *got = Fixed::of(out);
    if got.as_slice() == case.returned.as_slice() {
        Verdict::Same
    } else {
        Verdict::Differs
    }
}
