// What the update is given, and the lengths that are refused without the derivation function.
ghost use Rattle.std.specs.Prelude.{◌≡◌, ◌≤◌, ◌+◌, ◌++◌, length, replicate, IsOk, IsErrOf, IfOk, MatchOption};
ghost use Rattle.aes_core.specs.Keys.{IsKeyLength};
ghost use Rattle.df_core.specs.KeyLen.{key_bytes};
ghost use Rattle.df_core.specs.Df.{df};
ghost use Rattle.rbg_bytes.specs.Xor.{xor_bytes};
ghost use Rattle.ctr_drbg.specs.CtrDrbg.{first_seed, seed_len, stretched, zero_padded};
ghost use Rattle.ctr_drbg.specs.Lengths.{bad_length, long_string, FitsSeed};

use df_core::{Df, KeyLen};
use rbg_bytes::{Fixed, put_front, xor_bytes};

/// Whether CTR_DRBG uses the derivation function Block_Cipher_df (SP 800-90A Rev. 1, 10.2.1).
#[derive(Clone, Copy, Debug, PartialEq, Eq)]
pub enum Mode {
    /// Entropy, nonce and strings of any length are condensed by Block_Cipher_df.
    UseDf,
    /// The entropy has seedlen bytes, strings have at most as many, and no nonce is used.
    NoDf,
}

/// Without the derivation function: the entropy has not seedlen bytes, or a string has more. `len` is the length that was
/// given, `want` is seedlen: 32, 40 or 48 bytes.
#[derive(Clone, Copy, Debug, PartialEq, Eq)]
pub struct BadSeedLength {
    pub len: usize,
    pub want: usize,
}

// The length of a key as KeyLen.
pub(crate) fn keylen_of(key: &[u8]) -> KeyLen
    requires { IsKeyLength (length key.now) }
    ensures { key_bytes result ≡ length key.now }
{
    match key.len() {
        16 => KeyLen::K16,
        24 => KeyLen::K24,
        _ => KeyLen::K32,
    }
}

// The bytes with zeros after them.
fn zero_padded(bytes: &[u8], n: usize) -> Fixed<48>
    requires fits { length bytes.now ≤ n }
    requires bound { n ≤ 48 }
    ensures { result ≡ zero_padded n bytes.now }
{
    let mut padded = [0u8; 48];
    padded[..bytes.len()].copy_from_slice(bytes);
    Fixed::of(&padded[..n])
}

// Zero bytes.
pub(crate) fn zeros(n: usize) -> Fixed<64>
    requires { n ≤ 64 }
    ensures { result ≡ replicate n 0 }
{
    let bytes = [0u8; 64];
    Fixed::of(&bytes[..n])
}

// Block_Cipher_df of three strings in a row, with seedlen bytes wanted.
fn derived(keylen: KeyLen, first: &[u8], second: &[u8], third: &[u8]) -> Fixed<64>
    requires first { length first.now ≤ 65536 }
    requires second { length second.now ≤ 65536 }
    requires third { length third.now ≤ 65536 }
    ensures bytes { result ≡ df (key_bytes keylen) (first.now ++ second.now ++ third.now) (seed_len (key_bytes keylen)) }
    ensures long { length result ≡ seed_len (key_bytes keylen) }
{
    let total = first.len() + second.len() + third.len();
    let mut df = match Df::new(keylen, total as u32, keylen.bytes() + 16) {
        Ok(df) => df,
        Err(_) => unreachable!(),
    };
    df.push(first);
    df.push(second);
    df.push(third);
    df.finish()
}

// The additional input of a generate, derived or padded to seedlen bytes.
pub(crate) fn stretched(mode: Mode, keylen: KeyLen, add: &[u8]) -> Fixed<64>
    requires add { length add.now ≤ 65536 }
    requires fits { FitsSeed mode (seed_len (key_bytes keylen)) add.now }
    ensures bytes { result ≡ stretched mode (key_bytes keylen) add.now }
    ensures long { length result ≡ seed_len (key_bytes keylen) }
{
    match mode {
        Mode::UseDf => derived(keylen, add, &[], &[]),
        Mode::NoDf => {
            let padded = zero_padded(add, keylen.bytes() + 16);
            Fixed::of(padded.as_slice())
        }
    }
}

// Without the derivation function: whether a string has at most seedlen bytes, `want`.
pub(crate) fn check_string(mode: Mode, want: usize, string: &[u8]) -> Result<(), BadSeedLength>
    ensures { MatchOption (long_string mode want string.now) (IsOk result) (λ len. IsErrOf result (record { len = len; want = want })) }
{
    let len = string.len();
    if mode == Mode::NoDf && len > want {
        return Err(BadSeedLength { len, want });
    }
    Ok(())
}

// Without the derivation function: whether the lengths are as they must be, the entropy's first.
fn check_lengths(
    mode: Mode,
    want: usize,
    entropy: &[u8],
    string: &[u8],
) -> Result<(), BadSeedLength>
    ensures { MatchOption (bad_length mode want entropy.now string.now) (IsOk result) (λ len. IsErrOf result (record { len = len; want = want })) }
{
    let len = entropy.len();
    if mode == Mode::NoDf && len != want {
        return Err(BadSeedLength { len, want });
    }
    check_string(mode, want, string)
}

// The sum of a row of bytes and of another with zeros after it.
fn padded_sum(bytes: &[u8], string: &[u8], n: usize) -> Fixed<64>
    requires bytes { length bytes.now ≡ n }
    requires string { length string.now ≤ n }
    requires bound { n ≤ 48 }
    ensures bytes { result ≡ xor_bytes bytes.now (zero_padded n string.now) }
    ensures long { length result ≡ n }
{
    let mut sum = [0u8; 48];
    put_front(&mut sum, bytes);
    xor_bytes(&mut sum[..n], zero_padded(string, n).as_slice());
    Fixed::of(&sum[..n])
}

// What an instantiation gives the update; with an empty nonce, what a reseed does.
pub(crate) fn seed_of(
    mode: Mode,
    keylen: KeyLen,
    entropy: &[u8],
    nonce: &[u8],
    string: &[u8],
) -> Result<Fixed<64>, BadSeedLength>
    requires entropy { length entropy.now ≤ 65536 }
    requires nonce { length nonce.now ≤ 65536 }
    requires string { length string.now ≤ 65536 }
    ensures refused { let want = seed_len (key_bytes keylen) in MatchOption (bad_length mode want entropy.now string.now)
        (IsOk result) (λ len. IsErrOf result (record { len = len; want = want })) }
    ensures seed { IfOk result (λ seed. seed ≡ first_seed mode (key_bytes keylen) entropy.now nonce.now string.now) }
    ensures long { IfOk result (λ seed. length seed ≡ seed_len (key_bytes keylen)) }
{
    let want = keylen.bytes() + 16;
    check_lengths(mode, want, entropy, string)?;
    match mode {
        Mode::UseDf => Ok(derived(keylen, entropy, nonce, string)),
        Mode::NoDf => Ok(padded_sum(entropy, string, want)),
    }
}
