// The other steps of a round on four states side by side.
ghost use Rattle.std.specs.Prelude.{◌≡◌, ◌<◌, map};
ghost use Rattle.aes_core.specs.Field.{times};
ghost use Rattle.aes_core.specs.Aes.{add_round_key, mix_columns, shift_rows, sub_bytes};
ghost use Rattle.aes_core.specs.Code.Blocks.{each_block};

use crate::four::{first, four_times};
use crate::inversion::substituted;
use std::simd::prelude::*;

// Where each byte comes from in ShiftRows.
const SHIFTED: [usize; 64] = [
    0, 5, 10, 15, 4, 9, 14, 3, 8, 13, 2, 7, 12, 1, 6, 11, 16, 21, 26, 31, 20, 25, 30, 19, 24, 29,
    18, 23, 28, 17, 22, 27, 32, 37, 42, 47, 36, 41, 46, 35, 40, 45, 34, 39, 44, 33, 38, 43, 48, 53,
    58, 63, 52, 57, 62, 51, 56, 61, 50, 55, 60, 49, 54, 59,
];

// The place of the byte that ShiftRows puts below this one in its column.
const NEXT: [usize; 64] = [
    5, 6, 7, 4, 9, 10, 11, 8, 13, 14, 15, 12, 1, 2, 3, 0, 21, 22, 23, 20, 25, 26, 27, 24, 29, 30,
    31, 28, 17, 18, 19, 16, 37, 38, 39, 36, 41, 42, 43, 40, 45, 46, 47, 44, 33, 34, 35, 32, 53, 54,
    55, 52, 57, 58, 59, 56, 61, 62, 63, 60, 49, 50, 51, 48,
];

// Where each byte comes from in ShiftRows with each column moved up by two rows after it.
const SHIFTED_TWICE_ON: [usize; 64] = [
    10, 15, 0, 5, 14, 3, 4, 9, 2, 7, 8, 13, 6, 11, 12, 1, 26, 31, 16, 21, 30, 19, 20, 25, 18, 23,
    24, 29, 22, 27, 28, 17, 42, 47, 32, 37, 46, 35, 36, 41, 34, 39, 40, 45, 38, 43, 44, 33, 58, 63,
    48, 53, 62, 51, 52, 57, 50, 55, 56, 61, 54, 59, 60, 49,
];

// The product of each byte with x.
#[inline(always)]
pub(crate) fn doubled(v: u8x64) -> u8x64
    ensures { result ≡ map (times 2) v }
{
    (v + v) ^ ((u8x64::splat(0) - (v >> u8x64::splat(7))) & u8x64::splat(0x1b))
}

// ShiftRows.
#[inline(always)]
fn shifted(s: u8x64) -> u8x64
    ensures { result ≡ each_block shift_rows s }
{
    s.swizzle(SHIFTED)
}

// MixColumns of ShiftRows, as 2 (a + b) + b + c + d for each byte a of a column, b, c and d being those after it. The sums are
// made at the places that the bytes have before ShiftRows.
#[inline(always)]
fn mixed(s: u8x64) -> u8x64
    ensures { result ≡ each_block (λ b. mix_columns (shift_rows b)) s }
{
    let next = s.swizzle(NEXT);
    let sum = s ^ next;
    shifted(doubled(sum) ^ next) ^ sum.swizzle(SHIFTED_TWICE_ON)
}

// AddRoundKey.
#[inline(always)]
fn with_key(keys: &[u8; 240], n: usize, s: u8x64) -> u8x64
    requires { n < 15 }
    ensures { result ≡ each_block (add_round_key keys.now n) s }
{
    s ^ four_times(u8x16::from_slice(&keys[16 * n..]))
}

// AddRoundKey of one block before the first round.
#[inline(always)]
pub(crate) fn with_first_key(keys: &[u8; 240], block: u8x16) -> u8x16
    ensures { result ≡ add_round_key keys.now 0 block }
{
    first(with_key(keys, 0, four_times(block)))
}

// Round `n`, which is not the last one.
#[inline(always)]
pub(crate) fn round(keys: &[u8; 240], n: usize, s: u8x64) -> u8x64
    requires { n < 15 }
    ensures { result ≡ each_block (λ b. add_round_key keys.now n (mix_columns (shift_rows (sub_bytes b)))) s }
{
    with_key(keys, n, mixed(substituted(s)))
}

// The last round, which is round `n`.
#[inline(always)]
pub(crate) fn last_round(keys: &[u8; 240], n: usize, s: u8x64) -> u8x64
    requires { n < 15 }
    ensures { result ≡ each_block (λ b. add_round_key keys.now n (shift_rows (sub_bytes b))) s }
{
    with_key(keys, n, shifted(substituted(s)))
}
