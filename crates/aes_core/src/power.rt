// SubBytes by products in the field, without any table: the inverse of a byte is its 254th power. `inversion` computes the same
// some twenty times as fast; this is the plain form, which a test compares with it.
ghost use Rattle.std.specs.Prelude.{◌≡◌, ◌<◌, ◌≤◌, ◌-◌, map};
ghost use Rattle.std.specs.Simd.Lanes.{zip2};
ghost use Rattle.aes_core.specs.Field.{affine, inverse, sub_byte, times};
ghost use Rattle.aes_core.specs.Code.Power.{term_of, turned_of};

use crate::rounds::doubled;
use std::simd::prelude::*;

// The multiple where bit `k` is set, and 0 elsewhere.
fn term(bits: u8x64, k: u8, multiple: u8x64) -> u8x64
    requires { k < 8 }
    ensures { result ≡ zip2 (term_of k) bits multiple }
{
    (u8x64::splat(0) - ((bits >> u8x64::splat(k)) & u8x64::splat(1))) & multiple
}

// The product of the bytes in each lane.
fn product(a: u8x64, b: u8x64) -> u8x64
    ensures { result ≡ zip2 times a b }
{
    let mut sum = u8x64::splat(0);
    let mut multiple = a;
    'bits: for k in 0u8..8 {
        sum = sum ^ term(b, k, multiple);
        multiple = doubled(multiple);
    }
    sum
}

// The inverse of each byte, as its 254th power.
fn inverse(x: u8x64) -> u8x64
    ensures { result ≡ map inverse x }
{
    let x2 = product(x, x);
    let x3 = product(x2, x);
    let x6 = product(x3, x3);
    let x12 = product(x6, x6);
    let x15 = product(x12, x3);
    let x30 = product(x15, x15);
    let x60 = product(x30, x30);
    let x120 = product(x60, x60);
    let x240 = product(x120, x120);
    let x252 = product(x240, x12);
    product(x252, x2)
}

// Each byte with its bits turned left by `k` places.
fn turned(y: u8x64, k: u8) -> u8x64
    requires { (1 ≤ k) × (k < 8) }
    ensures { result ≡ map (turned_of k) y }
{
    (y << u8x64::splat(k)) ^ (y >> u8x64::splat(8 - k))
}

// The affine map of each byte.
fn affine(y: u8x64) -> u8x64
    ensures { result ≡ map affine y }
{
    y ^ turned(y, 1) ^ turned(y, 2) ^ turned(y, 3) ^ turned(y, 4) ^ u8x64::splat(0x63)
}

// SubBytes of all lanes.
pub(crate) fn substituted_by_power(s: u8x64) -> u8x64
    ensures { result ≡ map sub_byte s }
{
    affine(inverse(s))
}
