// SubBytes on the bytes of four states side by side. A byte becomes two halves over GF(16), is inverted there, and comes
// back through the affine map. Each look-up is in a table of sixteen entries that lies in a register. The method is M.
// Hamburg's, "Accelerating AES with Vector Permute Instructions" (CHES 2009).
//
// Each function gives one of the values on the way, as a function of the byte that stands in the lane. A value that several
// need is written out in each of them; inlined, it is computed once.
ghost use Rattle.std.specs.Prelude.{◌≡◌, map};
ghost use Rattle.std.specs.Simd.Lanes.{Each1};
ghost use Rattle.aes_core.specs.Field.{sub_byte};
ghost use Rattle.aes_core.specs.Code.Inversion.{IsRead, entered_of, first_of, first_place, look, lower_of, result_of, second_of, second_place, share_of, sum_of, upper_of};

use crate::four::four_times;
use crate::tables::{IN_HIGH, IN_LOW, INVERSE, OUT_FIRST, OUT_SECOND, SHARE};
use std::simd::prelude::*;

// The entries at the places in the lanes, and 0 at places from 128 on.
#[inline(always)]
fn look_up(table: [u8; 16], v: u8x64) -> u8x64
    requires { Each1 IsRead v }
    ensures { result ≡ map (look table) v }
{
    four_times(u8x16::from_array(table)).swizzle_dyn_within::<16>(v)
}

// The lower half of each byte.
#[inline(always)]
fn lower(v: u8x64) -> u8x64
    ensures { result ≡ map lower_of v }
{
    v & u8x64::splat(15)
}

// The upper half of each byte.
#[inline(always)]
fn upper(v: u8x64) -> u8x64
    ensures { result ≡ map upper_of v }
{
    v >> u8x64::splat(4)
}

// Each byte as two halves over GF(16).
#[inline(always)]
fn entered(v: u8x64) -> u8x64
    ensures { result ≡ map entered_of v }
{
    look_up(IN_LOW, lower(v)) ^ look_up(IN_HIGH, upper(v))
}

// The sum of the two halves.
#[inline(always)]
fn sum(y: u8x64) -> u8x64
    ensures { result ≡ map sum_of y }
{
    upper(y) ^ lower(y)
}

// The constant over the lower half.
#[inline(always)]
fn share(y: u8x64) -> u8x64
    ensures { result ≡ map share_of y }
{
    look_up(SHARE, lower(y))
}

// Where the first half of the inverse is looked up.
#[inline(always)]
fn first_place(y: u8x64) -> u8x64
    ensures { result ≡ map first_place y }
{
    look_up(INVERSE, upper(y)) ^ share(y)
}

// Where the second half of the inverse is looked up.
#[inline(always)]
fn second_place(y: u8x64) -> u8x64
    ensures { result ≡ map second_place y }
{
    look_up(INVERSE, sum(y)) ^ share(y)
}

// The first half of the inverse.
#[inline(always)]
fn first(y: u8x64) -> u8x64
    ensures { result ≡ map first_of y }
{
    look_up(INVERSE, first_place(y)) ^ sum(y)
}

// The second half of the inverse.
#[inline(always)]
fn second(y: u8x64) -> u8x64
    ensures { result ≡ map second_of y }
{
    look_up(INVERSE, second_place(y)) ^ upper(y)
}

// The inverse through the affine map.
#[inline(always)]
fn inverted(y: u8x64) -> u8x64
    ensures { result ≡ map result_of y }
{
    look_up(OUT_FIRST, first(y)) ^ look_up(OUT_SECOND, second(y)) ^ u8x64::splat(0x63)
}

// SubBytes of all lanes.
#[inline(always)]
pub(crate) fn substituted(s: u8x64) -> u8x64
    ensures { result ≡ map sub_byte s }
{
    inverted(entered(s))
}
