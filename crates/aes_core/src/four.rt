// Four blocks of sixteen bytes side by side in one vector.
ghost use Rattle.std.specs.Prelude.{◌≡◌, ◌++◌, ◌∷◌, [], take, drop};

use std::simd::prelude::*;

// One block four times.
#[inline(always)]
pub(crate) fn four_times(v: u8x16) -> u8x64
    ensures { result ≡ v ++ v ++ v ++ v }
{
    v.swizzle([
        0, 1, 2, 3, 4, 5, 6, 7, 8, 9, 10, 11, 12, 13, 14, 15, 0, 1, 2, 3, 4, 5, 6, 7, 8, 9, 10, 11,
        12, 13, 14, 15, 0, 1, 2, 3, 4, 5, 6, 7, 8, 9, 10, 11, 12, 13, 14, 15, 0, 1, 2, 3, 4, 5, 6,
        7, 8, 9, 10, 11, 12, 13, 14, 15,
    ])
}

// Two blocks in a row.
#[inline(always)]
fn pair(a: u8x16, b: u8x16) -> u8x32
    ensures { result ≡ a ++ b }
{
    a.shuffle(
        b,
        [
            0, 1, 2, 3, 4, 5, 6, 7, 8, 9, 10, 11, 12, 13, 14, 15, 16, 17, 18, 19, 20, 21, 22, 23,
            24, 25, 26, 27, 28, 29, 30, 31,
        ],
    )
}

// Four blocks in a row.
#[inline(always)]
pub(crate) fn joined(a: u8x16, b: u8x16, c: u8x16, d: u8x16) -> u8x64
    ensures { result ≡ a ++ b ++ c ++ d }
{
    pair(a, b).shuffle(
        pair(c, d),
        [
            0, 1, 2, 3, 4, 5, 6, 7, 8, 9, 10, 11, 12, 13, 14, 15, 16, 17, 18, 19, 20, 21, 22, 23,
            24, 25, 26, 27, 28, 29, 30, 31, 32, 33, 34, 35, 36, 37, 38, 39, 40, 41, 42, 43, 44, 45,
            46, 47, 48, 49, 50, 51, 52, 53, 54, 55, 56, 57, 58, 59, 60, 61, 62, 63,
        ],
    )
}

// The first block.
#[inline(always)]
pub(crate) fn first(s: u8x64) -> u8x16
    ensures { result ≡ take 16 s }
{
    s.extract::<0, 16>()
}

// The four blocks one by one.
#[inline(always)]
pub(crate) fn parted(s: u8x64) -> [[u8; 16]; 4]
    ensures { result ≡ take 16 s ∷ take 16 (drop 16 s) ∷ take 16 (drop 32 s) ∷ take 16 (drop 48 s) ∷ [] }
{
    [
        s.extract::<0, 16>().to_array(),
        s.extract::<16, 16>().to_array(),
        s.extract::<32, 16>().to_array(),
        s.extract::<48, 16>().to_array(),
    ]
}
