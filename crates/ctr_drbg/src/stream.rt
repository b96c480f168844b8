// The encryptions of V + 1, V + 2 and so on, and a block of them.
ghost use Rattle.std.specs.Prelude.{◌≡◌, ◌≤◌, ◌+◌, ◌*◌, ◌∷◌, ◌++◌, [], length, take, drop};
ghost use Rattle.std.specs.List.{concat};
ghost use Rattle.aes_core.specs.Aes.{aes as aes_of};
ghost use Rattle.df_core.specs.Df.{blocks_for};
ghost use Rattle.ctr_drbg.specs.CtrDrbg.{counted, plus_one, stream};

use aes_core::Aes;
use rbg_bytes::{put_at, put_front};

// The value after V, modulo 2^128.
fn next(v: [u8; 16]) -> [u8; 16]
    ensures { result ≡ plus_one v }
{
    u128::from_be_bytes(v).wrapping_add(1).to_be_bytes()
}

// The encryption of a block.
fn encrypted(aes: &Aes, block: [u8; 16]) -> [u8; 16]
    ensures { result ≡ aes_of aes.now block }
{
    let mut block = block;
    aes.encrypt(&mut block);
    block
}

// The four values after V.
fn next_four(v: [u8; 16]) -> [[u8; 16]; 4]
    ensures { result ≡ counted v 1 ∷ counted v 2 ∷ counted v 3 ∷ counted v 4 ∷ [] }
{
    let first = next(v);
    let second = next(first);
    let third = next(second);
    [first, second, third, next(third)]
}

// Puts four blocks in a row at a place.
fn put_four(out: &mut [u8], at: usize, blocks: &[[u8; 16]; 4])
    requires { at + 64 ≤ length out.old }
    ensures { take (at + 64) out.new ≡ take at out.old ++ concat blocks.now }
{
    put_at(out, at, &blocks[0]);
    put_at(out, at + 16, &blocks[1]);
    put_at(out, at + 32, &blocks[2]);
    put_at(out, at + 48, &blocks[3]);
}

// Puts the encryptions of V + 1, V + 2 and so on in the front of the bytes, so many times four at once, and gives the last V.
fn fill_fours(aes: &Aes, v: [u8; 16], fours: usize, out: &mut [u8]) -> [u8; 16]
    requires { 64 * fours ≤ length out.old }
    ensures bytes { take (64 * fours) out.new ≡ stream aes.now v (4 * fours) }
    ensures value { result ≡ counted v (4 * fours) }
{
    let mut last = v;
    'fours: for i in 0..fours {
        let mut blocks = next_four(last);
        let value = blocks[3];
        aes.encrypt4(&mut blocks);
        put_four(out, 64 * i, &blocks);
        last = value;
    }
    last
}

// How many blocks hold so many bytes.
fn blocks_for(n: usize) -> usize
    requires { n ≤ 65536 }
    ensures { result ≡ blocks_for n }
{
    (n + 15) / 16
}

// Puts the encryptions of V + 1, V + 2 and so on in the front of the bytes, so many one by one.
fn fill_ones(aes: &Aes, v: [u8; 16], ones: usize, out: &mut [u8])
    requires { 16 * ones ≤ length out.old }
    ensures { take (16 * ones) out.new ≡ stream aes.now v ones }
{
    let mut last = v;
    'ones: for i in 0..ones {
        let value = next(last);
        put_at(out, 16 * i, &encrypted(aes, value));
        last = value;
    }
}

// The encryptions of so many values after V, at most eight, with other bytes behind: four at once, and the rest one by one. For three it is
// faster to encrypt four at once.
fn row_of(aes: &Aes, v: [u8; 16], count: usize) -> [u8; 128]
    requires { count ≤ 8 }
    ensures row { take (16 * count) result ≡ stream aes.now v count }
    ensures long { length result ≡ 128 }
{
    let mut row = [0u8; 128];
    let fours = (count + 1) / 4;
    let last = fill_fours(aes, v, fours, &mut row);
    fill_ones(
        aes,
        last,
        count.saturating_sub(4 * fours),
        &mut row[64 * fours..],
    );
    row
}

// Fills the bytes with the encryptions of V + 1, V + 2 and so on, and gives those of the values after these, `n` bytes of them, with other
// bytes behind. The last blocks of the one and the blocks of the other are encrypted together, four at once where there are so many.
pub(crate) fn fill_and_seed(aes: &Aes, v: [u8; 16], n: usize, out: &mut [u8]) -> [u8; 64]
    requires seed { n ≤ 48 }
    requires bound { length out.old ≤ 65536 }
    ensures bytes { out.new ≡ take (length out.old) (stream aes.now v (blocks_for (length out.old))) }
    ensures seed { take n result ≡ take n (stream aes.now (counted v (blocks_for (length out.old))) (blocks_for n)) }
    ensures long { length result ≡ 64 }
{
    let fours = out.len() / 64;
    let last = fill_fours(aes, v, fours, out);
    let rest = out.len() - 64 * fours;
    let before = blocks_for(rest);
    let row = row_of(aes, last, before + blocks_for(n));
    put_at(out, 64 * fours, &row[..rest]);
    let mut seed = [0u8; 64];
    put_front(&mut seed, &row[16 * before..16 * before + n]);
    seed
}

// The block at a place.
pub(crate) fn block_at(bytes: &[u8; 64], at: usize) -> [u8; 16]
    requires { at + 16 ≤ 64 }
    ensures { result ≡ take 16 (drop at bytes.now) }
{
    let mut block = [0u8; 16];
    block.copy_from_slice(&bytes[at..at + 16]);
    block
}
