// The expanded key.
ghost use Rattle.std.specs.Prelude.{◌≡◌, ◌<◌, ◌≤◌, ◌+◌, ◌-◌, ◌*◌, ◌/◌, ◌++◌, take, length};
ghost use Rattle.aes_core.specs.Aes.{expanded, next_word, rot_word, rounds, sub_word, turned_word, word, xor_words};
ghost use Rattle.aes_core.specs.Keys.{IsKeyLength};

use crate::four::four_times;
use crate::inversion::substituted;
use crate::tables::RCON;
use std::simd::prelude::*;

// The bytes of an expanded key of fourteen rounds.
const KEYS_LEN: usize = 240;

// Word `i`.
#[inline(always)]
fn word(keys: &[u8; 240], i: usize) -> u8x4
    requires { i < 60 }
    ensures { result ≡ word keys.now i }
{
    u8x4::from_slice(&keys[4 * i..])
}

// RotWord.
#[inline(always)]
fn rotated(t: u8x4) -> u8x4
    ensures { result ≡ rot_word t }
{
    t.swizzle([1, 2, 3, 0])
}

// SubWord, in four of the lanes.
#[inline(always)]
fn sub_word(t: u8x4) -> u8x4
    ensures { result ≡ sub_word t }
{
    substituted(four_times(t.swizzle([0, 1, 2, 3, 0, 1, 2, 3, 0, 1, 2, 3, 0, 1, 2, 3]))).extract::<
        0,
        4,
    >()
}

// The sum of two words.
#[inline(always)]
fn xor_words(s: u8x4, t: u8x4) -> u8x4
    ensures { result ≡ xor_words s t }
{
    s ^ t
}

// How many whole keys of so many words there are in `i` words, without a division at run time.
fn whole_keys(words: usize, i: usize) -> usize
    requires { IsKeyLength (4 * words) }
    ensures { result ≡ i / words }
{
    match words {
        4 => i / 4,
        6 => i / 6,
        _ => i / 8,
    }
}

// What the word before word `i` becomes, in the expansion of a key of so many words.
#[inline(always)]
fn turned_word(words: usize, i: usize, t: u8x4) -> u8x4
    requires words { IsKeyLength (4 * words) }
    requires place { (words ≤ i) × (i < 4 * (words + 7)) }
    ensures { result ≡ turned_word words i t }
{
    let turns = whole_keys(words, i);
    if i == turns * words {
        let rcon = u8x4::from_array([RCON[turns - 1], 0, 0, 0]);
        return xor_words(sub_word(rotated(t)), rcon);
    }
    if words == 8 && i % 8 == 4 {
        return sub_word(t);
    }
    t
}

// Word `i`, from those before it.
#[inline(always)]
fn next_word(keys: &[u8; 240], words: usize, i: usize) -> u8x4
    requires words { IsKeyLength (4 * words) }
    requires place { (words ≤ i) × (i < 4 * (words + 7)) }
    ensures { result ≡ next_word words keys.now i }
{
    xor_words(
        word(keys, i - words),
        turned_word(words, i, word(keys, i - 1)),
    )
}

// Puts a word at its place.
fn put_word(keys: &mut [u8; 240], i: usize, t: u8x4)
    requires { i < 60 }
    ensures { take (4 * (i + 1)) keys.new ≡ take (4 * i) keys.old ++ t }
{
    keys[4 * i..4 * i + 4].copy_from_slice(&t.to_array());
}

// The key, with zeros after it.
fn begun(key: &[u8]) -> [u8; 240]
    requires { length key.now ≤ 32 }
    ensures front { take (length key.now) result ≡ key.now }
    ensures long { length result ≡ 240 }
{
    let mut keys = [0u8; KEYS_LEN];
    keys[..key.len()].copy_from_slice(key);
    keys
}

// The expanded key of a key, with other bytes after it.
pub(crate) fn expanded(key: &[u8]) -> [u8; 240]
    requires { IsKeyLength (length key.now) }
    ensures bytes { take (16 * (rounds key.now + 1)) result ≡ expanded key.now }
    ensures long { length result ≡ 240 }
{
    let words = key.len() / 4;
    let mut keys = begun(key);
    'words: for i in words..4 * (words + 7) {
        let t = next_word(&keys, words, i);
        put_word(&mut keys, i, t);
    }
    keys
}
