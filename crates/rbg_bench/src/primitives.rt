// The primitives.
ghost use Rattle.std.specs.Prelude.{◌≡◌, ◌*◌, replicate};
ghost use Rattle.sha2.specs.Sha256.{sha256};
ghost use Rattle.rbg_bench.specs.Iterated.{iterated, counting_key, long_counting_key};

use aes_core::Aes;
use sha2::{Digest, Sha256};

// The key 00 to 0f.
const KEY: [u8; 16] = [
    0x00, 0x01, 0x02, 0x03, 0x04, 0x05, 0x06, 0x07, 0x08, 0x09, 0x0a, 0x0b, 0x0c, 0x0d, 0x0e, 0x0f,
];

// The block of zeros, encrypted so many times.
pub fn encrypted(times: u32) -> [u8; 16]
    ensures { result ≡ iterated counting_key times (replicate 16 0) }
{
    match Aes::new(&KEY) {
        Ok(aes) => iterated(&aes, times),
        Err(_) => unreachable!(),
    }
}

// The block of zeros, encrypted so many times with a key that is set up.
fn iterated(aes: &Aes, times: u32) -> [u8; 16]
    ensures { result ≡ iterated aes.now times (replicate 16 0) }
{
    let mut block = [0u8; 16];
    for i in 0..times {
        aes.encrypt(&mut block);
    }
    block
}

// The key 00 to 1f.
const LONG_KEY: [u8; 32] = [
    0x00, 0x01, 0x02, 0x03, 0x04, 0x05, 0x06, 0x07, 0x08, 0x09, 0x0a, 0x0b, 0x0c, 0x0d, 0x0e, 0x0f,
    0x10, 0x11, 0x12, 0x13, 0x14, 0x15, 0x16, 0x17, 0x18, 0x19, 0x1a, 0x1b, 0x1c, 0x1d, 0x1e, 0x1f,
];

// The last of four blocks of zeros, encrypted so many times, four at once.
pub fn four_encrypted(times: u32) -> [u8; 16]
    ensures { result ≡ iterated long_counting_key times (replicate 16 0) }
{
    match Aes::new(&LONG_KEY) {
        Ok(aes) => iterated_four(&aes, times)[3],
        Err(_) => unreachable!(),
    }
}

// Four blocks of zeros, encrypted so many times with a key that is set up.
fn iterated_four(aes: &Aes, times: u32) -> [[u8; 16]; 4]
    ensures { result ≡ replicate 4 (iterated aes.now times (replicate 16 0)) }
{
    let mut blocks = [[0u8; 16]; 4];
    for i in 0..times {
        aes.encrypt4(&mut blocks);
    }
    blocks
}

// The SHA-256 of so many pieces of 65,536 zeros, one after another.
pub fn digest_of_zeros(times: u32) -> [u8; 32]
    ensures { result ≡ sha256 (replicate (65536 * times) 0) }
{
    let piece = [0u8; 65536];
    let mut digest = Sha256::new();
    for i in 0..times {
        digest.update(&piece);
    }
    digest.finalize()
}
