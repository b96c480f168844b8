// BCC, and the chaining values of its passes side by side.
ghost use Rattle.std.specs.Prelude.{◌≡◌, ◌<◌, ◌≤◌, ◌*◌, [], ℕ, length, take, get_or};
ghost use Rattle.std.specs.List.{concat};
ghost use Rattle.rbg_bytes.specs.Xor.{xor_bytes};
ghost use Rattle.df_core.specs.Df.{bcc, chained};
ghost use Rattle.df_core.specs.Chains.{AreChained};

use aes_core::Aes;
use rbg_bytes::put_at;

// The sum of two blocks.
fn summed(value: &[u8; 16], block: &[u8; 16]) -> [u8; 16]
    ensures { result ≡ xor_bytes value.now block.now }
{
    let mut sum = *value;
    rbg_bytes::xor_bytes(&mut sum, block);
    sum
}

// One step of BCC.
fn chained(aes: &Aes, value: &[u8; 16], block: &[u8; 16]) -> [u8; 16]
    ensures { result ≡ chained aes.now value.now block.now }
{
    let mut sum = summed(value, block);
    aes.encrypt(&mut sum);
    sum
}

/// BCC of whole blocks under a key, from a chaining value of zeros (SP 800-90A Rev. 1, 10.3.3).
pub fn bcc(aes: &Aes, blocks: &[[u8; 16]]) -> [u8; 16]
    ensures { result ≡ bcc aes.now blocks.now }
{
    let mut value = [0u8; 16];
    for block in blocks {
        value = chained(aes, &value, block);
    }
    value
}

// Three values each take in their block, all at once. The fourth block of the four that are encrypted is zeros, and not used.
fn advanced_at_once(aes: &Aes, chains: &mut [[u8; 16]; 3], blocks: &[[u8; 16]; 3])
    ensures { (i : ℕ) → i < 3 → get_or chains.new i [] ≡ chained aes.now (get_or chains.old i []) (get_or blocks.now i []) }
{
    let mut sums = [
        summed(&chains[0], &blocks[0]),
        summed(&chains[1], &blocks[1]),
        summed(&chains[2], &blocks[2]),
        [0; 16],
    ];
    aes.encrypt4(&mut sums);
    *chains = [sums[0], sums[1], sums[2]];
}

// The first `n` values each take in their block. For three it is faster to encrypt four blocks at once, for two it is not.
fn advanced(aes: &Aes, chains: &mut [[u8; 16]; 3], n: usize, blocks: &[[u8; 16]; 3])
    requires { n ≤ 3 }
    ensures { (i : ℕ) → i < n → get_or chains.new i [] ≡ chained aes.now (get_or chains.old i []) (get_or blocks.now i []) }
{
    if n == 3 {
        advanced_at_once(aes, chains, blocks);
        return;
    }
    for i in 0..n {
        chains[i] = chained(aes, &chains[i], &blocks[i]);
    }
}

// The first `n` values each take in the same block.
pub(crate) fn absorbed(aes: &Aes, chains: &mut [[u8; 16]; 3], n: usize, block: &[u8; 16])
    requires { n ≤ 3 }
    ensures { (i : ℕ) → i < n → get_or chains.new i [] ≡ chained aes.now (get_or chains.old i []) block.now }
{
    advanced(aes, chains, n, &[*block, *block, *block]);
}

// The block before S of each pass: its number, and zeros (10.3.2, step 9.1).
const PASS_BLOCKS: [[u8; 16]; 3] = [
    [0, 0, 0, 0, 0, 0, 0, 0, 0, 0, 0, 0, 0, 0, 0, 0],
    [0, 0, 0, 1, 0, 0, 0, 0, 0, 0, 0, 0, 0, 0, 0, 0],
    [0, 0, 0, 2, 0, 0, 0, 0, 0, 0, 0, 0, 0, 0, 0, 0],
];

// The chaining values of the first `n` passes before S.
pub(crate) fn first_chains(aes: &Aes, n: usize) -> [[u8; 16]; 3]
    requires { n ≤ 3 }
    ensures { AreChained aes.now result n [] }
{
    let mut chains = [[0u8; 16]; 3];
    advanced(aes, &mut chains, n, &PASS_BLOCKS);
    chains
}

// The first `n` values, one after another.
pub(crate) fn joined(chains: &[[u8; 16]; 3], n: usize) -> [u8; 48]
    requires { n ≤ 3 }
    ensures front { take (16 * n) result ≡ concat (take n chains.now) }
    ensures long { length result ≡ 48 }
{
    let mut out = [0u8; 48];
    'chains: for i in 0..n {
        put_at(&mut out, 16 * i, &chains[i]);
    }
    out
}
