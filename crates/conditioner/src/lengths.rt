// The length of a block, and the samples that it takes.
ghost use Rattle.std.specs.Prelude.{◌≡◌, ◌≤◌, List, ℕ, length};
ghost use Rattle.rbg_bytes.specs.declared.cond.Cond.{Cond};
ghost use Rattle.conditioner.specs.Conditioned.{block_len, need, conditioned};

use rbg_bytes::Cond;

/// The length of a block in bytes: 32 of HMAC-SHA-256, 16 of Block_Cipher_df with AES-256.
pub fn block_len(cond: Cond) -> usize
    ensures len { result ≡ block_len cond }
    ensures range { (16 ≤ result) × (result ≤ 32) }
{
    match cond {
        Cond::HmacSha256 => 32,
        Cond::DfAes256 => 16,
    }
}

/// The samples that a block takes, for samples of `num / den` bits of min-entropy each: as few as have 64 bits more than the
/// block has. The number is this project's own; the entropy of a block is not assessed (SP 800-90B 3.1.5.1.2).
pub fn need(cond: Cond, num: u32, den: u32) -> u32
    requires num_low { 1 ≤ num }
    requires num_high { num ≤ 8000 }
    requires den_low { 1 ≤ den }
    requires den_high { den ≤ 1000 }
    ensures count { result ≡ need cond num den }
    ensures range { (1 ≤ result) × (result ≤ 320000) }
{
    let bits: u32 = match cond {
        Cond::HmacSha256 => 256,
        Cond::DfAes256 => 128,
    };
    ((bits + 64) * den).div_ceil(num)
}

/// A conditioned block has its component's length, whatever the samples. A call does nothing.
pub fn keeps_lengths()
    ensures { (cond : Cond) (samples : List ℕ) → length (conditioned cond samples) ≡ block_len cond }
{}
