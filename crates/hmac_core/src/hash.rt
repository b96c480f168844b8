// The hash functions by name.
ghost use Rattle.std.specs.Prelude.{◌≡◌, ◌≤◌};
ghost use Rattle.hmac_core.specs.Hmac.{out_len, block_len};

/// A hash function of FIPS 180-4.
#[derive(Clone, Copy, Debug, PartialEq, Eq)]
pub enum Hash {
    Sha224,
    Sha256,
    Sha384,
    Sha512,
    Sha512_224,
    Sha512_256,
}

impl Hash {
    /// The length of a digest in bytes (FIPS 180-4, figure 1).
    pub fn out_len(self) -> usize
        ensures len { result ≡ out_len self }
        ensures range { (28 ≤ result) × (result ≤ 64) }
    {
        match self {
            Hash::Sha224 => 28,
            Hash::Sha256 => 32,
            Hash::Sha384 => 48,
            Hash::Sha512 => 64,
            Hash::Sha512_224 => 28,
            Hash::Sha512_256 => 32,
        }
    }

    /// The length of an input block in bytes (FIPS 180-4, figure 1), to which HMAC brings its key.
    pub fn block_len(self) -> usize
        ensures len { result ≡ block_len self }
        ensures range { (64 ≤ result) × (result ≤ 128) }
    {
        match self {
            Hash::Sha224 => 64,
            Hash::Sha256 => 64,
            Hash::Sha384 => 128,
            Hash::Sha512 => 128,
            Hash::Sha512_224 => 128,
            Hash::Sha512_256 => 128,
        }
    }
}
