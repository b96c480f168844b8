// The kinds of DRBG that are served.
ghost use Rattle.std.specs.Prelude.{◌≡◌, ◌≤◌};
ghost use Rattle.rbg_bytes.specs.Kinds.{strength};

/// A kind of DRBG (SP 800-90A Rev. 1, 10): HMAC_DRBG over a hash function, or CTR_DRBG with AES and the derivation function.
#[derive(Clone, Copy, Debug, PartialEq, Eq)]
pub enum Kind {
    HmacSha256,
    HmacSha384,
    HmacSha512,
    CtrAes128,
    CtrAes192,
    CtrAes256,
}

impl Kind {
    /// The security strength in bits: the highest that the kind supports (SP 800-90A Rev. 1, table 2 for HMAC_DRBG, table 3 for
    /// CTR_DRBG; SP 800-57 Part 1, table 3).
    pub fn strength(self) -> u16
        ensures bits { result ≡ strength self }
        ensures range { (128 ≤ result) × (result ≤ 256) }
    {
        match self {
            Kind::HmacSha256 => 256,
            Kind::HmacSha384 => 256,
            Kind::HmacSha512 => 256,
            Kind::CtrAes128 => 128,
            Kind::CtrAes192 => 192,
            Kind::CtrAes256 => 256,
        }
    }
}
