// A case of a text, and the names that it stands under.
use ctr_drbg::Mode;
use df_core::KeyLen;
use hmac_core::Hash;
use rbg_bytes::Fixed;

/// The family of mechanisms that a text is read for. The text itself does not say it.
#[derive(Clone, Copy, Debug, PartialEq, Eq)]
pub enum Family {
    Hmac,
    Ctr,
}

/// A mechanism: HMAC_DRBG over a hash function (SP 800-90A Rev. 1, 10.1.2), or CTR_DRBG with AES under a key of this length,
/// with or without the derivation function (10.2.1).
#[derive(Clone, Copy, Debug, PartialEq, Eq)]
pub enum Mech {
    Hmac(Hash),
    Ctr(KeyLen, Mode),
}

/// A case: the inputs of an instantiation, of at most one reseed and of two generates, and the bytes that the second of these
/// has to give. Each string has at most 4,096 bytes, and is empty where its line is missing.
#[derive(Drop)]
pub struct Case {
    /// The line of its COUNT, counted from 1.
    pub line: u64,
    /// The value of its COUNT.
    pub count: u64,
    pub mech: Mech,
    /// Whether each generate reseeds before it, with prediction resistance.
    pub pr: bool,
    pub entropy: Fixed<4096>,
    pub nonce: Fixed<4096>,
    pub pers: Fixed<4096>,
    /// Whether there is a reseed before the generates.
    pub has_reseed: bool,
    pub reseed: Fixed<4096>,
    pub add_reseed: Fixed<4096>,
    pub add1: Fixed<4096>,
    pub add2: Fixed<4096>,
    pub pr1: Fixed<4096>,
    pub pr2: Fixed<4096>,
    pub returned: Fixed<4096>,
}
