// The two hash states of an HMAC in progress, of any of the hash functions.
ghost use Rattle.std.specs.Prelude.{◌≡◌, ◌++◌, List, ℕ};
ghost use Rattle.hmac_core.specs.declared.hash.Hash.{Hash};
ghost use Rattle.hmac_core.specs.Hmac.{hash_of};
ghost use Rattle.hmac_core.specs.Holds.{HoldBoth};

use crate::Hash;
use crate::nested::{nested224, nested256, nested384, nested512, nested512_224, nested512_256};
use rbg_bytes::Fixed;
use sha2::{Digest, Sha224, Sha256, Sha384, Sha512, Sha512_224, Sha512_256};

// The inner and the outer hash state.
#[derive(Clone, Drop)]
pub enum States {
    OfSha224(Sha224, Sha224),
    OfSha256(Sha256, Sha256),
    OfSha384(Sha384, Sha384),
    OfSha512(Sha512, Sha512),
    OfSha512_224(Sha512_224, Sha512_224),
    OfSha512_256(Sha512_256, Sha512_256),
}

impl States {
    // States that hold these messages.
    pub fn of(hash: Hash, inner: &[u8], outer: &[u8]) -> States
        ensures { HoldBoth result hash inner.now outer.now }
    {
        match hash {
            Hash::Sha224 => States::OfSha224(
                Sha224::new_with_prefix(inner),
                Sha224::new_with_prefix(outer),
            ),
            Hash::Sha256 => States::OfSha256(
                Sha256::new_with_prefix(inner),
                Sha256::new_with_prefix(outer),
            ),
            Hash::Sha384 => States::OfSha384(
                Sha384::new_with_prefix(inner),
                Sha384::new_with_prefix(outer),
            ),
            Hash::Sha512 => States::OfSha512(
                Sha512::new_with_prefix(inner),
                Sha512::new_with_prefix(outer),
            ),
            Hash::Sha512_224 => States::OfSha512_224(
                Sha512_224::new_with_prefix(inner),
                Sha512_224::new_with_prefix(outer),
            ),
            Hash::Sha512_256 => States::OfSha512_256(
                Sha512_256::new_with_prefix(inner),
                Sha512_256::new_with_prefix(outer),
            ),
        }
    }

    // Adds the bytes to the inner message.
    pub fn update(&mut self, bytes: &[u8])
        ensures { (hash : Hash) (inner outer : List ℕ) → HoldBoth self.old hash inner outer → HoldBoth self.new hash (inner ++ bytes.now) outer }
    {
        match self {
            States::OfSha224(inner, _) => inner.update(bytes),
            States::OfSha256(inner, _) => inner.update(bytes),
            States::OfSha384(inner, _) => inner.update(bytes),
            States::OfSha512(inner, _) => inner.update(bytes),
            States::OfSha512_224(inner, _) => inner.update(bytes),
            States::OfSha512_256(inner, _) => inner.update(bytes),
        }
    }

    // The digest of the outer message and the digest of the inner message with the bytes after it.
    pub fn finish_with(&self, bytes: &[u8]) -> Fixed<64>
        ensures { (hash : Hash) (inner outer : List ℕ) → HoldBoth self.now hash inner outer →
            result ≡ hash_of hash (outer ++ hash_of hash (inner ++ bytes.now)) }
    {
        match self {
            States::OfSha224(inner, outer) => nested224(inner, outer, bytes),
            States::OfSha256(inner, outer) => nested256(inner, outer, bytes),
            States::OfSha384(inner, outer) => nested384(inner, outer, bytes),
            States::OfSha512(inner, outer) => nested512(inner, outer, bytes),
            States::OfSha512_224(inner, outer) => nested512_224(inner, outer, bytes),
            States::OfSha512_256(inner, outer) => nested512_256(inner, outer, bytes),
        }
    }
}

// The digest of a message.
pub fn digest_of(hash: Hash, message: &[u8]) -> Fixed<64>
    ensures { result ≡ hash_of hash message.now }
{
    match hash {
        Hash::Sha224 => Fixed::of(&Sha224::digest(message)),
        Hash::Sha256 => Fixed::of(&Sha256::digest(message)),
        Hash::Sha384 => Fixed::of(&Sha384::digest(message)),
        Hash::Sha512 => Fixed::of(&Sha512::digest(message)),
        Hash::Sha512_224 => Fixed::of(&Sha512_224::digest(message)),
        Hash::Sha512_256 => Fixed::of(&Sha512_256::digest(message)),
    }
}
