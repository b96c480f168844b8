// The nested digest of HMAC under each hash function: that of the outer message and the inner message's digest. Each has a
// function of its own, since a function clears room for all of its locals when it begins.
ghost use Rattle.std.specs.Prelude.{◌≡◌, ◌++◌, List, ℕ};
ghost use Rattle.sha2.specs.Hashers.{Holds224, Holds256, Holds384, Holds512, Holds512_224, Holds512_256};
ghost use Rattle.sha2.specs.Sha256.{sha224, sha256};
ghost use Rattle.sha2.specs.Sha512.{sha384, sha512, sha512_224, sha512_256};

use rbg_bytes::Fixed;
use sha2::{Digest, Sha224, Sha256, Sha384, Sha512, Sha512_224, Sha512_256};

// Both states are copied, and the bytes end the inner message. A state takes no memory, so that `clone` always answers Ok.
macro_rules! nested {
    ($inner:expr, $outer:expr, $bytes:expr) => {{
        let mut first = $inner.clone().unwrap();
        first.update($bytes);
        let digest = first.finalize();
        let mut second = $outer.clone().unwrap();
        second.update(digest.as_slice());
        Fixed::of(&second.finalize())
    }};
}

pub fn nested224(inner: &Sha224, outer: &Sha224, bytes: &[u8]) -> Fixed<64>
    ensures { (first second : List ℕ) → Holds224 inner.now first → Holds224 outer.now second →
        result ≡ sha224 (second ++ sha224 (first ++ bytes.now)) }
{
    nested!(inner, outer, bytes)
}

pub fn nested256(inner: &Sha256, outer: &Sha256, bytes: &[u8]) -> Fixed<64>
    ensures { (first second : List ℕ) → Holds256 inner.now first → Holds256 outer.now second →
        result ≡ sha256 (second ++ sha256 (first ++ bytes.now)) }
{
    nested!(inner, outer, bytes)
}

pub fn nested384(inner: &Sha384, outer: &Sha384, bytes: &[u8]) -> Fixed<64>
    ensures { (first second : List ℕ) → Holds384 inner.now first → Holds384 outer.now second →
        result ≡ sha384 (second ++ sha384 (first ++ bytes.now)) }
{
    nested!(inner, outer, bytes)
}

pub fn nested512(inner: &Sha512, outer: &Sha512, bytes: &[u8]) -> Fixed<64>
    ensures { (first second : List ℕ) → Holds512 inner.now first → Holds512 outer.now second →
        result ≡ sha512 (second ++ sha512 (first ++ bytes.now)) }
{
    nested!(inner, outer, bytes)
}

pub fn nested512_224(inner: &Sha512_224, outer: &Sha512_224, bytes: &[u8]) -> Fixed<64>
    ensures { (first second : List ℕ) → Holds512_224 inner.now first → Holds512_224 outer.now second →
        result ≡ sha512_224 (second ++ sha512_224 (first ++ bytes.now)) }
{
    nested!(inner, outer, bytes)
}

pub fn nested512_256(inner: &Sha512_256, outer: &Sha512_256, bytes: &[u8]) -> Fixed<64>
    ensures { (first second : List ℕ) → Holds512_256 inner.now first → Holds512_256 outer.now second →
        result ≡ sha512_256 (second ++ sha512_256 (first ++ bytes.now)) }
{
    nested!(inner, outer, bytes)
}
