//! HMAC (FIPS 198-1) over the six hash functions of FIPS 180-4 that `sha2` has.
//!
//! - `hash`: the hash functions by name, with their lengths;
//! - `nested`: the nested digest under each hash function;
//! - `states`: the two hash states of an HMAC, of any of them;
//! - `mac`: HMAC of a key and of a text that comes piece by piece.
#![tactic(auto)]

mod hash;
mod mac;
mod nested;
mod states;
#[cfg(test)]
mod tests;

pub use hash::Hash;
pub use mac::Mac;
