//! AES (FIPS 197), one block or four at a time, for keys of 128, 192 and 256 bits.
//!
//! - `cipher`: a key set up for use, and the encryption of a block or of four under it;
//! - `keys`: the expansion of a key;
//! - `rounds` and `inversion`: the steps of a round on the bytes of four states side by side;
//! - `four`: blocks in such a vector, and out of it;
//! - `power`: the S-box once more, without any table;
//! - `tables`: the entries of the look-ups, and the round constants;
//! - `laws`: the standard's published examples and the inverses, of the definition alone.
//!
//! One block goes through the same steps as the first of four: what is made of the other three is used nowhere, and the compiler
//! leaves it out.
//!
//! There is no decryption: the generators that stand on this crate never ask for one. No table is read at a place in memory
//! that depends on the key or the block; the code is written so, and no contract says it.
#![tactic(auto)]

mod cipher;
mod four;
mod inversion;
mod keys;
mod laws;
mod power;
mod rounds;
mod tables;

pub use cipher::{Aes, BadKeyLength};
pub use laws::{inverts_bytes, meets_examples};

#[cfg(test)]
mod tests;
