//! BCC and Block_Cipher_df of SP 800-90A Rev. 1, 10.3.2 and 10.3.3, with AES.
//!
//! - `key_len`: the three lengths of a key;
//! - `chaining`: BCC over whole blocks, and the chaining values of several passes side by side;
//! - `derive`: Block_Cipher_df of an input that comes in pieces;
//! - `laws`: what follows from the definitions alone.
//!
//! The standard makes S of the whole input and runs BCC over it once for each block that it needs. `Df` keeps no input: it
//! keeps one chaining value for each of these passes, and brings them all up by each block of S as it comes, three at once.
#![tactic(auto)]

mod chaining;
mod derive;
mod key_len;
mod laws;

pub use chaining::bcc;
pub use derive::{Df, TooMuch};
pub use key_len::KeyLen;
pub use laws::{keeps_lengths, lays_out_strings};

#[cfg(test)]
mod tests;
