//! CTR_DRBG of SP 800-90A Rev. 1, 10.2.1, with AES and a counter field of 128 bits, with the derivation function and without.
//!
//! - `drbg`: the working state with its reseed counter, and the calls instantiate, reseed and generate;
//! - `seeds`: what the update is given, with the derivation function and without, and which lengths are refused;
//! - `stream`: the encryptions of V + 1, V + 2 and so on, four at once where there are as many;
//! - `laws`: what follows from the definitions alone.
//!
//! A key is expanded once for the output of a generate and the update that follows it.
#![tactic(auto)]

mod drbg;
mod laws;
mod seeds;
mod stream;

pub use df_core::KeyLen;
pub use drbg::{CtrDrbg, CtrRefusal};
pub use laws::{keeps_lengths, wraps_around};
pub use seeds::{BadSeedLength, Mode};

#[cfg(test)]
mod tests;
