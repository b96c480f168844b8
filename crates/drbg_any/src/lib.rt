//! One value for each kind of DRBG that is served, with its reseed interval and fresh generation (SP 800-90A Rev. 1, 9).
//!
//! - `drbg`: the value and its calls;
//! - `with_df`: CTR_DRBG with the derivation function, which refuses no lengths.
#![tactic(auto)]

mod drbg;
#[cfg(test)]
mod tests;
mod with_df;

pub use drbg::Drbg;
pub use hmac_drbg::ReseedRequired;
