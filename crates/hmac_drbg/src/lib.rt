//! HMAC_DRBG (SP 800-90A Rev. 1, 10.1.2) over the six hash functions of `hmac_core`.
//!
//! - `state`: the working state with its reseed counter, and its calls;
//! - `parts`: provided data in three parts.
#![tactic(auto)]

mod parts;
mod state;
#[cfg(test)]
mod tests;

pub use hmac_core::Hash;
pub use state::{HmacDrbg, ReseedRequired};
