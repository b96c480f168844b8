//! Conditioned blocks: a vetted conditioning component (SP 800-90B 3.1.5.1.1) of as many samples as have the min-entropy of the
//! block, and 64 bits more.
//!
//! - `lengths`: the length of a block, and the samples that it takes;
//! - `block`: the block of samples that come in pieces.
#![tactic(auto)]

mod block;
mod lengths;

pub use block::Block;
pub use lengths::{block_len, keeps_lengths, need};

#[cfg(test)]
mod tests;
