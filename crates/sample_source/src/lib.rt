//! Samples of a noise source, a byte each: what is asked of where they come from, and two sources of recorded samples.
//!
//! - `samples`: what is asked of the outside;
//! - `recorded`: samples that were recorded, which never fail;
//! - `faulty`: recorded samples that come in pieces and fail where they are told to.
#![tactic(auto)]

mod faulty;
mod recorded;
mod samples;

pub use faulty::Faulty;
pub use recorded::Recorded;
pub use samples::Samples;

#[cfg(test)]
mod tests;
