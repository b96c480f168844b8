//! The mechanisms for callers in C: a static library without heap, threads or system calls. Each export is a thin layer over
//! the crate below it. It checks what C may get wrong, answers a status, and a refusal leaves everything as it was. `include/rbg.h`
//! is its page for C.
//!
//! - `status`: the statuses, and the numbers of the kinds;
//! - `state`: a DRBG's state in the caller's memory;
//! - `drbg`: the calls on it;
//! - `health`: the continuous health tests.
#![tactic(auto)]

mod drbg;
mod health;
mod state;
mod status;
#[cfg(test)]
mod tests;

pub use drbg::{
    rbg_drbg_clear, rbg_drbg_counter, rbg_drbg_due, rbg_drbg_generate, rbg_drbg_generate_fresh,
    rbg_drbg_instantiate, rbg_drbg_reseed,
};
pub use health::{RbgTests, rbg_rct_cutoff, rbg_tests_begin, rbg_tests_step, rbg_tests_step_all};
pub use state::RbgDrbg;
