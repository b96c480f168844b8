//! The continuous health tests of a noise source (SP 800-90B 4.4): the repetition count test and the adaptive proportion
//! test, which alarm at the very sample whose window shows it.
//!
//! - `cutoffs`: the numbers at which the tests alarm, and how one of them is computed;
//! - `windows`: the first alarm of a whole list of samples, found by looking at every window of it;
//! - `continuous`: the tests that go from sample to sample, by one (`step`) or by a slice (`step_all`);
//! - `numbers`: the five numbers that they keep, which are all that they need of the samples before;
//! - `laws`: that five numbers are enough.
#![tactic(auto)]

mod continuous;
mod cutoffs;
mod laws;
mod numbers;
#[cfg(test)]
mod rows;
mod windows;

pub use continuous::Tests;
pub use cutoffs::{BadCutoff, Cut, Cutoffs, rct_cutoff};
pub use laws::{
    first_alarm_goes_on, first_alarm_is_least, numbers_are_enough, numbers_begin, numbers_grow,
    numbers_tell, repetition_is_a_run, samples_leave_numbers, windows_follow,
};
pub use numbers::Tail;
pub use windows::{Alarm, Test, crowded, first_alarm, repeats};
