//! An entropy source (SP 800-90B 2.2): samples of a noise source are tested one by one, conditioned in blocks, and given out
//! as bytes, until a health test alarms.
//!
//! - `answers`: what is set of a source, and what its calls answer;
//! - `intake`: samples that are read, tested and counted, and the samples of a start-up;
//! - `blocks`: conditioned blocks, and bytes filled with them;
//! - `source`: the source with its calls;
//! - `laws`: what is counted on all acts of a source, which answer comes, two draws as one, their reads,
//!   and what each length gets of them.
#![tactic(auto)]

mod answers;
mod blocks;
mod intake;
mod laws;
mod source;
#[cfg(test)]
mod tests;

pub use answers::{Cause, Range, SourceMode, SourceRefusal, SourceRow};
pub use laws::{
    draws_end_by_their_reads, draws_give_whole_blocks, draws_join, portions_join, reads_join,
    refused_draws_stay_refused, starts_end_by_their_reads, states_are_counted,
};
pub use source::EntropySource;
