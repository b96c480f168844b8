//! The cases of response texts, run by the mechanisms.
//!
//! - `judgement`: what a run says of a case;
//! - `run`: the run of a case, and its verdict;
//! - `totals`: how replaying a text ends;
//! - `lines`: the lines that are printed of a text;
//! - `replaying`: a text is replayed;
//! - `pieces`: a text is replayed piece by piece, as it comes.
#![tactic(auto)]

mod judgement;
mod lines;
mod pieces;
mod replaying;
mod run;
mod totals;

pub use judgement::Verdict;
pub use pieces::Replaying;
pub use replaying::replay;
pub use run::verdict;
pub use totals::{ReplayRefusal, Totals};

#[cfg(test)]
mod replay_tests;
#[cfg(test)]
mod tests;
