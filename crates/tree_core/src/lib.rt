//! The tree of generators, used by one caller after the other.
//!
//! - `table`: the table of refusals;
//! - `step`, `reach`, `naming`: the walk along a chain, and the next step of a call by what it holds;
//! - `working`: the work of a call whose chain is held;
//! - `all`, `answer`: a tree all of whose nodes and sources are held, and one call over it.
#![tactic(auto)]

mod all;
mod answer;
#[cfg(test)]
mod cases;
mod fresh;
mod naming;
mod opening;
mod reach;
mod refusal;
mod solo;
mod step;
mod table;
#[cfg(test)]
mod tests;
mod working;

pub use naming::next;
pub use refusal::OpenRefusal;
pub use solo::{SoloTree, SourceCounts, TreeParts};
pub use step::Next;
pub use tree_acts::Holdings;
pub use tree_rules::{Call, Reply};
pub use working::work;
