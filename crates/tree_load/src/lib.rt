//! A load on a tree: calls that a seed states, made one after another, and how many of them were Done.
//!
//! - `stated`: the load generator, which states the calls;
//! - `load`: the calls on the tree of one caller;
//! - `laws`: the counts after calls, where the calls alone decide them;
//! - `tally`, `blocks`: those counts, computed for nodes and for sources as they are defined.
#![tactic(auto)]

mod blocks;
mod laws;
mod load;
mod stated;
mod tally;
#[cfg(test)]
mod tests;

pub use blocks::source_tally;
pub use laws::{
    asks_reach_all_nodes_below, calls_decide_counts, counts_know_no_order, loads_decide_counts,
    runs_fit, sources_have_a_limit,
};
pub use load::{CallsMade, make_stated_calls};
pub use stated::StatedCalls;
pub use tally::node_tally;
