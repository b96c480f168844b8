//! The tree of generators for up to 64 callers at once, over one turn for each node and each source.
//!
//! A caller's thread has a [`TreePass`]. A call takes the turns of its chain, from the node that it names upwards, works on what lies in these
//! slots, adds its one entry to the history of all calls, and puts everything back. Each turn that it takes, or finds held, is that of a slot on
//! the path of its target, so calls on branches that share no slot go side by side:
//!
//! - [`SharedTree::open`] opens a tree, and makes a pass for each caller;
//! - [`SharedTree::try_call`] makes a call, or says which other caller has a turn that it needs, and never waits;
//! - [`SharedTree::call`] waits for the turns that it needs;
//! - [`SharedTree::close`] takes all passes in, and gives the one-thread tree back with the number of calls.
//!
//! Every reply is that of the one-thread tree at the call's place in one legal history (`specs/Answers.antt`), which begins with all that the
//! caller has seen and has each of its calls once. What a call holds is a row of eight places for nodes and one for a source, and no call
//! takes memory. `try_call` can't wait, so it takes no lock beside the turns; that `call` takes none, and that a turn comes free, no clause
//! says.
//!
//! - `machine`: the tree as a machine of the turn table;
//! - `boxed`, `places`, `row`: what a call holds;
//! - `busy`, `calls`, `waits`: a call, which takes its turns or finds one held, or waits for each;
//! - `tree`, `opening`, `closing`: the tree that is shared.
#![tactic(auto)]

mod boxed;
mod busy;
mod calls;
mod closing;
mod machine;
mod opening;
mod places;
mod row;
#[cfg(test)]
mod tests;
mod tree;
mod waits;

pub use boxed::Boxed;
pub use busy::Busy;
pub use closing::{Closed, TreeCloseRefused};
pub use machine::{SlotValue, TreeMachine};
pub use tree::{SharedTree, TreePass};
