//! One node of a tree of generators: its DRBG, the seed that an RBG1 keeps, and its counts. A call is one act of the node, and
//! contracts see the state after it.
//!
//! - `node`: the node with its calls;
//! - `laws`: that its state is what is counted on its acts, and that a generate gives as many bytes as it is asked for.
#![tactic(auto)]

mod laws;
mod node;
#[cfg(test)]
mod tests;

pub use laws::{generates_have_their_lengths, states_are_counted};
pub use node::{Node, NodeCounts, NodeRow, SeedShort};
