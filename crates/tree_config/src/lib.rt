//! The configuration of a tree of generators: the plan that a TOML text says, or the text's first fault.
//!
//! - `plan`: what is planned for a node and for a source;
//! - `tree_plan`: the plan of a tree, read from a text;
//! - `names`: the names of kinds, as a configuration spells them and as they are printed;
//! - `fault`: what can be wrong with a text, and where;
//! - `document`, `rows`, `top`, `source`, `node`: reading a text, place by place and key by key;
//! - `fields`, `choices`, `keys`: reading what stands at one key, and which keys a place may have;
//! - `row`, `plans`: a node as its table says it, and as a planned node, whose parent is in the file;
//! - `ways`, `graph`: whether the nodes make a tree;
//! - `laws`: that a text has one plan or one fault, and more.
#![tactic(auto)]

mod choices;
mod document;
mod fault;
mod fields;
mod graph;
mod keys;
mod laws;
mod names;
mod node;
mod plan;
mod plans;
mod row;
mod rows;
mod source;
#[cfg(test)]
mod tests;
mod top;
mod tree_plan;
mod ways;

pub use fault::{ConfigFault, Field, Place, PlanRefusal};
pub use laws::{names_read_back, one_depth, one_plan, plans_are_in_range};
pub use names::{cond_name, drbg_name};
pub use plan::{NodeKind, NodePlan, Origin, SourcePlan};
pub use tree_plan::TreePlan;
