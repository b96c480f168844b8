//! What a call does to the nodes and the source of its chain, over whatever holds them.
//!
//! - `holdings`: what a call holds of a tree;
//! - `parts`: the parts of a call;
//! - `plain`, `step`, `looks`, `samples`: a node in plain numbers, the parent that it asks, and what it draws;
//! - `acts`: one act on a node, one draw on a source;
//! - `part`: a node's own part, once it has its material;
//! - `strings`, `mixed`, `rbg3`: the strings and chunks of RBG3(RS), the outputs of RBG3(XOR);
//! - `ends`, `replies`: the last node, and the reply to what its source refused;
//! - `climb`, `work`: the work of a chain, and of a call that nothing stops;
//! - `wipe`: bytes that are let go.
#![tactic(auto)]

mod acts;
mod climb;
mod ends;
mod holdings;
mod looks;
mod mixed;
mod part;
mod parts;
mod plain;
mod rbg3;
mod replies;
mod samples;
mod step;
mod strings;
mod wipe;
mod work;

pub use acts::{clear_at, start_at};
pub use holdings::Holdings;
pub use looks::{above, step_at};
pub use parts::{
    asked, asked_count, asked_strength, asks_pr, is_instantiate, is_reseed, is_start, named,
    needs_life, seeds_or_gives,
};
pub use plain::PlainNode;
pub use replies::source_reply;
pub use samples::source_of;
pub use step::{Asked, Step, parent};
pub use work::chain_work;
