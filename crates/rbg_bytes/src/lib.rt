//! Bytes that come and go: a source and a sink with a count of faults, and byte strings of bounded length. Beside them stand
//! the names of the kinds of DRBG and of the conditioning components.
//!
//! - `fixed`: byte strings of at most so many bytes, which take no memory of their own;
//! - `name`: texts of at most 255 bytes, likewise;
//! - `stream`: what is asked of the outside where bytes come from and go to;
//! - `memory`: a source and a sink in memory, which fail where they are told to;
//! - `line`: a printed line that is being put together;
//! - `place`: bytes put at a place of a buffer, and bytes xored;
//! - `kind`: the kinds of DRBG by name, with their strength;
//! - `cond`: the conditioning components by name.
#![tactic(auto)]

mod cond;
mod fixed;
mod kind;
mod line;
mod memory;
mod name;
mod place;
mod stream;

pub use cond::Cond;
pub use fixed::Fixed;
pub use kind::Kind;
pub use line::Line;
pub use memory::{MemSink, MemSource};
pub use name::Name;
pub use place::{put_at, put_fitting, put_front, xor_bytes};
pub use stream::{ByteSink, ByteSource, Failed, OutOfMemory};

#[cfg(test)]
mod tests;
