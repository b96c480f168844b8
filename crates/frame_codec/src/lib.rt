//! The frames of a session, version 1, read a byte at a time and written whole.
//!
//! A frame is a head of fields in a row, high byte first, and a string whose length the head gives. Which numbers a field
//! may hold stands in a table, by the fields before it: that of requests has six operations, that of replies fifteen codes.
//!
//! - `frames`: the heads of request and reply frames;
//! - `table`: the rows of the grammar, as the code reads them;
//! - `head`: a head that is begun, by that table;
//! - `decoder`: request frames out of a stream of bytes;
//! - `reply_decoder`: reply frames out of a stream of bytes;
//! - `encode`: frames as bytes;
//! - `laws`: what holds of all frames, as functions that do nothing.
#![tactic(auto)]

mod decoder;
mod encode;
mod frames;
mod head;
pub mod laws;
mod reply_decoder;
mod table;
#[cfg(test)]
mod tests;

pub use decoder::{Decoder, Step};
pub use encode::{encode_reply, encode_request};
pub use frames::{ReplyHead, Request};
pub use reply_decoder::{ReplyDecoder, ReplyStep};
pub use table::Span;
