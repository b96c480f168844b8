//! Sessions: request frames are read from a stream and answered one after another.
//!
//! - `end`: how a session ends;
//! - `answers`: the call of a request, and its reply frame;
//! - `inbox`: what was read of the stream, and the request that is to be answered next;
//! - `piece`: the bytes of one read;
//! - `session`: the buffers of a session, which whoever makes the calls feeds, asks and tells;
//! - `solo`: a session on the tree of one caller.
#![tactic(auto)]

mod answers;
mod end;
mod inbox;
mod piece;
mod session;
mod solo;
#[cfg(test)]
mod tests;

pub use end::End;
pub use inbox::Inbox;
pub use piece::Piece;
pub use session::Session;
pub use solo::session_solo;
