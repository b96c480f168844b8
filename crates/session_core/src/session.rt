// The buffers of a session, which whoever makes the calls feeds, asks and tells.
ghost use Rattle.std.specs.Prelude.{◌≡◌, ◌≤◌, ◌+◌, ◌-◌, ◌^◌, ◌++◌, [], None, length, take, drop, IsSome, IfOk};
ghost use Rattle.std.specs.Borrow.{sem};
ghost use Rattle.frame_codec.specs.Decoding.{Feeds, Reads};
ghost use Rattle.session_core.specs.Lending.{LeavesSettled};
ghost use Rattle.session_core.specs.Inbox.{whole_of, IsCallOf, IsWholeFrame, CanAnswer, answer_of};

use crate::answers::{put_head, reply_head};
use crate::inbox::Inbox;
use crate::piece::Piece;
use frame_codec::Step;
use rbg_bytes::OutOfMemory;
use std::alloc::Global;
use tree_core::{Call, Reply};

// How many bytes the buffer of a reply has: a head that ends at place 32, and the longest payload behind it.
const REPLY_LEN: usize = 65_568;

/// The buffers of a session. A caller feeds bytes of the stream until a frame is whole, makes its call with `inbox.string()` as the input
/// and `reply[32..]` as the room for the bytes, and hands the reply to `answered`, which gives the frame to write.
#[derive(Drop)]
pub struct Session {
    /// What was read of the stream.
    pub inbox: Inbox,
    /// Where a reply is put together, 65,568 bytes: the payload from place 32 on, and the head right before it.
    pub reply: Vec<u8>,
    /// Where one read goes.
    pub piece: Piece,
}

// Puts the head of the reply before the bytes of a call, and says where the frame ends, which begins at place 4.
pub(crate) fn put_reply(inbox: &mut Inbox, buffer: &mut [u8], reply: &Reply) -> usize
    requires room { length buffer.old ≡ 65568 }
    requires some { IsSome inbox.old.asked }
    requires answer { CanAnswer inbox.old.asked reply.now }
    ensures within { (4 ≤ result) × (result ≤ 65568) }
    ensures frame { take (result - 4) (drop 4 buffer.new) ≡ answer_of inbox.old.asked reply.now buffer.old }
    ensures before { take 4 buffer.new ≡ take 4 buffer.old }
    ensures behind { drop 32 buffer.new ≡ drop 32 buffer.old }
    ensures decoder { inbox.new.decoder ≡ inbox.old.decoder }
    ensures asked { inbox.new.asked ≡ None }
    ensures max_frames { inbox.new.max_frames ≡ inbox.old.max_frames }
{
    let Some(request) = inbox.take_asked() else {
        unreachable!()
    };
    put_head(&reply_head(&request, reply), buffer);
    32 + reply.len as usize
}

impl Session {
    /// Takes all buffers of a session of at most so many frames, one or more.
    pub fn open(alloc: Global, max_frames: u64) -> Result<Session, OutOfMemory>
        requires { 1 ≤ max_frames }
        ensures reads { IfOk result (λ s. Reads [] [] s.inbox.decoder) }
        ensures asked { IfOk result (λ s. s.inbox.asked ≡ None) }
        ensures max_frames { IfOk result (λ s. s.inbox.max_frames ≡ max_frames) }
        ensures reply { IfOk result (λ s. length s.reply.items ≡ 65568) }
    {
        let piece = match Piece::new(alloc) {
            Ok(piece) => piece,
            Err(why) => return Err(why),
        };
        match vec![in alloc; 0u8; REPLY_LEN] {
            Ok(reply) => Ok(Session {
                inbox: Inbox::new(max_frames),
                reply,
                piece,
            }),
            Err(_) => Err(OutOfMemory),
        }
    }

    /// Readies the buffers for a new stream.
    pub fn restart(&mut self)
        ensures reads { Reads [] [] self.new.inbox.decoder }
        ensures asked { self.new.inbox.asked ≡ None }
        ensures max_frames { self.new.inbox.max_frames ≡ self.old.inbox.max_frames }
        ensures some { 1 ≤ self.new.inbox.max_frames }
        ensures reply { self.new.reply ≡ self.old.reply }
    {
        self.inbox.restart();
    }

    /// Takes bytes of the stream in order, up to the first that ends a frame or is bad, and says how many were taken. At most 2^62 bytes
    /// are fed between two restarts. After `Bad` there is nothing more to feed before a restart.
    pub fn feed(&mut self, bytes: &[u8]) -> (usize, Step)
        requires { self.old.inbox.decoder.offset + length bytes.now ≤ 2 ^ 62 }
        ensures step { Feeds self.old.inbox.decoder bytes.now result.0 result.1 self.new.inbox.decoder }
        ensures offset { self.new.inbox.decoder.offset ≡ self.old.inbox.decoder.offset + result.0 }
        ensures within { result.0 ≤ length bytes.now }
        ensures asked { self.new.inbox.asked ≡ whole_of result.1 }
        ensures max_frames { self.new.inbox.max_frames ≡ self.old.inbox.max_frames }
        ensures reply { self.new.reply ≡ self.old.reply }
    {
        self.inbox.feed(bytes)
    }

    /// The call of the frame that was just whole, and that isn't answered yet.
    pub fn next_call(&self) -> Call
        requires { IsSome self.now.inbox.asked }
        ensures call { IsCallOf self.now.inbox.asked result }
        ensures framed { IsWholeFrame self.now.inbox.decoder self.now.inbox.asked }
    {
        self.inbox.next_call()
    }

    /// Puts the head of the reply frame before the bytes of the call, which stand in `reply` from place 32 on, and gives the whole frame.
    /// The reply is one that the frame's request may have. Then the request is answered, and of the buffers nothing but the head has
    /// changed.
    pub fn answered(&mut self, reply: &Reply) -> &[u8]
        requires room { length self.old.reply.items ≡ 65568 }
        requires asked { IsSome self.old.inbox.asked }
        requires answer { CanAnswer self.old.inbox.asked reply.now }
        ensures* after { sem 𝓛 (LeavesSettled self.entry) }
        ensures frame { result.now ≡ answer_of self.old.inbox.asked reply.now self.old.reply.items }
    {
        let end = put_reply(&mut self.inbox, &mut self.reply, reply);
        &self.reply[4..end]
    }
}
