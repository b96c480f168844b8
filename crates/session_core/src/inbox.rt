// What a session has read of its stream, and the request that is to be answered next.
ghost use Rattle.std.specs.Prelude.{◌≡◌, ◌≤◌, ◌<◌, ◌+◌, ◌^◌, ◌↔◌, [], None, length, IsTrue, IsSome};
ghost use Rattle.frame_codec.specs.Decoding.{Feeds, Reads};
ghost use Rattle.session_core.specs.Inbox.{whole_of, IsCallOf, IsWholeFrame};

use crate::answers::call_of;
use frame_codec::{Decoder, Request, Step};
use std::marker::Model;
use tree_core::Call;

/// What a session has read of its stream. Contracts see it as what its decoder has, the request that is to be answered next, if there is
/// one, and the most frames of the session.
#[derive(Drop)]
pub struct Inbox {
    decoder: Decoder,
    asked: Option<Request>,
    max_frames: u64,
}

impl Model for Inbox {
    ghost use Rattle.session_core.specs.Inbox.{Waiting, IsWaiting};

    ghost Value = { Waiting };

    ghost view = { λ i. record { decoder = i.decoder; asked = i.asked; max_frames = i.max_frames } };

    ghost invariant = { λ i. IsWaiting i.decoder i.asked i.max_frames };
}

impl Inbox {
    // An inbox that has read nothing.
    pub(crate) fn new(max_frames: u64) -> Inbox
        requires { 1 ≤ max_frames }
        ensures reads { Reads [] [] result.decoder }
        ensures asked { result.asked ≡ None }
        ensures max_frames { result.max_frames ≡ max_frames }
    {
        Inbox {
            decoder: Decoder::fresh(),
            asked: None,
            max_frames,
        }
    }

    // Begins a new stream.
    pub(crate) fn restart(&mut self)
        ensures reads { Reads [] [] self.new.decoder }
        ensures asked { self.new.asked ≡ None }
        ensures max_frames { self.new.max_frames ≡ self.old.max_frames }
        ensures some { 1 ≤ self.new.max_frames }
    {
        self.decoder = Decoder::fresh();
        self.asked = None;
    }

    /// Takes bytes of the stream in order, up to the first that ends a frame or is bad, and says how many were taken. At most 2^62 bytes
    /// are fed between two restarts.
    pub fn feed(&mut self, bytes: &[u8]) -> (usize, Step)
        requires { self.old.decoder.offset + length bytes.now ≤ 2 ^ 62 }
        ensures step { Feeds self.old.decoder bytes.now result.0 result.1 self.new.decoder }
        ensures offset { self.new.decoder.offset ≡ self.old.decoder.offset + result.0 }
        ensures within { result.0 ≤ length bytes.now }
        ensures asked { self.new.asked ≡ whole_of result.1 }
        ensures max_frames { self.new.max_frames ≡ self.old.max_frames }
    {
        let (count, step) = self.decoder.feed(bytes);
        self.asked = match step {
            Step::Whole(request) => Some(request),
            _ => None,
        };
        (count, step)
    }

    // The call that is to be made next.
    pub(crate) fn next_call(&self) -> Call
        requires { IsSome self.now.asked }
        ensures call { IsCallOf self.now.asked result }
        ensures framed { IsWholeFrame self.now.decoder self.now.asked }
    {
        match &self.asked {
            Some(request) => call_of(request),
            None => unreachable!(),
        }
    }

    // Takes the request out that was answered.
    pub(crate) fn take_asked(&mut self) -> Option<Request>
        ensures asked { result ≡ self.old.asked }
        ensures decoder { self.new.decoder ≡ self.old.decoder }
        ensures none { self.new.asked ≡ None }
        ensures max_frames { self.new.max_frames ≡ self.old.max_frames }
    {
        let asked = self.asked;
        self.asked = None;
        asked
    }

    /// The string of the frame that was just whole, empty where the call has none.
    pub fn string(&self) -> &[u8]
        ensures { result.now ≡ self.now.decoder.string }
    {
        self.decoder.string()
    }

    /// The most frames of the session.
    pub fn max_frames(&self) -> u64
        ensures max_frames { result ≡ self.now.max_frames }
        ensures some { 1 ≤ result }
    {
        self.max_frames
    }

    /// Whether the bytes fed end within a frame.
    pub fn inside(&self) -> bool
        ensures { IsTrue result ↔ (0 < length self.now.decoder.rest) }
    {
        self.decoder.inside()
    }

    /// How many bytes of this stream were fed.
    pub fn offset(&self) -> u64
        ensures { result ≡ self.now.decoder.offset }
    {
        self.decoder.offset()
    }
}
