// Reply frames out of a stream of bytes.

ghost use Rattle.std.specs.Prelude.{◌≡◌, ◌<◌, ◌+◌, ◌^◌, [], length, take};
ghost use Rattle.frame_codec.specs.Rows.{Takes};
ghost use Rattle.frame_codec.specs.Frames.{replies};
ghost use Rattle.frame_codec.specs.Replying.{ReplySteps, ReplyReads};

use crate::frames::ReplyHead;
use crate::head::{Head, HeadStep};
use crate::table::Table;
use std::marker::Model;

/// What a byte of a stream of reply frames is.
#[derive(Clone, Copy, Debug, PartialEq, Eq)]
pub enum ReplyStep {
    /// The byte stands within a head.
    More,
    /// The byte is the last of this head, whose payload comes next.
    Head(ReplyHead),
    /// The byte is the next of a payload.
    Payload(u8),
    /// No reply goes on with the byte: its place in the whole stream, and the number of the field in which it stands.
    Bad { offset: u64, why: u8 },
}

// The head with these numbers.
fn reply_of(numbers: &[u64; 8]) -> ReplyHead
    requires { Takes replies.fields [] (take (length replies.fields) numbers.now) }
    ensures { result ≡ replies.head (take (length replies.fields) numbers.now) }
{
    let [_, code, op, node, id, a, b, len] = *numbers;
    ReplyHead {
        code: code as u8,
        op: op as u8,
        node: node as u8,
        id: id as u32,
        a,
        b,
        len: len as u32,
    }
}

/// A decoder of reply frames, which keeps no payload. Contracts see it as the bytes of the head that is begun, how many
/// bytes of the payload are still to come, and the number of bytes pushed.
#[derive(Drop)]
pub struct ReplyDecoder {
    head: Head,
    left: u32,
    offset: u64,
}

impl Model for ReplyDecoder {
    ghost use Rattle.frame_codec.specs.Heads.{bytes_of};
    ghost use Rattle.frame_codec.specs.Replying.{Replying, IsReplying};

    ghost Value = { Replying };

    ghost view = { λ d. record { rest = bytes_of d.head; left = d.left; offset = d.offset } };

    ghost invariant = { λ d. IsReplying d.head d.left };
}

impl ReplyDecoder {
    /// A decoder to which no byte was pushed.
    pub fn fresh() -> ReplyDecoder
        ensures rest { result.rest ≡ [] }
        ensures left { result.left ≡ 0 }
        ensures offset { result.offset ≡ 0 }
        ensures reads { ReplyReads [] [] [] result }
    {
        ReplyDecoder {
            head: Head::fresh(Table::Replies),
            left: 0,
            offset: 0,
        }
    }

    /// Takes the next byte of the stream. At most 2^62 bytes are pushed into one decoder. After `Bad` the decoder has the
    /// bytes before the bad one, and there is nothing more to ask of it.
    pub fn push(&mut self, byte: u8) -> ReplyStep
        requires { self.old.offset < 2 ^ 62 }
        ensures step { ReplySteps self.old byte result self.new }
        ensures offset { self.new.offset ≡ self.old.offset + 1 }
    {
        let offset = self.offset;
        self.offset = offset + 1;
        if 0 < self.left {
            self.left -= 1;
            return ReplyStep::Payload(byte);
        }
        match self.head.push(byte) {
            HeadStep::More => ReplyStep::More,
            HeadStep::Bad { why } => ReplyStep::Bad { offset, why },
            HeadStep::Whole => {
                let head = reply_of(&self.head.numbers);
                self.head.restart();
                self.left = head.len;
                ReplyStep::Head(head)
            }
        }
    }
}
