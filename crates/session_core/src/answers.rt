// The call of a request, and its reply frame.
ghost use Rattle.std.specs.Prelude.{◌≡◌, ◌≤◌, ◌<◌, ◌+◌, ◌^◌, ◌++◌, [], length, take, drop};
ghost use Rattle.frame_codec.specs.Rows.{spelled};
ghost use Rattle.frame_codec.specs.Frames.{reply_fields, reply_numbers, IsReplyHead};
ghost use Rattle.session_core.specs.Ends.{malformed};
ghost use Rattle.session_core.specs.Answers.{call_of, reply_head};

use frame_codec::{ReplyHead, Request, encode_reply};
use rbg_bytes::put_at;
use tree_core::{Call, Reply};

/// The bytes of a reply's head.
pub const HEAD_LEN: usize = 28;

/// The call that a request asks.
pub fn call_of(request: &Request) -> Call
    ensures { result ≡ call_of request.now }
{
    let node = u16::from(request.node);
    let strength = request.strength;
    let pr = request.flags == 1;
    match request.op {
        1 => Call::Instantiate { node, strength },
        2 => Call::Generate {
            node,
            count: request.count,
            strength,
            pr,
        },
        3 => Call::Reseed { node, pr },
        4 => Call::Uninstantiate { node },
        5 => Call::Start { source: node },
        _ => Call::Status { node },
    }
}

/// A reply of these numbers.
pub fn reply_of(code: u8, a: u64, b: u64, len: u32) -> Reply
    ensures reply { result ≡ record { code = code; a = a; b = b; len = len } }
    ensures details { (result.a < 2 ^ 64) × (result.b < 2 ^ 64) }
{
    Reply { code, a, b, len }
}

/// The head of the reply frame to a request whose call was answered so.
pub fn reply_head(request: &Request, reply: &Reply) -> ReplyHead
    ensures { result ≡ reply_head request.now reply.now }
{
    ReplyHead {
        code: reply.code,
        op: request.op,
        node: request.node,
        id: request.id,
        a: reply.a,
        b: reply.b,
        len: reply.len,
    }
}

/// Writes a head to a buffer so that it ends at place 32. What stands before and behind it stays as it is.
pub fn put_head(head: &ReplyHead, buffer: &mut [u8])
    requires served { IsReplyHead head.now }
    requires room { 32 ≤ length buffer.old }
    ensures front { take 32 buffer.new ≡ take 4 buffer.old ++ spelled reply_fields (reply_numbers head.now) }
    ensures behind { drop 32 buffer.new ≡ drop 32 buffer.old }
{
    let mut encoded = [0u8; HEAD_LEN];
    encode_reply(head, &mut encoded);
    put_at(buffer, 4, &encoded);
}

/// The Malformed frame, which says at which place of the input no frame goes on with the byte there, and in which field.
pub fn malformed_frame(offset: u64, why: u8) -> [u8; HEAD_LEN]
    ensures { result ≡ malformed offset why }
{
    let head = ReplyHead {
        code: 255,
        op: 0,
        node: 0,
        id: 0,
        a: offset,
        b: u64::from(why),
        len: 0,
    };
    let mut frame = [0u8; HEAD_LEN];
    encode_reply(&head, &mut frame);
    frame
}
