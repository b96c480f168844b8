// Frames as bytes.

ghost use Rattle.std.specs.Prelude.{◌≡◌, ◌≤◌, ◌+◌, [], ◌++◌, length, take, drop};
ghost use Rattle.frame_codec.specs.Rows.{spelled};
ghost use Rattle.frame_codec.specs.Grammar.{text_of, IsFramed};
ghost use Rattle.frame_codec.specs.Frames.{requests, request_fields, request_numbers, reply_fields, reply_numbers, IsReplyHead, IsRequestHead};

use crate::frames::{ReplyHead, Request};
use rbg_bytes::{put_at, put_front};

/// Writes the head of a reply frame, 28 bytes, behind which its payload comes. The head is of the grammar.
pub fn encode_reply(head: &ReplyHead, out: &mut [u8; 28])
    requires { IsReplyHead head.now }
    ensures { out.new ≡ spelled reply_fields (reply_numbers head.now) }
{
    let [i0, i1, i2, i3] = head.id.to_be_bytes();
    let [a0, a1, a2, a3, a4, a5, a6, a7] = head.a.to_be_bytes();
    let [b0, b1, b2, b3, b4, b5, b6, b7] = head.b.to_be_bytes();
    let [l0, l1, l2, l3] = head.len.to_be_bytes();
    *out = [
        1, head.code, head.op, head.node, i0, i1, i2, i3, a0, a1, a2, a3, a4, a5, a6, a7, b0, b1,
        b2, b3, b4, b5, b6, b7, l0, l1, l2, l3,
    ];
}

/// The bytes of the head of a request.
pub fn request_head(request: &Request) -> [u8; 16]
    requires { IsRequestHead request.now }
    ensures { result ≡ spelled request_fields (request_numbers request.now) }
{
    let [i0, i1, i2, i3] = request.id.to_be_bytes();
    let [c0, c1, c2, c3] = request.count.to_be_bytes();
    let [s0, s1] = request.strength.to_be_bytes();
    let [l0, l1] = request.len.to_be_bytes();
    [
        1,
        request.op,
        request.flags,
        request.node,
        i0,
        i1,
        i2,
        i3,
        c0,
        c1,
        c2,
        c3,
        s0,
        s1,
        l0,
        l1,
    ]
}

// Writes one piece and another behind it to the front, and leaves the rest as it is.
fn put_pieces(out: &mut [u8], one: &[u8], other: &[u8])
    requires { length one.now + length other.now ≤ length out.old }
    ensures front { take (length one.now + length other.now) out.new ≡ one.now ++ other.now }
    ensures behind { drop (length one.now + length other.now) out.new ≡ drop (length one.now + length other.now) out.old }
{
    put_front(out, one);
    put_at(out, one.len(), other);
}

/// Writes the frame of a request with its string to the front of `out`, and gives its length. The request and its string
/// are of the grammar, and `out` has room for the frame. What is behind the frame stays as it is.
pub fn encode_request(request: &Request, string: &[u8], out: &mut [u8]) -> usize
    requires framed { IsFramed requests (record { head = request.now; string = string.now }) }
    requires room { length (text_of requests (record { head = request.now; string = string.now })) ≤ length out.old }
    ensures len { result ≡ length (text_of requests (record { head = request.now; string = string.now })) }
    ensures text { take result out.new ≡ text_of requests (record { head = request.now; string = string.now }) }
    ensures rest { drop result out.new ≡ drop result out.old }
{
    let head = request_head(request);
    put_pieces(out, &head, string);
    head.len() + string.len()
}
