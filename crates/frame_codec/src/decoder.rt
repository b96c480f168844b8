// Request frames out of a stream of bytes.

ghost use Rattle.std.specs.Prelude.{◌≡◌, ◌<◌, ◌≤◌, ◌+◌, ◌^◌, ◌↔◌, [], length, take, IsTrue, IfSome};
ghost use Rattle.frame_codec.specs.Rows.{Takes, spelled};
ghost use Rattle.frame_codec.specs.Frames.{requests, request_fields, request_numbers, IsRequestHead};
ghost use Rattle.frame_codec.specs.Heads.{IsWhole};
ghost use Rattle.frame_codec.specs.Decoding.{Steps, Feeds, Reads, Finishes, len_of};

use crate::encode::request_head;
use crate::frames::Request;
use crate::head::{Head, HeadStep, takes_all};
use crate::table::{Table, count};
use rbg_bytes::put_at;
use std::marker::Model;

/// What a byte, or a piece of bytes, makes of a stream of request frames.
#[derive(Clone, Copy, Debug, PartialEq, Eq)]
pub enum Step {
    /// The bytes end within a frame, or between two.
    More,
    /// The byte is the last of the frame of this request.
    Whole(Request),
    /// No frame goes on with the byte: its place in the whole stream, and the number of the field in which it stands.
    Bad { offset: u64, why: u8 },
}

// Whether the frame goes on.
fn is_more(step: &Step) -> bool
    ensures { IsTrue result ↔ (step.now ≡ Step.More) }
{
    matches!(step, Step::More)
}

// How many bytes the head of a request has.
const HEAD_LEN: usize = 16;

// The most bytes of a string.
const STRING_LEN: usize = 4096;

// The request with these numbers.
fn request_of(numbers: &[u64; 8]) -> Request
    requires { Takes requests.fields [] (take (length requests.fields) numbers.now) }
    ensures { result ≡ requests.head (take (length requests.fields) numbers.now) }
{
    let [_, op, flags, node, id, count, strength, len] = *numbers;
    Request {
        op: op as u8,
        flags: flags as u8,
        node: node as u8,
        id: id as u32,
        count: count as u32,
        strength: strength as u16,
        len: len as u16,
    }
}

// The numbers of a request's fields.
fn numbers_of(request: &Request) -> [u64; 8]
    ensures { result ≡ request_numbers request.now }
{
    [
        1,
        u64::from(request.op),
        u64::from(request.flags),
        u64::from(request.node),
        u64::from(request.id),
        u64::from(request.count),
        u64::from(request.strength),
        u64::from(request.len),
    ]
}

// Whether requests may have this head.
fn is_head(request: &Request) -> bool
    ensures { IsTrue result → IsRequestHead request.now }
{
    takes_all(Table::Requests, &numbers_of(request))
}

// Whether the bytes begin with this head.
fn begins_with(bytes: &[u8], head: &[u8; 16]) -> bool
    requires { 16 ≤ length bytes.now }
    ensures { IsTrue result → take 16 bytes.now ≡ head.now }
{
    // A byte at a time, so that the compiler sees that all but the first stand where the head's numbers came from.
    for at in 0..HEAD_LEN {
        if bytes[at] != head[at] {
            return false;
        }
    }
    true
}

// The request whose head the bytes begin with, where they begin with a whole one.
fn whole_head(bytes: &[u8]) -> Option<Request>
    ensures { IfSome result (λ r. (16 ≤ length bytes.now) × IsRequestHead r × (take 16 bytes.now ≡ spelled request_fields (request_numbers r))) }
{
    if bytes.len() < HEAD_LEN {
        return None;
    }
    let request = Request {
        op: bytes[1],
        flags: bytes[2],
        node: bytes[3],
        id: u32::from_be_bytes([bytes[4], bytes[5], bytes[6], bytes[7]]),
        count: u32::from_be_bytes([bytes[8], bytes[9], bytes[10], bytes[11]]),
        strength: u16::from_be_bytes([bytes[12], bytes[13]]),
        len: u16::from_be_bytes([bytes[14], bytes[15]]),
    };
    if is_head(&request) && begins_with(bytes, &request_head(&request)) {
        Some(request)
    } else {
        None
    }
}

// How long the string of a whole head is.
fn string_len(head: &Head) -> usize
    requires whole { IsWhole head.now }
    requires table { head.now.table ≡ Table.Requests }
    ensures len { result ≡ len_of requests head.now }
    ensures most { result ≤ 4096 }
{
    usize::from(request_of(&head.numbers).len)
}

// What a whole head asks, once its string is whole too; then the next frame is begun.
fn finish(head: &mut Head, got: usize) -> Step
    requires whole { IsWhole head.old }
    requires table { head.old.table ≡ Table.Requests }
    ensures { Finishes requests head.old got result head.new }
{
    let request = request_of(&head.numbers);
    if got < usize::from(request.len) {
        return Step::More;
    }
    head.restart();
    Step::Whole(request)
}

/// A decoder of request frames. Contracts see it as the bytes of the frame that is begun, the string of the frame that was
/// whole last, and the number of bytes pushed.
#[derive(Drop)]
pub struct Decoder {
    head: Head,
    string: [u8; STRING_LEN],
    got: usize,
    offset: u64,
}

impl Model for Decoder {
    ghost use Rattle.std.specs.Prelude.{take};
    ghost use Rattle.frame_codec.specs.Decoding.{Begun, rest_of, IsAsking};

    ghost Value = { Begun };

    ghost view = { λ d. record { rest = rest_of d.head d.got d.string; string = take d.got d.string; offset = d.offset } };

    ghost invariant = { λ d. IsAsking d.head d.got };
}

impl Decoder {
    /// A decoder to which no byte was pushed.
    pub fn fresh() -> Decoder
        ensures rest { result.rest ≡ [] }
        ensures string { result.string ≡ [] }
        ensures offset { result.offset ≡ 0 }
        ensures reads { Reads [] [] result }
    {
        Decoder {
            head: Head::fresh(Table::Requests),
            string: [0; STRING_LEN],
            got: 0,
            offset: 0,
        }
    }

    /// Takes the next byte of the stream. At most 2^62 bytes are pushed into one decoder. After `Bad` the decoder has the
    /// bytes before the bad one, and there is nothing more to ask of it.
    pub fn push(&mut self, byte: u8) -> Step
        requires { self.old.offset < 2 ^ 62 }
        ensures step { Steps self.old byte result self.new }
        ensures offset { self.new.offset ≡ self.old.offset + 1 }
    {
        let offset = self.offset;
        self.offset = offset + 1;
        if self.head.index < count(self.head.table) {
            return match self.head.push(byte) {
                HeadStep::More => Step::More,
                HeadStep::Bad { why } => Step::Bad { offset, why },
                HeadStep::Whole => {
                    self.got = 0;
                    finish(&mut self.head, 0)
                }
            };
        }
        self.string[self.got] = byte;
        self.got += 1;
        finish(&mut self.head, self.got)
    }

    // Takes some of the bytes: a whole head, what there is of a string, or one byte.
    fn feed_some(&mut self, bytes: &[u8]) -> (usize, Step)
        requires some { 0 < length bytes.now }
        requires offset { self.old.offset + length bytes.now ≤ 2 ^ 62 }
        ensures step { Feeds self.old (take result.0 bytes.now) result.0 result.1 self.new }
        ensures offset { self.new.offset ≡ self.old.offset + result.0 }
        ensures within { (0 < result.0) × (result.0 ≤ length bytes.now) }
    {
        if self.head.index == 0 && self.head.have == 0 {
            if let Some(request) = whole_head(bytes) {
                self.got = 0;
                self.offset += HEAD_LEN as u64;
                if request.len == 0 {
                    return (HEAD_LEN, Step::Whole(request));
                }
                self.head.fill(numbers_of(&request));
                return (HEAD_LEN, Step::More);
            }
        }
        if self.head.index < count(self.head.table) {
            return (1, self.push(bytes[0]));
        }
        let count = (string_len(&self.head) - self.got).min(bytes.len());
        put_at(&mut self.string, self.got, &bytes[..count]);
        self.got += count;
        self.offset += count as u64;
        (count, finish(&mut self.head, self.got))
    }

    /// Takes bytes in order, up to the first that ends a frame or is bad, and says how many were taken.
    pub fn feed(&mut self, bytes: &[u8]) -> (usize, Step)
        requires { self.old.offset + length bytes.now ≤ 2 ^ 62 }
        ensures step { Feeds self.old bytes.now result.0 result.1 self.new }
        ensures offset { self.new.offset ≡ self.old.offset + result.0 }
        ensures within { result.0 ≤ length bytes.now }
    {
        // What is begun is a part of a frame.
        let _head = &self.head;
        let mut at = 0;
        'pieces: while at < bytes.len() {
            let (count, step) = self.feed_some(&bytes[at..]);
            at += count;
            if !is_more(&step) {
                return (at, step);
            }
        }
        (at, Step::More)
    }

    /// The string of the frame that was just whole, empty where it has none.
    pub fn string(&self) -> &[u8]
        ensures { result.now ≡ self.now.string }
    {
        &self.string[..self.got]
    }

    /// Whether the bytes pushed end within a frame.
    pub fn inside(&self) -> bool
        ensures { IsTrue result ↔ (0 < length self.now.rest) }
    {
        0 < self.head.index || 0 < self.head.have
    }

    /// How many bytes were pushed.
    pub fn offset(&self) -> u64
        ensures { result ≡ self.now.offset }
    {
        self.offset
    }
}
