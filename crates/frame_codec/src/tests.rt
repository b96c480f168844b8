// Frames and streams written out by hand from the layout.
ghost use Rattle.std.specs.Prelude.{[], ◌∷◌, ◌≤◌, ◌<◌, length, IfSome};
ghost use Rattle.frame_codec.specs.Grammar.{IsFramed};
ghost use Rattle.frame_codec.specs.Frames.{requests, IsReplyHead};

use crate::{
    Decoder, ReplyDecoder, ReplyHead, ReplyStep, Request, Step, encode_reply, encode_request,
};
use std::test::Fail;

// One frame of each operation, three of them with a string, and a seventh that stops being one at its second byte.
const STREAM: [u8; 104] = [
    1, 1, 0, 3, 0, 0, 0, 1, 0, 0, 0, 0, 0, 192, 0, 2, 97, 98, 1, 2, 1, 4, 0, 0, 0, 2, 0, 1, 0, 1,
    0, 128, 0, 1, 99, 1, 3, 1, 5, 0, 0, 0, 3, 0, 0, 0, 0, 0, 0, 0, 3, 1, 2, 6, 1, 4, 0, 6, 0, 0, 0,
    4, 0, 0, 0, 0, 0, 0, 0, 0, 1, 5, 0, 1, 0, 0, 0, 5, 0, 0, 0, 0, 0, 0, 0, 0, 1, 6, 0, 255, 255,
    255, 255, 255, 0, 0, 0, 0, 0, 0, 0, 0, 1, 7,
];

// A request that asks for nothing but its operation.
const PLAIN: Request = Request {
    op: 4,
    flags: 0,
    node: 6,
    id: 4,
    count: 0,
    strength: 0,
    len: 0,
};

// Asks 65,537 bytes of node 4 with prediction resistance, with a string of one byte.
const GENERATE: Request = Request {
    op: 2,
    flags: 1,
    node: 4,
    id: 2,
    count: 65537,
    strength: 128,
    len: 1,
};

// What the stream asks, with its strings.
const ASKED: [(Request, &[u8]); 6] = [
    (
        Request {
            op: 1,
            flags: 0,
            node: 3,
            id: 1,
            count: 0,
            strength: 192,
            len: 2,
        },
        b"ab",
    ),
    (GENERATE, b"c"),
    (
        Request {
            op: 3,
            flags: 1,
            node: 5,
            id: 3,
            count: 0,
            strength: 0,
            len: 3,
        },
        &[1, 2, 6],
    ),
    (PLAIN, &[]),
    (
        Request {
            op: 5,
            node: 1,
            id: 5,
            ..PLAIN
        },
        &[],
    ),
    (
        Request {
            op: 6,
            node: 255,
            id: u32::MAX,
            ..PLAIN
        },
        &[],
    ),
];

// Feeds at most 4,200 bytes to a decoder that has taken at most as many.
fn feed(decoder: &mut Decoder, bytes: &[u8]) -> Option<(usize, Step)>
    ensures { IfSome result (λ r. r.0 ≤ length bytes.now) }
{
    if 4200 < decoder.offset() || 4200 < bytes.len() {
        return None;
    }
    Some(decoder.feed(bytes))
}

// The first step of a new decoder that isn't More over these bytes, in pieces of this size, and after how many it came.
fn said(bytes: &[u8], size: usize) -> Option<(u64, Step)>
    requires { 0 < size }
{
    let mut decoder = Decoder::fresh();
    for piece in bytes.chunks(size) {
        let (_, step) = feed(&mut decoder, piece)?;
        if step != Step::More {
            return Some((decoder.offset(), step));
        }
    }
    Some((decoder.offset(), Step::More))
}

// By the table of the layout: the number of the field that cannot have this byte at this place, and 0 where it can. `before`
// is the byte before.
fn wrong(op: u8, place: usize, before: u8, byte: u8) -> u8 {
    let (allowed, why) = match place {
        0 => (byte == 1, 1),
        1 => (1 <= byte && byte <= 6, 2),
        2 => (byte == 0 || byte == 1 && (op == 2 || op == 3), 3),
        8..=11 => (byte == 0 || op == 2, 4),
        12 | 13 => (byte == 0 || op == 1 || op == 2, 5),
        14 => (byte == 0 || byte <= 16 && op <= 3, 6),
        15 => (byte == 0 || before < 16 && op <= 3, 6),
        _ => (true, 0),
    };
    if allowed { 0 } else { why }
}

// The request whose head these bytes are.
fn request_in(head: &[u8; 16]) -> Request {
    Request {
        op: head[1],
        flags: head[2],
        node: head[3],
        id: u32::from_be_bytes([head[4], head[5], head[6], head[7]]),
        count: u32::from_be_bytes([head[8], head[9], head[10], head[11]]),
        strength: u16::from_be_bytes([head[12], head[13]]),
        len: u16::from_be_bytes([head[14], head[15]]),
    }
}

#[test]
fn each_byte_of_a_head_is_told_right_or_wrong(rt: HostRuntime) {
    for op in 1..7 {
        for place in 0..16 {
            for high in [0, 16] {
                for byte in 0..256u16 {
                    let mut head = [1, op, 0, 7, 0, 0, 0, 9, 0, 0, 0, 0, 0, 0, 0, 0];
                    if op < 4 && place == 15 {
                        head[14] = high;
                    }
                    let byte = byte as u8;
                    let why = wrong(op, place, head[14], byte);
                    head[place] = byte;
                    let step = if why != 0 {
                        let offset = place as u64;
                        (offset + 1, Step::Bad { offset, why })
                    } else if head[14] != 0 || head[15] != 0 {
                        (16, Step::More)
                    } else {
                        (16, Step::Whole(request_in(&head)))
                    };
                    assert_eq!(rt; said(&head, 16), Some(step));
                    assert_eq!(rt; said(&head, 1), Some(step));
                }
            }
        }
    }
}

#[test]
fn a_stream_gives_the_same_however_it_is_cut(rt: HostRuntime) {
    for size in 1..=STREAM.len() {
        let mut decoder = Decoder::fresh();
        let mut asked = ASKED.iter();
        let mut bad = None;
        for piece in STREAM.chunks(size) {
            let mut rest = piece;
            for _ in 0..8 {
                let Some((taken, step)) = feed(&mut decoder, rest) else {
                    break;
                };
                let Step::Whole(request) = step else {
                    if step != Step::More {
                        bad = Some(step);
                    }
                    break;
                };
                assert_eq!(rt;
                    Some(&(request, decoder.string())),
                    asked.next(),
                    "in pieces of {size}"
                );
                rest = &rest[taken..];
            }
        }
        assert_eq!(rt; asked.next(), None);
        let wrong = Step::Bad {
            offset: 103,
            why: 2,
        };
        assert_eq!(rt; bad, Some(wrong));
        assert_eq!(rt; decoder.inside(), true);
        assert_eq!(rt; decoder.string().len(), 0);
    }
}

#[test]
fn the_longest_string_is_read(rt: HostRuntime) {
    let mut frame = [5u8; 16 + 4096];
    let head = [1, 3, 0, 7, 0, 0, 0, 9, 0, 0, 0, 0, 0, 0, 16, 0];
    frame[..16].copy_from_slice(&head);
    let mut decoder = Decoder::fresh();
    let whole = Step::Whole(request_in(&head));
    assert_eq!(rt;
        feed(&mut decoder, &frame[..2000]),
        Some((2000, Step::More))
    );
    assert_eq!(rt; feed(&mut decoder, &frame[2000..]), Some((2112, whole)));
    assert_eq!(rt; decoder.string(), &frame[16..]);
    assert_eq!(rt; decoder.inside(), false);
}

// The second request of the stream, as what its frame needs.
fn generate() -> Request
    ensures { IsFramed requests (record { head = result; string = 99 ∷ [] }) }
{
    GENERATE
}

// The step at the last of these bytes, at most 29, of a stream of replies.
fn replied(bytes: &[u8]) -> ReplyStep {
    let mut decoder = ReplyDecoder::fresh();
    let mut step = ReplyStep::More;
    if 29 < bytes.len() {
        return step;
    }
    for byte in bytes {
        step = decoder.push(*byte);
    }
    step
}

// By the table of the layout of replies, as `wrong`.
fn wrong_reply(code: u8, op: u8, place: usize, before: u8, byte: u8) -> u8 {
    let zero = byte == 0;
    let (allowed, why) = match place {
        0 => (byte == 1, 1),
        1 => (byte <= 14 && byte != 9 || byte == 255, 8),
        2 if code == 255 => (zero, 2),
        2 => (1 <= byte && byte <= 6, 2),
        3 => (zero || code != 255, 4),
        4..=7 => (zero || code != 255, 5),
        8..=23 => (zero || code != 0, 7),
        25 => (zero || code == 0 && op == 2 && byte == 1, 6),
        26 => (zero || code == 0 && op == 2 && before == 0, 6),
        27 if code == 0 && op == 6 => (byte == 25, 6),
        27 => (zero || code == 0 && op == 2 && before == 0, 6),
        _ => (zero, 6),
    };
    if allowed { 0 } else { why }
}

#[test]
fn each_byte_of_a_reply_is_told_right_or_wrong(rt: HostRuntime) {
    for code in [0, 1, 2, 3, 4, 5, 6, 7, 8, 10, 11, 12, 13, 14, 255] {
        for (op, high) in [(1, 0), (2, 0), (2, 1), (3, 0), (4, 0), (5, 0), (6, 0)] {
            let mut head = [0; 28];
            head[0] = 1;
            head[1] = code;
            head[2] = if code == 255 { 0 } else { op };
            head[25] = if code == 0 { high } else { 0 };
            for place in 0..28 {
                for byte in 0..256u16 {
                    let byte = byte as u8;
                    let mut text = head;
                    text[place] = byte;
                    let why = wrong_reply(code, op, place, head[25], byte);
                    let step = replied(text.get(..place + 1).unwrap_or(&[]));
                    if why != 0 {
                        let offset = place as u64;
                        assert_eq!(rt; step, ReplyStep::Bad { offset, why });
                    } else if place < 27 {
                        assert_eq!(rt; step, ReplyStep::More);
                    } else {
                        assert!(rt; matches!(step, ReplyStep::Head(_)));
                    }
                }
            }
        }
    }
}

// The head of a Done reply to a Generate of so many bytes, at most 65,536, with id 5.
fn done() -> ReplyHead
    ensures { IsReplyHead result }
{
    ReplyHead {
        code: 0,
        op: 2,
        node: 0,
        id: 5,
        a: 0,
        b: 0,
        len: 65536,
    }
}

#[test]
fn frames_are_written_and_read(rt: HostRuntime) {
    let mut frame = [0; 17];
    assert_eq!(rt; encode_request(&generate(), &[99], &mut frame), 17);
    assert_eq!(rt; frame[..], STREAM[18..35]);
    let mut text = [0; 28];
    encode_reply(&done(), &mut text);
    assert_eq!(rt;
        text,
        [
            1, 0, 2, 0, 0, 0, 0, 5, 0, 0, 0, 0, 0, 0, 0, 0, 0, 0, 0, 0, 0, 0, 0, 0, 0, 1, 0, 0,
        ]
    );
    assert_eq!(rt; replied(&text), ReplyStep::Head(done()));
    let mut longer = [7; 29];
    longer[..28].copy_from_slice(&text);
    assert_eq!(rt; replied(&longer), ReplyStep::Payload(7));
}
