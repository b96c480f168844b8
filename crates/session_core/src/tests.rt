// Sessions on the stock tree, whose seed is the bytes 00 to 2f. Replies of a Generate were computed by an independent implementation.
use crate::{End, Session, session_solo};
use frame_codec::Step;
use rbg_bytes::{MemSink, MemSource};
use sample_source::Recorded;
use std::process::Abort;
use std::test::Fail;
use tree_config::TreePlan;
use tree_core::{Call, Reply, SoloTree};

// A request of each operation and of each kind of refusal, with its reply.
const ROWS: [(&str, &str); 13] = [
    (
        "01060000000000020000000000000000",
        "0100060000000002000000000000000000000000000000000000001901000000000000000100000000000000010000000000000000",
    ),
    (
        "01020000000000010000002000000000",
        "010002000000000100000000000000000000000000000000000000200ffb80875a3e9022a4941a3fa1b0d3611df14e1cf651a73ce9229b9f3ad56887",
    ),
    (
        "01020000000000030000002100800003aabbcc",
        "01000200000000030000000000000000000000000000000000000021639034efb834c5bc082574c271b2c7756836dfd7c92dfe39873440de8a37715700",
    ),
    (
        "0103010000000004000000000000000164",
        "01060300000000040000000000000000000000000000000000000000",
    ),
    (
        "01020100000000050000002001000000",
        "01070200000000050000000000000000000000000000000000000000",
    ),
    (
        "01050003000000060000000000000000",
        "01010503000000060000000000000003000000000000000000000000",
    ),
    (
        "01020000000000070001000100000000",
        "01020200000000070000000000010001000000000001000000000000",
    ),
    (
        "01020000000000080000001001010000",
        "01050200000000080000000000000101000000000000010000000000",
    ),
    (
        "010100000000000900000000008000026162",
        "01030100000000090000000000000000000000000000000000000000",
    ),
    (
        "010400000000000a0000000000000000",
        "010004000000000a0000000000000000000000000000000000000000",
    ),
    (
        "010100000000000b00000000008000026162",
        "010601000000000b0000000000000000000000000000000000000000",
    ),
    (
        "010200000000000c0000001000000000",
        "010402000000000c0000000000000000000000000000000000000000",
    ),
    (
        "01060000ffffffff0000000000000000",
        "01000600ffffffff000000000000000000000000000000000000001900000000000000000000000000000000010000000000000002",
    ),
];

/// What a session is held over: how many bytes one read gives, which read and which write fail, how many bytes the output takes, and the
/// most frames.
#[derive(Clone, Copy)]
struct Setting {
    piece: usize,
    read: u64,
    write: u64,
    room: usize,
    max: u64,
}

// No call has this number.
const NEVER: u64 = u64::MAX;

const PLAIN: Setting = Setting {
    piece: 65_536,
    read: NEVER,
    write: NEVER,
    room: 1000,
    max: 100,
};

// How a session over this input ends, and what it wrote. There are at least one and at most 1,000 frames.
fn held(
    rt: &(impl Abort + AllocGlobal),
    input: Vec<u8>,
    setting: &Setting,
) -> Result<(End, Vec<u8>), Fail> {
    let alloc = rt.alloc();
    let mut seed = Vec::new(alloc);
    for byte in 0..48 {
        seed.push(byte)?;
    }
    let sources: Vec<Recorded> = Vec::new(alloc);
    let plan = TreePlan::stock(alloc)?;
    let mut tree = match SoloTree::open(alloc, plan, sources, vec![in alloc; seed]?) {
        Ok(tree) => tree,
        Err(why) => panic!(rt; "not opened: {why:?}"),
    };
    let mut source = MemSource::new(input, setting.piece.max(1), vec![in alloc; setting.read]?);
    let mut sink = MemSink::new(
        vec![in alloc; 0u8; setting.room]?,
        vec![in alloc; setting.write]?,
    );
    let mut buffers = match Session::open(alloc, setting.max.clamp(1, 1000)) {
        Ok(buffers) => buffers,
        Err(why) => panic!(rt; "no memory: {why:?}"),
    };
    let end = session_solo(&mut buffers, &mut tree, &mut source, &mut sink);
    Ok((end, sink.written().to_vec(alloc)?))
}

// Adds the bytes of a hexadecimal text.
fn add(rt: &(impl Abort + AllocGlobal), bytes: &mut Vec<u8>, text: &str) -> Result<(), Fail> {
    match hex::decode(rt.alloc(), text.as_bytes()) {
        Ok(more) => bytes.extend_from_slice(&more)?,
        Err(_) => panic!(rt; "not hexadecimal: {text}"),
    }
    Ok(())
}

#[test]
fn all_operations_are_answered_however_the_input_is_cut(rt: HostRuntime) -> Result<(), Fail> {
    for piece in [1, 2, 3, 7, 16, 17, 65_536] {
        let mut input = Vec::new(rt.alloc());
        let mut replies = Vec::new(rt.alloc());
        for (frame, reply) in ROWS {
            add(&rt, &mut input, frame)?;
            add(&rt, &mut replies, reply)?;
        }
        let (end, written) = held(&rt, input, &Setting { piece, ..PLAIN })?;
        assert_eq!(rt; end, End::Read { frames: 13 }, "in pieces of {piece}");
        assert_eq!(rt; written, replies, "in pieces of {piece}");
    }
    Ok(())
}

// Three Generates of no bytes.
const THREE: &str =
    "010200000000000100000000000000000102000000000002000000000000000001020000000000030000000000000000";

// Their replies.
const REPLIES: &str =
    "010002000000000100000000000000000000000000000000000000000100020000000002000000000000000000000000000000000000000001000200000000030000000000000000000000000000000000000000";

#[test]
fn sessions_end_as_the_table_says(rt: HostRuntime) -> Result<(), Fail> {
    // The input, the end, and how many bytes of the replies, or else what was written.
    let ends = [
        ("", PLAIN, End::Read { frames: 0 }, 0),
        ("0103", PLAIN, End::Cut { offset: 2 }, 0),
        (
            "01020000000000010000002000000005",
            PLAIN,
            End::Cut { offset: 16 },
            0,
        ),
        (
            THREE,
            Setting { max: 2, ..PLAIN },
            End::Quota { frames: 2 },
            56,
        ),
        (
            THREE,
            Setting { max: 3, ..PLAIN },
            End::Quota { frames: 3 },
            84,
        ),
        (
            THREE,
            Setting { max: 4, ..PLAIN },
            End::Read { frames: 3 },
            84,
        ),
        (
            THREE,
            Setting {
                piece: 20,
                read: 2,
                ..PLAIN
            },
            End::ReadFault { count: 1 },
            56,
        ),
        (
            THREE,
            Setting { write: 1, ..PLAIN },
            End::WriteFault { count: 1 },
            28,
        ),
        (
            THREE,
            Setting { room: 50, ..PLAIN },
            End::WriteFault { count: 1 },
            50,
        ),
        (
            "00",
            Setting { write: 0, ..PLAIN },
            End::WriteFault { count: 1 },
            0,
        ),
    ];
    let mut replies = Vec::new(rt.alloc());
    add(&rt, &mut replies, REPLIES)?;
    for (text, setting, end, len) in ends {
        let mut input = Vec::new(rt.alloc());
        add(&rt, &mut input, text)?;
        let (ended, written) = held(&rt, input, &setting)?;
        assert_eq!(rt; ended, end, "over {text}");
        assert_eq!(rt; Some(written.as_slice()), replies.get(..len), "over {text}");
    }
    let malformed = [
        ("02", 0, 1),
        ("0107", 1, 2),
        ("01020201", 2, 3),
        ("010600000000000101", 8, 4),
        ("01040000000000010000000001", 12, 5),
        ("01020000000000010000000000001001", 15, 6),
    ];
    for (text, offset, why) in malformed {
        let mut input = Vec::new(rt.alloc());
        add(&rt, &mut input, text)?;
        let (ended, written) = held(&rt, input, &PLAIN)?;
        assert_eq!(rt; ended, End::Bad { offset, why });
        let mut frame = [0; 28];
        frame[0] = 1;
        frame[1] = 255;
        frame[15] = offset as u8;
        frame[23] = why;
        assert_eq!(rt; written.as_slice(), frame.as_slice());
    }
    Ok(())
}

// A Reseed with prediction resistance and a string of one byte.
const RESEED: [u8; 17] = [1, 3, 1, 0, 0, 0, 0, 4, 0, 0, 0, 0, 0, 0, 0, 1, 100];

// The reply that an RBG1 gives to it.
const REFUSED: [u8; 28] = [
    1, 6, 3, 0, 0, 0, 0, 4, 0, 0, 0, 0, 0, 0, 0, 0, 0, 0, 0, 0, 0, 0, 0, 0, 0, 0, 0, 0,
];

#[test]
fn a_caller_feeds_asks_and_tells(rt: HostRuntime) {
    let mut session = match Session::open(rt.alloc(), 7) {
        Ok(session) => session,
        Err(why) => panic!(&rt; "no memory: {why:?}"),
    };
    let (taken, step) = session.feed(&RESEED);
    assert_eq!(rt; taken, 17);
    let Step::Whole(_) = step else {
        panic!(&rt; "not whole: {step:?}");
    };
    assert_eq!(rt; session.next_call(), Call::Reseed { node: 0, pr: true });
    assert_eq!(rt; session.inbox.string(), b"d".as_slice());
    let refused = Reply {
        code: 6,
        a: 0,
        b: 0,
        len: 0,
    };
    assert_eq!(rt; session.answered(&refused), REFUSED.as_slice());
    assert_eq!(rt; session.inbox.inside(), false);
    assert_eq!(rt; session.inbox.offset(), 17);
    session.restart();
    assert_eq!(rt; session.inbox.offset(), 0);
    assert_eq!(rt; session.inbox.max_frames(), 7);
    assert_eq!(rt; session.reply.len(), 65_568);
}
