// Runs of `run` over files, input and output in memory: what the frames of a session are answered, and how the program ends.
use crate::memory_world::MemWorld;
use crate::status::Status;
use crate::top::run;
use rbg_bytes::{ByteSink, ByteSource, Failed, MemSink, MemSource};
use sample_source::Recorded;
use sha2::{Digest, Sha256};
use std::process::Abort;
use std::test::Fail;
use tree_config::{ConfigFault, Field, Place};

/// What a run is over: how many bytes of 00, 01 and so on the file `s` has, how many bytes one read of the input gives, and
/// which calls of the world, the input and the output fail.
#[derive(Clone, Copy)]
struct Setting {
    seed: u8,
    piece: usize,
    world: u64,
    input: u64,
    output: u64,
    room: usize,
}

/// No call with this number is made.
const NEVER: u64 = u64::MAX;

/// A whole seed, whole pieces and no fault.
const PLAIN: Setting = Setting {
    seed: 48,
    piece: 65_536,
    world: NEVER,
    input: NEVER,
    output: NEVER,
    room: 70_000,
};

// The words as the program gets them.
fn words_of(rt: &(impl Abort + AllocGlobal), words: &[&str]) -> Result<Vec<String>, Fail> {
    let mut owned = Vec::new(rt.alloc());
    for word in words {
        owned.push(String::from_str(rt.alloc(), word)?)?;
    }
    Ok(owned)
}

// How the program ends with these words and this input, and what it wrote.
fn ran(
    rt: &(impl Abort + AllocGlobal),
    words: &[&str],
    input: &[u8],
    setting: &Setting,
) -> Result<(Status, Vec<u8>), Fail> {
    let alloc = rt.alloc();
    let mut seed = Vec::new(alloc);
    for byte in 0..setting.seed {
        seed.push(byte)?;
    }
    let files = vec![in alloc; (String::from_str(alloc, "s")?, seed)]?;
    let samples: Vec<(String, Recorded)> = Vec::new(alloc);
    let mut world = MemWorld::new(files, samples, vec![in alloc; setting.world]?);
    let mut source = MemSource::new(
        input.to_vec(alloc)?,
        setting.piece.max(1),
        vec![in alloc; setting.input]?,
    );
    let mut sink = MemSink::new(
        vec![in alloc; 0u8; setting.room]?,
        vec![in alloc; setting.output]?,
    );
    let status = run(
        alloc,
        &words_of(rt, words)?,
        &mut world,
        &mut source,
        &mut sink,
    );
    Ok((status, sink.written().to_vec(alloc)?))
}

// The bytes of a hexadecimal text.
fn bytes_of(rt: &(impl Abort + AllocGlobal), text: &str) -> Result<Vec<u8>, Fail> {
    match hex::decode(rt.alloc(), text.as_bytes()) {
        Ok(bytes) => Ok(bytes),
        Err(_) => panic!(rt; "not hexadecimal: {text}"),
    }
}

// A run of `seed s` over this input ends so, and has written this. Both are hexadecimal.
fn check(
    rt: &(impl Abort + AllocGlobal),
    input: &str,
    setting: &Setting,
    status: Status,
    written: &str,
) -> Result<(), Fail> {
    let input = bytes_of(rt, input)?;
    let (ended, wrote) = ran(rt, &["seed", "s"], &input, setting)?;
    assert_eq!(rt; ended, status);
    assert_eq!(rt; wrote, bytes_of(rt, written)?);
    Ok(())
}

const FIRST: &str = "01020000000000010000002000000000";

const FIRST_REPLY: &str =
    "010002000000000100000000000000000000000000000000000000200ffb80875a3e9022a4941a3fa1b0d3611df14e1cf651a73ce9229b9f3ad56887";

// A Generate of no bytes, which moves the state once, and one of 32.
const NONE_FIRST: &str = "0102000000000001000000000000000001020000000000010000002000000000";

const NONE_FIRST_REPLIES: &str =
    "010002000000000100000000000000000000000000000000000000000100020000000001000000000000000000000000000000000000002022582545f7d0bd478ee2bbadaa706b41a520e85b9fe8e2870552e7b05a04150e";

// Two frames.
const TWO: &str = "0102000000000001000000200000000001020000000000020000002100000000";

const TWO_REPLIES: &str =
    "010002000000000100000000000000000000000000000000000000200ffb80875a3e9022a4941a3fa1b0d3611df14e1cf651a73ce9229b9f3ad568870100020000000002000000000000000000000000000000000000002108767656d3e9669eb668d1e1f5b80d27bb1aee12ff719eeb83e3dce006718c162b";

const STATUS: &str = "01060000000000020000000000000000";

const STATUS_REPLY: &str =
    "0100060000000002000000000000000000000000000000000000001901000000000000000100000000000000010000000000000000";

const MALFORMED: &str = "01ff0000000000000000000000000002000000000000000300000000";

#[test]
fn sessions_are_answered_and_end(rt: HostRuntime) -> Result<(), Fail> {
    let bytewise = Setting { piece: 1, ..PLAIN };
    let late = Setting {
        piece: 20,
        input: 1,
        ..PLAIN
    };
    let unwritten = Setting { output: 1, ..PLAIN };
    let bad = Status::Malformed { offset: 2, why: 3 };
    let cases = [
        (FIRST, PLAIN, Status::Done, FIRST_REPLY),
        ("", PLAIN, Status::Done, ""),
        (NONE_FIRST, PLAIN, Status::Done, NONE_FIRST_REPLIES),
        (TWO, PLAIN, Status::Done, TWO_REPLIES),
        (TWO, bytewise, Status::Done, TWO_REPLIES),
        (STATUS, PLAIN, Status::Done, STATUS_REPLY),
        ("0103", PLAIN, Status::Cut { offset: 2 }, ""),
        (
            "01020000000000010000002000000005",
            PLAIN,
            Status::Cut { offset: 16 },
            "",
        ),
        ("010202ffff", PLAIN, bad, MALFORMED),
        (TWO, late, Status::ReadFault { count: 1 }, FIRST_REPLY),
        (TWO, unwritten, Status::WriteFault { count: 1 }, FIRST_REPLY),
    ];
    for (input, setting, status, written) in cases {
        check(&rt, input, &setting, status, written)?;
    }
    Ok(())
}

#[test]
fn the_longest_request_and_one_byte_more(rt: HostRuntime) -> Result<(), Fail> {
    let input = bytes_of(
        &rt,
        "0102000000000005000100000000000001020000000000050001000100000000",
    )?;
    let (status, written) = ran(&rt, &["seed", "s"], &input, &PLAIN)?;
    assert_eq!(rt; status, Status::Done);
    assert_eq!(rt; written.len(), 28 + 65_536 + 28);
    let (head, rest) = written.as_slice().split_at(28);
    let (payload, refusal) = rest.split_at(65_536);
    let head_wanted = bytes_of(
        &rt,
        "01000200000000050000000000000000000000000000000000010000",
    )?;
    let digest_wanted = bytes_of(
        &rt,
        "1bd37178e33d4a054d4ec1a3c7409264b48b0877d8fbe38b013ba343527f1ccb",
    )?;
    let refusal_wanted = bytes_of(
        &rt,
        "01020200000000050000000000010001000000000001000000000000",
    )?;
    assert_eq!(rt; head, head_wanted.as_slice());
    assert_eq!(rt;
        Sha256::digest(payload).as_slice(),
        digest_wanted.as_slice()
    );
    assert_eq!(rt; refusal, refusal_wanted.as_slice());
    Ok(())
}

#[test]
fn words_and_seeds_that_are_refused(rt: HostRuntime) -> Result<(), Fail> {
    let input = bytes_of(&rt, FIRST)?;
    let usages: [&[&str]; 7] = [
        &["check"],
        &["check", "c", "c"],
        &[],
        &["seed"],
        &["answer"],
        &["answer", "s", "s"],
        &["seed", "s", "s"],
    ];
    for words in usages {
        let (status, written) = ran(&rt, words, &input, &PLAIN)?;
        assert_eq!(rt; status, Status::Usage);
        assert_eq!(rt; written.len(), 0);
    }
    let short = Setting { seed: 47, ..PLAIN };
    let status = Status::SeedShort {
        node: 0,
        have: 47,
        need: 48,
    };
    check(&rt, FIRST, &short, status, "")?;
    let missing = ran(&rt, &["seed", "other"], &input, &PLAIN)?;
    assert_eq!(rt; missing.0, Status::OpenFault { count: 1 });
    assert_eq!(rt; missing.1.len(), 0);
    let failed = Setting { world: 0, ..PLAIN };
    check(&rt, FIRST, &failed, Status::OpenFault { count: 1 }, "")
}

#[test]
fn each_status_has_its_number_and_line(rt: HostRuntime) -> Result<(), Fail> {
    let short = Status::SeedShort {
        node: 0,
        have: 47,
        need: 48,
    };
    let cases = [
        (Status::Done, 0, ""),
        (
            Status::Usage,
            1,
            "usage: rbgtree seed FILE, answer CONFIG, check CONFIG, replay hmac FILE, replay ctr FILE, load CONFIG N SEED, load CONFIG N SEED WORKERS, serve CONFIG ADDR WORKERS CONNS\n",
        ),
        (
            Status::Malformed { offset: 2, why: 3 },
            3,
            "malformed frame at 2, why 3\n",
        ),
        (Status::Cut { offset: 16 }, 3, "input cut at 16\n"),
        (
            Status::Text { line: 16, why: 3 },
            3,
            "text fault at line 16, why 3\n",
        ),
        (Status::ReadFault { count: 1 }, 4, "read fault 1\n"),
        (Status::WriteFault { count: 2 }, 5, "write fault 2\n"),
        (Status::OpenFault { count: 3 }, 6, "open fault 3\n"),
        (Status::Memory, 7, "out of memory\n"),
        (Status::Differs { differed: 7 }, 8, "vectors differ: 7\n"),
        (
            Status::Quota { frames: 1_048_576 },
            9,
            "quota of 1048576 frames\n",
        ),
        (short, 10, "seed of node 0 has 47 of 48 bytes\n"),
        (
            Status::SourceRefused { source: 3 },
            11,
            "source 3 refused\n",
        ),
    ];
    for (status, number, line) in cases {
        let alloc = rt.alloc();
        let mut sink = MemSink::new(vec![in alloc; 0u8; 512]?, Vec::new(alloc));
        assert_eq!(rt; status.number(), number);
        assert_eq!(rt; status.line(&mut sink), Ok(()));
        assert_eq!(rt; sink.written(), line.as_bytes());
    }
    Ok(())
}

#[test]
fn each_fault_of_a_configuration_has_its_line(rt: HostRuntime) -> Result<(), Fail> {
    let limit = 65_536;
    let top = ConfigFault::BadField {
        place: Place::Top,
        field: Field::Version,
    };
    let source = ConfigFault::BadField {
        place: Place::Source(3),
        field: Field::Conditioner,
    };
    let node = ConfigFault::BadField {
        place: Place::Node(62),
        field: Field::Unknown,
    };
    let sources = ConfigFault::TooMany {
        nodes: false,
        count: 5,
        limit: 4,
    };
    let nodes = ConfigFault::TooMany {
        nodes: true,
        count: 64,
        limit: 63,
    };
    let rises = ConfigFault::StrengthRises {
        node: 1,
        own: 256,
        parent: 128,
    };
    for (fault, text) in [
        (ConfigFault::TooLarge { limit }, "too large"),
        (ConfigFault::BadToml, "not TOML"),
        (top, "bad field Version at top"),
        (source, "bad field Conditioner at source 3"),
        (node, "bad field Unknown at node 62"),
        (sources, "too many sources"),
        (nodes, "too many nodes"),
        (
            ConfigFault::NoSuchParent { node: 1, parent: 7 },
            "no such parent at node 1",
        ),
        (ConfigFault::Cycle { node: 2 }, "cycle at node 2"),
        (ConfigFault::TooDeep { node: 9 }, "too deep at node 9"),
        (rises, "strength rises at node 1"),
    ] {
        let alloc = rt.alloc();
        let mut sink = MemSink::new(vec![in alloc; 0u8; 512]?, Vec::new(alloc));
        let status = Status::Config(fault);
        let line = format!(in alloc; "configuration: {text}\n")?;
        assert_eq!(rt; status.number(), 2);
        assert_eq!(rt; status.line(&mut sink), Ok(()));
        assert_eq!(rt; sink.written(), line.as_bytes());
    }
    Ok(())
}
