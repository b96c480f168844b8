// Runs of `check` over configurations and recorded samples in memory: the lines that it prints, and how the program ends.
use crate::memory_world::MemWorld;
use crate::status::Status;
use crate::top::run;
use rbg_bytes::{MemSink, MemSource};
use sample_source::Faulty;
use std::process::Abort;
use std::test::Fail;
use tree_config::{ConfigFault, Field, Place};

pub(crate) const SOURCE: &str =
    "[[source]]\nsamples = \"ramp\"\nnum = 8\nden = 1\nrct = 4\napt = 257\n";

pub(crate) const ROOT: &str =
    "[[node]]\nkind = \"rbg2\"\ndrbg = \"hmac-sha-256\"\ninterval = 2\nsource = 0\n";

pub(crate) const CHILD: &str =
    "[[node]]\nkind = \"child\"\ndrbg = \"ctr-aes-256\"\ninterval = 1\nparent = 0\n";

const NODE_LINES: &str =
    "node 0 rbg2 hmac-sha-256 strength 256 interval 2 depth 1\nnode 1 child ctr-aes-256 strength 256 interval 1 depth 2\n";

/// No call with this number is made.
const NEVER: u64 = u64::MAX;

/// The samples of a source: how many there are, from which place on four of them are 9, and which read fails. The sample at any
/// other place is its number modulo 251.
#[derive(Clone, Copy)]
pub(crate) struct Ramp {
    pub(crate) len: u32,
    pub(crate) nines: u32,
    pub(crate) fail: u64,
}

pub(crate) const RAMP: Ramp = Ramp {
    len: 2000,
    nines: 5000,
    fail: NEVER,
};

/// Which call of the world and which write fail, and how many bytes can be written.
#[derive(Clone, Copy)]
struct Outside {
    world: u64,
    output: u64,
    room: usize,
}

const PLAIN: Outside = Outside {
    world: NEVER,
    output: NEVER,
    room: 1000,
};

// The samples of a ramp.
pub(crate) fn samples_of(rt: &(impl Abort + AllocGlobal), ramp: &Ramp) -> Result<Faulty, Fail> {
    let alloc = rt.alloc();
    let mut samples = Vec::new(alloc);
    for place in 0..ramp.len {
        let nine = ramp.nines <= place && place - ramp.nines < 4;
        samples.push(if nine { 9 } else { u8::try_from(place % 251)? })?;
    }
    Ok(Faulty::new(samples, 4096, vec![in alloc; ramp.fail]?))
}

// How `check c` ends, and what it wrote, where the file `c` holds these parts and the samples `ramp` are these, one after another.
fn checked(
    rt: &(impl Abort + AllocGlobal),
    parts: &[&str],
    ramps: &[Ramp],
    outside: &Outside,
) -> Result<(Status, Vec<u8>), Fail> {
    let alloc = rt.alloc();
    let mut text = Vec::new(alloc);
    for part in parts {
        text.extend_from_slice(part.as_bytes())?;
    }
    let mut samples = Vec::new(alloc);
    for ramp in ramps {
        samples.push((String::from_str(alloc, "ramp")?, samples_of(rt, ramp)?))?;
    }
    let files = vec![in alloc; (String::from_str(alloc, "c")?, text)]?;
    let mut world = MemWorld::new(files, samples, vec![in alloc; outside.world]?);
    // A read of the input would fail.
    let mut input = MemSource::new(Vec::new(alloc), 1, vec![in alloc; 0u64]?);
    let room = vec![in alloc; 0u8; outside.room]?;
    let mut output = MemSink::new(room, vec![in alloc; outside.output]?);
    let mut words = Vec::new(alloc);
    for word in ["check", "c"] {
        words.push(String::from_str(alloc, word)?)?;
    }
    let status = run(alloc, &words, &mut world, &mut input, &mut output);
    Ok((status, output.written().to_vec(alloc)?))
}

const ROOT_AND_CHILD: [&str; 4] = ["version = 1\nopening = \"none\"\n", SOURCE, ROOT, CHILD];

#[test]
fn each_source_is_started_once_and_printed(rt: HostRuntime) -> Result<(), Fail> {
    let alarmed = Ramp {
        nines: 1020,
        ..RAMP
    };
    let failed = Ramp { fail: 0, ..RAMP };
    let ended = Ramp { len: 1000, ..RAMP };
    let refused = Status::SourceRefused { source: 0 };
    for (ramp, status, end) in [
        (RAMP, Status::Done, "taken 1024 code 0 a 0 b 0\n"),
        (alarmed, refused, "taken 1024 code 13 a 1023 b 1\n"),
        (failed, refused, "taken 0 code 12 a 1 b 0\n"),
        (ended, refused, "taken 1000 code 14 a 24 b 0\n"),
    ] {
        let (ended, written) = checked(&rt, &ROOT_AND_CHILD, &[ramp], &PLAIN)?;
        let line = format!(in rt.alloc();
            "source 0 rct 4 window 512 apt 257 startup 1024 block 40 {end}{NODE_LINES}"
        )?;
        assert_eq!(rt; ended, status);
        assert_eq!(rt; written.as_slice(), line.as_bytes());
    }
    Ok(())
}

#[test]
fn the_least_source_that_was_refused_is_named(rt: HostRuntime) -> Result<(), Fail> {
    let two = ["version = 1\n", SOURCE, SOURCE, ROOT];
    let ended = Ramp { len: 1000, ..RAMP };
    for (first, second, status) in [
        (RAMP, RAMP, Status::Done),
        (RAMP, ended, Status::SourceRefused { source: 1 }),
        (ended, ended, Status::SourceRefused { source: 0 }),
    ] {
        let (ended, written) = checked(&rt, &two, &[first, second], &PLAIN)?;
        assert_eq!(rt; ended, status);
        let lines = written.iter().filter(|byte| **byte == b'\n').count();
        assert_eq!(rt; lines, 3);
    }
    Ok(())
}

#[test]
fn writes_that_fail_end_the_lines(rt: HostRuntime) -> Result<(), Fail> {
    let ended = Ramp { len: 1000, ..RAMP };
    for (outside, len) in [
        (Outside { output: 0, ..PLAIN }, 0),
        (Outside { output: 1, ..PLAIN }, 82),
        (Outside { output: 2, ..PLAIN }, 139),
        (Outside { room: 100, ..PLAIN }, 100),
    ] {
        for ramp in [RAMP, ended] {
            let (status, written) = checked(&rt, &ROOT_AND_CHILD, &[ramp], &outside)?;
            assert_eq!(rt; status, Status::WriteFault { count: 1 });
            let extra = if ramp.len == 1000 && len > 0 && outside.room > 100 {
                2
            } else {
                0
            };
            assert_eq!(rt; written.len(), len + extra);
        }
    }
    Ok(())
}

#[test]
fn what_cannot_be_read_or_opened(rt: HostRuntime) -> Result<(), Fail> {
    let fault = Status::OpenFault { count: 1 };
    for world in [0, 1, 2] {
        let outside = Outside { world, ..PLAIN };
        let (status, written) = checked(&rt, &ROOT_AND_CHILD, &[RAMP], &outside)?;
        assert_eq!(rt; status, fault);
        assert_eq!(rt; written.len(), 0);
    }
    let two = ["version = 1\n", SOURCE, SOURCE, ROOT];
    assert_eq!(rt; checked(&rt, &two, &[RAMP], &PLAIN)?.0, fault);
    Ok(())
}

#[test]
fn configurations_with_faults(rt: HostRuntime) -> Result<(), Fail> {
    let zero = "[[node]]\nkind = \"child\"\ndrbg = \"ctr-aes-256\"\ninterval = 0\nparent = 0\n";
    let seven = "[[node]]\nkind = \"child\"\ndrbg = \"ctr-aes-256\"\ninterval = 1\nparent = 7\n";
    let [head, source, root, _] = ROOT_AND_CHILD;
    let interval = ConfigFault::BadField {
        place: Place::Node(1),
        field: Field::Interval,
    };
    let parent = ConfigFault::NoSuchParent { node: 1, parent: 7 };
    for (child, fault) in [(zero, interval), (seven, parent)] {
        let (status, written) = checked(&rt, &[head, source, root, child], &[RAMP], &PLAIN)?;
        assert_eq!(rt; status, Status::Config(fault));
        assert_eq!(rt; written.len(), 0);
    }
    Ok(())
}
