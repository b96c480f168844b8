// Runs of `load` over configurations and recorded samples in memory: the lines that it prints, and how the program ends.
use crate::check_tests::{CHILD, RAMP, ROOT, Ramp, SOURCE, samples_of};
use crate::load::{Load, load_of};
use crate::memory_world::MemWorld;
use crate::status::Status;
use crate::top::run;
use rbg_bytes::{MemSink, MemSource};
use std::process::Abort;
use std::test::Fail;
use tree_config::ConfigFault;

const ALL: &str = "version = 1\nopening = \"all\"\n";

const NONE: &str = "version = 1\nopening = \"none\"\n";

// Two nodes on a source each, and a child of each.
const PAIRS: &str =
    "[[node]]\nkind = \"rbg2\"\ndrbg = \"hmac-sha-256\"\ninterval = 50\nsource = 0\n[[node]]\nkind = \"rbg2\"\ndrbg = \"hmac-sha-256\"\ninterval = 50\nsource = 1\n[[node]]\nkind = \"child\"\ndrbg = \"hmac-sha-256\"\ninterval = 100\nparent = 0\n[[node]]\nkind = \"child\"\ndrbg = \"hmac-sha-256\"\ninterval = 100\nparent = 1\n";

// An RBG1 that is soon exhausted, a child of it, and a node on a source.
const ENDING: &str =
    "[[node]]\nkind = \"rbg1\"\ndrbg = \"hmac-sha-256\"\ninterval = 3\nseed = \"s\"\n[[node]]\nkind = \"child\"\ndrbg = \"ctr-aes-128\"\ninterval = 2\nparent = 0\n[[node]]\nkind = \"rbg2\"\ndrbg = \"hmac-sha-256\"\ninterval = 4\nsource = 0\n";

// What an independent implementation computes of loads on these.
const PAIRS_OPENED: &str =
    "calls 0\ndone 0 refused 0\nnode 0 live 1 counter 2 seeds 1 gives 1\nnode 1 live 1 counter 2 seeds 1 gives 1\nnode 2 live 1 counter 1 seeds 1 gives 0\nnode 3 live 1 counter 1 seeds 1 gives 0\nsource 0 taken 1104 blocks 2\nsource 1 taken 1104 blocks 2\n";

const PAIRS_LOADED: &str =
    "calls 20000\ndone 20000 refused 0\nnode 0 live 1 counter 47 seeds 102 gives 5096\nnode 1 live 1 counter 29 seeds 100 gives 4978\nnode 2 live 1 counter 31 seeds 51 gives 5030\nnode 3 live 1 counter 98 seeds 50 gives 4997\nsource 0 taken 5144 blocks 103\nsource 1 taken 5064 blocks 101\n";

const CLOSED_LOADED: &str =
    "calls 10\ndone 0 refused 10\nnode 0 live 0 counter 0 seeds 0 gives 0\nnode 1 live 0 counter 0 seeds 0 gives 0\nsource 0 taken 0 blocks 0\n";

const ENDING_LOADED: &str =
    "calls 40\ndone 19 refused 21\nnode 0 live 1 counter 4 seeds 1 gives 3\nnode 1 live 1 counter 3 seeds 2 gives 4\nnode 2 live 1 counter 3 seeds 4 gives 14\nsource 0 taken 1224 blocks 5\n";

/// No call with this number is made.
const NEVER: u64 = u64::MAX;

/// Which call of the world and which write fail, and how many bytes the seed file `s` has, which are 00, 01 and so on.
#[derive(Clone, Copy)]
struct Outside {
    world: u64,
    output: u64,
    seed: u8,
}

const PLAIN: Outside = Outside {
    world: NEVER,
    output: NEVER,
    seed: 48,
};

// How the program ends with these words, and what it wrote, where the file `c` holds these parts. There are samples `ramp` twice.
fn loaded(
    rt: &(impl Abort + AllocGlobal),
    parts: &[&str],
    words: &str,
    outside: &Outside,
) -> Result<(Status, Vec<u8>), Fail> {
    let alloc = rt.alloc();
    let mut text = Vec::new(alloc);
    for part in parts {
        text.extend_from_slice(part.as_bytes())?;
    }
    let mut seed = Vec::new(alloc);
    for byte in 0..outside.seed {
        seed.push(byte)?;
    }
    let mut files = Vec::new(alloc);
    files.push((String::from_str(alloc, "c")?, text))?;
    files.push((String::from_str(alloc, "s")?, seed))?;
    let ramp = Ramp {
        len: 6000,
        nines: 6000,
        ..RAMP
    };
    let mut samples = Vec::new(alloc);
    for _ in 0..2 {
        samples.push((String::from_str(alloc, "ramp")?, samples_of(rt, &ramp)?))?;
    }
    let mut world = MemWorld::new(files, samples, vec![in alloc; outside.world]?);
    // A read of the input would fail.
    let mut input = MemSource::new(Vec::new(alloc), 1, vec![in alloc; 0u64]?);
    let room = vec![in alloc; 0u8; 1000]?;
    let mut output = MemSink::new(room, vec![in alloc; outside.output]?);
    let mut owned = Vec::new(alloc);
    for word in words.split(' ') {
        owned.push(String::from_str(alloc, word)?)?;
    }
    let status = run(alloc, &owned, &mut world, &mut input, &mut output);
    Ok((status, output.written().to_vec(alloc)?))
}

// A load ends so, and has printed this.
fn check(
    rt: &(impl Abort + AllocGlobal),
    parts: &[&str],
    words: &str,
    outside: &Outside,
    status: Status,
    printed: &str,
) -> Result<(), Fail> {
    let (ended, written) = loaded(rt, parts, words, outside)?;
    assert_eq!(rt; ended, status);
    assert_eq!(rt; written.as_slice(), printed.as_bytes());
    Ok(())
}

#[test]
fn loads_print_the_counts_of_another_implementation(rt: HostRuntime) -> Result<(), Fail> {
    let pairs = [ALL, SOURCE, SOURCE, PAIRS];
    let closed = [NONE, SOURCE, ROOT, CHILD];
    let ending = [ALL, SOURCE, ENDING];
    let done = Status::Done;
    check(&rt, &pairs, "load c 0 1", &PLAIN, done, PAIRS_OPENED)?;
    check(&rt, &pairs, "load c 20000 1", &PLAIN, done, PAIRS_LOADED)?;
    check(&rt, &closed, "load c 10 1", &PLAIN, done, CLOSED_LOADED)?;
    check(&rt, &ending, "load c 40 3", &PLAIN, done, ENDING_LOADED)
}

#[test]
fn a_load_that_cannot_begin_prints_nothing(rt: HostRuntime) -> Result<(), Fail> {
    let parts = [ALL, SOURCE, ENDING];
    let words = "load c 40 3";
    let fault = Status::OpenFault { count: 1 };
    // Two reads of the configuration, one of the seed file, and the samples.
    for world in [0, 1, 2, 3] {
        check(&rt, &parts, words, &Outside { world, ..PLAIN }, fault, "")?;
    }
    let late = Outside { world: 4, ..PLAIN };
    check(&rt, &parts, words, &late, Status::Done, ENDING_LOADED)?;
    let short = Status::SeedShort {
        node: 0,
        have: 47,
        need: 48,
    };
    check(
        &rt,
        &parts,
        words,
        &Outside { seed: 47, ..PLAIN },
        short,
        "",
    )?;
    let three = [ALL, SOURCE, SOURCE, SOURCE, PAIRS];
    check(&rt, &three, words, &PLAIN, fault, "")?;
    let none = Status::Config(ConfigFault::BadToml);
    check(&rt, &["version = "], words, &PLAIN, none, "")?;
    check(&rt, &parts, "load d 40 3", &PLAIN, fault, "")
}

#[test]
fn a_write_that_fails_ends_the_counts(rt: HostRuntime) -> Result<(), Fail> {
    let parts = [ALL, SOURCE, ENDING];
    let fault = Status::WriteFault { count: 1 };
    for (output, len) in [(0, 0), (1, 28), (2, 68), (3, 108), (4, 149)] {
        let (front, _) = ENDING_LOADED.split_at(len);
        check(
            &rt,
            &parts,
            "load c 40 3",
            &Outside { output, ..PLAIN },
            fault,
            front,
        )?;
    }
    let late = Outside { output: 5, ..PLAIN };
    check(
        &rt,
        &parts,
        "load c 40 3",
        &late,
        Status::Done,
        ENDING_LOADED,
    )
}

#[test]
fn numbers_of_a_load_are_plain_and_in_range(rt: HostRuntime) -> Result<(), Fail> {
    let parts = [ALL, SOURCE, ENDING];
    let refused =
        "load|load c|load c 1|load c 1 1 1|load c 01 1|load c 1 00|load c +1 1|load c 1 -1|load c  1|load c 1 |load c 10000001 1|load c 1 18446744073709551616|load c 0x1 1|load c 1 1a|Load c 1 1|loads c 1 1|load c 1. 1";
    for words in refused.split('|') {
        check(&rt, &parts, words, &PLAIN, Status::Usage, "")?;
    }
    let most = Load {
        count: 10_000_000,
        seed: u64::MAX,
    };
    assert_eq!(rt; load_of("10000000", "18446744073709551615"), Some(most));
    assert_eq!(rt; load_of("0", "0"), Some(Load { count: 0, seed: 0 }));
    Ok(())
}
