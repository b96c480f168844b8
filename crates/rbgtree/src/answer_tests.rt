// Runs of `answer` over configurations, seed files and recorded samples in memory: what the frames are answered, and how the program ends.
use crate::check_tests::{CHILD, RAMP, ROOT, Ramp, SOURCE, samples_of};
use crate::memory_world::MemWorld;
use crate::status::Status;
use crate::top::run;
use rbg_bytes::{MemSink, MemSource};
use std::process::Abort;
use std::test::Fail;
use tree_config::ConfigFault;

const ALL: &str = "version = 1\nopening = \"all\"\n";

const NONE: &str = "version = 1\nopening = \"none\"\n";

// An RBG3(XOR) and an RBG3(RS) on source 0, an RBG1, and a child of it.
const MIXED_NODES: &str =
    "[[node]]\nkind = \"rbg3-xor\"\ndrbg = \"hmac-sha-256\"\ninterval = 1000\nsource = 0\n[[node]]\nkind = \"rbg3-rs\"\ndrbg = \"hmac-sha-256\"\ninterval = 1000\nsource = 0\n[[node]]\nkind = \"rbg1\"\ndrbg = \"hmac-sha-256\"\ninterval = 2\nseed = \"s\"\n[[node]]\nkind = \"child\"\ndrbg = \"ctr-aes-128\"\ninterval = 10\nparent = 2\n";

const RBG1: &str =
    "[[node]]\nkind = \"rbg1\"\ndrbg = \"hmac-sha-256\"\ninterval = 1\nseed = \"s\"\n";

const WEAK_RBG1: &str =
    "[[node]]\nkind = \"rbg1\"\ndrbg = \"ctr-aes-128\"\ninterval = 1\nseed = \"t\"\n";

// An opening by hand, seven calls, an alarm at sample 1153, and a start after it.
const ALARM: &[&str] = &[
    "01050000000000010000000000000000",
    "01010000000000020000000000000000",
    "01010001000000030000000000000000",
    "01020001000000040000002000000000",
    "01020001000000050000002000000000",
    "01020001000000060000002000000000",
    "01060000000000070000000000000000",
    "01060001000000080000000000000000",
    "01020101000000070000002000000000",
    "01060000000000090000000000000000",
    "010600010000000a0000000000000000",
    "010200010000000b0000002000000000",
    "01020101000000070000002000000000",
    "010500000000000c0000000000000000",
    "01020101000000070000002000000000",
    "010600000000000d0000000000000000",
    "010600010000000e0000000000000000",
];

// Their replies, computed by an independent implementation.
const ALARM_REPLIES: &[&str] = &[
    "01000500000000010000000000000000000000000000000000000000",
    "01000100000000020000000000000000000000000000000000000000",
    "01000101000000030000000000000000000000000000000000000000",
    "01000201000000040000000000000000000000000000000000000020fd5a91a10f7a9a53efa8796b59e483449e2d4cb101fd06b240b1c6dfac9743f9",
    "01000201000000050000000000000000000000000000000000000020fcdfd76d1470892439a9c61214493fd2112c9372c37cc1ed35a39d207e24cfca",
    "010002010000000600000000000000000000000000000000000000206734ded4505784a2ff810debed5055d17e263f05ba6fb713aa2c625e0b04583a",
    "0100060000000007000000000000000000000000000000000000001901000000000000000200000000000000020000000000000003",
    "0100060100000008000000000000000000000000000000000000001901000000000000000200000000000000030000000000000003",
    "010d0201000000070000000000000481000000000000000100000000",
    "0100060000000009000000000000000000000000000000000000001901000000000000000200000000000000020000000000000003",
    "010006010000000a000000000000000000000000000000000000001901000000000000000200000000000000030000000000000003",
    "010002010000000b0000000000000000000000000000000000000020c5e2dea6403ebf72687b382a006edeb8fefff4ddbc476db57f55d6f2da8160f5",
    "010b0201000000070000000000000001000000000000048100000000",
    "010005000000000c0000000000000000000000000000000000000000",
    "0100020100000007000000000000000000000000000000000000002020633ef860c185078ca908b48a0b4ff712edee5f6b5d80aef3514008e9665eb6",
    "010006000000000d000000000000000000000000000000000000001901000000000000000200000000000000030000000000000005",
    "010006010000000e000000000000000000000000000000000000001901000000000000000200000000000000050000000000000005",
];

// Generates, a node that is exhausted, and refusals of each kind.
const MIXED: &[&str] = &[
    "01020000000000010000002800000000",
    "01020001000000020000002800000000",
    "01020000000000030000100100000000",
    "01020002000000040000002000000000",
    "01020002000000050000002000000000",
    "01030002000000060000000000000000",
    "01020103000000070000001000c00000",
    "01020103000000080000001000000000",
    "01030003000000090000000000000000",
    "010100030000000a0000000000000000",
    "010200090000000b0000001000000000",
    "010600020000000c0000000000000000",
    "010400020000000d0000000000000000",
    "010600020000000e0000000000000000",
    "010100020000000f0000000000000000",
    "01020003000000100000001000000000",
    "01030003000000110000000000000000",
];

// Their replies, computed so too.
const MIXED_REPLIES: &[&str] = &[
    "0100020000000001000000000000000000000000000000000000002804067e877dd5dce35a417b511365baa997b76d70f1a2c4e3b1bbb572d023c7d4af47f7e807699bb3",
    "0100020100000002000000000000000000000000000000000000002838d3e73dd9342a93952ce3ead2d2f5a65a65043cf9bc0abac84ee6c70350c2c048351f9e47937642",
    "01020200000000030000000000001001000000000000100000000000",
    "0100020200000004000000000000000000000000000000000000002008767656d3e9669eb668d1e1f5b80d27bb1aee12ff719eeb83e3dce006718c16",
    "01080202000000050000000000000002000000000000000300000000",
    "01060302000000060000000000000002000000000000000000000000",
    "010502030000000700000000000000c0000000000000008000000000",
    "01070203000000080000000000000002000000000000000000000000",
    "01080303000000090000000000000002000000000000000300000000",
    "010301030000000a0000000000000003000000000000000000000000",
    "010102090000000b0000000000000009000000000000000400000000",
    "010006020000000c000000000000000000000000000000000000001901000000000000000300000000000000010000000000000002",
    "010004020000000d0000000000000000000000000000000000000000",
    "010006020000000e000000000000000000000000000000000000001900000000000000000000000000000000010000000000000002",
    "010601020000000f0000000000000002000000000000000000000000",
    "010002030000001000000000000000000000000000000000000000109228419119099a3cb89b850f4b8f8250",
    "01040303000000110000000000000002000000000000000000000000",
];

/// What a run is over: the parts of the configuration, how many bytes the seed files `s` and `t` have, which are 00, 01 and so on
/// (0: there is no such file), and the samples `ramp`.
#[derive(Clone, Copy)]
struct Setting<'a> {
    parts: &'a [&'a str],
    seeds: [u8; 2],
    ramps: &'a [Ramp],
}

// The files of a setting.
fn files_of(
    rt: &(impl Abort + AllocGlobal),
    setting: &Setting<'_>,
) -> Result<Vec<(String, Vec<u8>)>, Fail> {
    let alloc = rt.alloc();
    let mut text = Vec::new(alloc);
    for part in setting.parts {
        text.extend_from_slice(part.as_bytes())?;
    }
    let mut files = Vec::new(alloc);
    files.push((String::from_str(alloc, "c")?, text))?;
    for (name, len) in [("s", setting.seeds[0]), ("t", setting.seeds[1])] {
        if len > 0 {
            let mut seed = Vec::new(alloc);
            for byte in 0..len {
                seed.push(byte)?;
            }
            files.push((String::from_str(alloc, name)?, seed))?;
        }
    }
    Ok(files)
}

// A run of `answer c` over these frames ends so, and has written this. Frames and replies are hexadecimal.
fn check(
    rt: &(impl Abort + AllocGlobal),
    setting: &Setting<'_>,
    frames: &[&str],
    status: Status,
    replies: &[&str],
) -> Result<(), Fail> {
    let alloc = rt.alloc();
    let mut samples = Vec::new(alloc);
    for ramp in setting.ramps {
        samples.push((String::from_str(alloc, "ramp")?, samples_of(rt, ramp)?))?;
    }
    let mut world = MemWorld::new(files_of(rt, setting)?, samples, Vec::new(alloc));
    let mut input = MemSource::new(joined(rt, frames)?, 4096, Vec::new(alloc));
    let mut output = MemSink::new(vec![in alloc; 0u8; 2000]?, Vec::new(alloc));
    let mut words = Vec::new(alloc);
    for word in ["answer", "c"] {
        words.push(String::from_str(alloc, word)?)?;
    }
    let ended = run(alloc, &words, &mut world, &mut input, &mut output);
    assert_eq!(rt; ended, status);
    assert_eq!(rt; output.written(), joined(rt, replies)?.as_slice());
    Ok(())
}

// The bytes of hexadecimal texts, one behind the other.
fn joined(rt: &(impl Abort + AllocGlobal), texts: &[&str]) -> Result<Vec<u8>, Fail> {
    let mut bytes = Vec::new(rt.alloc());
    for text in texts {
        match hex::decode(rt.alloc(), text.as_bytes()) {
            Ok(more) => bytes.extend_from_slice(&more)?,
            Err(_) => panic!(rt; "not hexadecimal: {text}"),
        }
    }
    Ok(bytes)
}

#[test]
fn trees_answer_each_operation(rt: HostRuntime) -> Result<(), Fail> {
    let alarmed = Ramp {
        len: 4000,
        nines: 1150,
        ..RAMP
    };
    let by_hand = Setting {
        parts: &[NONE, SOURCE, ROOT, CHILD],
        seeds: [0, 0],
        ramps: &[alarmed],
    };
    check(&rt, &by_hand, ALARM, Status::Done, ALARM_REPLIES)?;
    let mixed = Setting {
        parts: &[ALL, SOURCE, MIXED_NODES],
        seeds: [48, 0],
        ramps: &[RAMP],
    };
    check(&rt, &mixed, MIXED, Status::Done, MIXED_REPLIES)
}

#[test]
fn seeds_and_samples_are_looked_at_in_order(rt: HostRuntime) -> Result<(), Fail> {
    let parts = [ALL, SOURCE, ROOT, WEAK_RBG1, RBG1];
    let fault = Status::OpenFault { count: 1 };
    let weak = Status::SeedShort {
        node: 1,
        have: 23,
        need: 24,
    };
    let strong = Status::SeedShort {
        node: 2,
        have: 47,
        need: 48,
    };
    for (seeds, ramps, status) in [
        // All seed files are read first, then the least short one is told, and samples are opened last.
        ([0, 23], 0, fault),
        ([47, 23], 0, weak),
        ([47, 24], 0, strong),
        ([48, 24], 0, fault),
        ([48, 24], 1, Status::Done),
    ] {
        let some = [RAMP];
        let (ramps, _) = some.split_at(ramps);
        let setting = Setting {
            parts: &parts,
            seeds,
            ramps,
        };
        check(&rt, &setting, &[], status, &[])?;
    }
    let none = Setting {
        parts: &["version = "],
        seeds: [0, 0],
        ramps: &[],
    };
    check(&rt, &none, &[], Status::Config(ConfigFault::BadToml), &[])
}
