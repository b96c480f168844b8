// Runs of `run` over input and output in memory. Frames and lines are written out by hand from the layouts of the protocol.
ghost use Rattle.std.specs.Prelude.{◌≤◌};

use crate::grammar::{Fault, Number, Word};
use crate::status::Status;
use crate::top::run;
use rbg_bytes::{MemSink, MemSource};
use std::process::Abort;
use std::test::Fail;

/// How many bytes one read of the input gives, which calls of the input and the output fail, and how much the output takes.
#[derive(Clone, Copy)]
struct Setting {
    piece: usize,
    input: u64,
    output: u64,
    room: usize,
}

/// No call with this number is made.
const NEVER: u64 = u64::MAX;

/// Whole pieces and no fault.
const PLAIN: Setting = Setting {
    piece: 65_536,
    input: NEVER,
    output: NEVER,
    room: 70_000,
};

// How the program ends with this word and input, and what it wrote.
fn ran(
    rt: &(impl Abort + AllocGlobal),
    word: &str,
    input: &[u8],
    setting: &Setting,
) -> Result<(Status, Vec<u8>), Fail> {
    let alloc = rt.alloc();
    let mut source = MemSource::new(
        input.to_vec(alloc)?,
        setting.piece.max(1),
        vec![in alloc; setting.input]?,
    );
    let mut sink = MemSink::new(
        vec![in alloc; 0u8; setting.room]?,
        vec![in alloc; setting.output]?,
    );
    let mut words = Vec::new(alloc);
    for part in word.split(' ') {
        words.push(String::from_str(alloc, part)?)?;
    }
    let status = run(alloc, &words, &mut source, &mut sink);
    Ok((status, sink.written().to_vec(alloc)?))
}

// The bytes of a hexadecimal text, in which a space parts frames.
fn bytes_of(rt: &(impl Abort + AllocGlobal), text: &str) -> Result<Vec<u8>, Fail> {
    let mut bytes = Vec::new(rt.alloc());
    for part in text.split(' ') {
        match hex::decode(rt.alloc(), part.as_bytes()) {
            Ok(more) => bytes.extend_from_slice(&more)?,
            Err(_) => panic!(rt; "not hexadecimal: {text}"),
        }
    }
    Ok(bytes)
}

// A run over these lines ends so, and has written these frames.
fn asks(
    rt: &(impl Abort + AllocGlobal),
    lines: &str,
    setting: &Setting,
    status: Status,
    frames: &str,
) -> Result<(), Fail> {
    let (ended, wrote) = ran(rt, "ask", lines.as_bytes(), setting)?;
    assert_eq!(rt; ended, status, "{lines}");
    assert_eq!(rt; wrote, bytes_of(rt, frames)?, "{lines}");
    Ok(())
}

// A run over these frames ends so, and has written this text.
fn tells(
    rt: &(impl Abort + AllocGlobal),
    word: &str,
    frames: &str,
    setting: &Setting,
    status: Status,
    text: &[u8],
) -> Result<(), Fail> {
    let (ended, wrote) = ran(rt, word, &bytes_of(rt, frames)?, setting)?;
    assert_eq!(rt; ended, status, "{frames}");
    assert_eq!(rt; wrote.as_slice(), text, "{frames}");
    Ok(())
}

// Each operation with all that it takes, in other orders, and what is passed over.
const LINES: &str =
    "# calls\r\ninstantiate 3 strength 256 string 0aFf\r\n\n \t\ngenerate 255 4294967295 string 00 pr strength 65535\n\treseed  0\tpr string AB\n  # no call\nuninstantiate 0\nstart 4\nstatus 007\ngenerate 0 0";

const FRAMES: &str =
    "01010003000000010000000001000002 0aff 010201ff00000002ffffffffffff0001 00 01030100000000030000000000000001 ab 01040000000000040000000000000000 01050004000000050000000000000000 01060007000000060000000000000000 01020000000000070000000000000000";

#[test]
fn lines_become_frames_however_they_are_cut(rt: HostRuntime) -> Result<(), Fail> {
    for piece in [1, 2, 7, 65_536] {
        asks(
            &rt,
            LINES,
            &Setting { piece, ..PLAIN },
            Status::Done,
            FRAMES,
        )?;
    }
    asks(&rt, "", &PLAIN, Status::Done, "")?;
    Ok(())
}

#[test]
fn the_first_faulty_line_ends_it(rt: HostRuntime) -> Result<(), Fail> {
    for (line, fault) in [
        ("Status 0", Fault::NoOperation),
        ("pr", Fault::NoOperation),
        ("status", Fault::NoNumber(Number::Node)),
        ("status 256", Fault::NoNumber(Number::Node)),
        ("status -1", Fault::NoNumber(Number::Node)),
        ("status +1", Fault::NoNumber(Number::Node)),
        ("start x", Fault::NoNumber(Number::Source)),
        ("generate 0", Fault::NoNumber(Number::Count)),
        ("generate 0 4294967296", Fault::NoNumber(Number::Count)),
        ("generate 0 pr", Fault::NoNumber(Number::Count)),
        ("instantiate 0 strength", Fault::NoNumber(Number::Strength)),
        (
            "instantiate 0 strength 65536",
            Fault::NoNumber(Number::Strength),
        ),
        ("reseed 0 string", Fault::NoHex),
        ("reseed 0 string abc", Fault::NoHex),
        ("reseed 0 string 0g", Fault::NoHex),
        ("status 0 0", Fault::NoOption),
        ("generate 0 1 PR", Fault::NoOption),
        ("instantiate 0 pr", Fault::NotTaken(Word::Pr)),
        ("reseed 0 strength 1", Fault::NotTaken(Word::StrengthWord)),
        ("start 0 string 00", Fault::NotTaken(Word::StringWord)),
        ("generate 0 1 pr pr", Fault::Twice(Word::Pr)),
        (
            "generate 0 1 strength 0 strength 1",
            Fault::Twice(Word::StrengthWord),
        ),
        (
            "generate 0 1 string 00 pr string x",
            Fault::Twice(Word::StringWord),
        ),
    ] {
        let text = format!(in rt.alloc(); "status 1\n\n{line}\nstatus 2\n")?;
        asks(
            &rt,
            &text,
            &PLAIN,
            Status::Line { number: 3, fault },
            "01060001000000010000000000000000",
        )?;
        // The same at the end of the input, without a line feed.
        asks(&rt, line, &PLAIN, Status::Line { number: 1, fault }, "")?;
    }
    Ok(())
}

// A line of a comment with so many bytes, and a call behind it.
fn commented(rt: &(impl Abort + AllocGlobal), len: usize) -> Result<Vec<u8>, Fail> {
    let mut text = vec![in rt.alloc(); b'#'; len]?;
    text.extend_from_slice(b"\nstatus 0\n")?;
    Ok(text)
}

#[test]
fn a_line_has_at_most_9000_bytes(rt: HostRuntime) -> Result<(), Fail> {
    let whole = bytes_of(&rt, "01060000000000010000000000000000")?;
    let long = Status::Line {
        number: 1,
        fault: Fault::LongLine,
    };
    assert_eq!(rt;
        ran(&rt, "ask", &commented(&rt, 9000)?, &PLAIN)?,
        (Status::Done, whole)
    );
    let (ended, wrote) = ran(&rt, "ask", &commented(&rt, 9001)?, &PLAIN)?;
    assert_eq!(rt; ended, long);
    assert!(rt; wrote.is_empty());
    Ok(())
}

// A Generate with a string of so many bytes 00.
fn with_string(rt: &(impl Abort + AllocGlobal), len: usize) -> Result<Vec<u8>, Fail>
    requires { len ≤ 5000 }
{
    let mut text = b"generate 0 0 string ".to_vec(rt.alloc())?;
    for _ in 0..2 * len {
        text.push(b'0')?;
    }
    Ok(text)
}

#[test]
fn a_string_has_at_most_4096_bytes(rt: HostRuntime) -> Result<(), Fail> {
    let (ended, wrote) = ran(&rt, "ask", &with_string(&rt, 4096)?, &PLAIN)?;
    assert_eq!(rt; ended, Status::Done);
    assert_eq!(rt; wrote.len(), 4112);
    assert_eq!(rt;
        &wrote[..16],
        bytes_of(&rt, "01020000000000010000000000001000")?.as_slice()
    );
    assert_eq!(rt; &wrote[16..], vec![in rt.alloc(); 0u8; 4096]?.as_slice());
    let (ended, wrote) = ran(&rt, "ask", &with_string(&rt, 4097)?, &PLAIN)?;
    assert_eq!(rt;
        ended,
        Status::Line {
            number: 1,
            fault: Fault::LongString
        }
    );
    assert!(rt; wrote.is_empty());
    Ok(())
}

#[test]
fn faults_of_the_outside_end_it_with_what_stood_before(rt: HostRuntime) -> Result<(), Fail> {
    let first = "01060001000000010000000000000000";
    let lines = "status 1\nstatus 2\n";
    asks(
        &rt,
        lines,
        &Setting {
            piece: 9,
            input: 1,
            ..PLAIN
        },
        Status::ReadFault { count: 1 },
        first,
    )?;
    asks(
        &rt,
        lines,
        &Setting { output: 1, ..PLAIN },
        Status::WriteFault { count: 1 },
        first,
    )?;
    asks(
        &rt,
        lines,
        &Setting { room: 20, ..PLAIN },
        Status::WriteFault { count: 1 },
        "01060001000000010000000000000000 01060002",
    )?;
    let replies =
        "01000500000000010000000000000000000000000000000000000000 01000500000000020000000000000000000000000000000000000000";
    tells(
        &rt,
        "show",
        replies,
        &Setting {
            piece: 28,
            input: 1,
            ..PLAIN
        },
        Status::ReadFault { count: 1 },
        b"1 start source 0 Done\n",
    )?;
    tells(
        &rt,
        "show",
        replies,
        &Setting { room: 25, ..PLAIN },
        Status::WriteFault { count: 1 },
        b"1 start source 0 Done\n2 s",
    )?;
    Ok(())
}

// A reply of each code to each kind of call, and what it means.
const REPLIES: [(&str, &[u8]); 20] = [
    (
        "010001030000000100000000000000000000000000000000 00000000",
        b"1 instantiate node 3 Done\n",
    ),
    (
        "0100020000000002000000000000000000000000000000000000000300ff1a",
        b"2 generate node 0 Done bytes 00ff1a\n",
    ),
    (
        "01000200000000020000000000000000000000000000000000000000",
        b"2 generate node 0 Done bytes\n",
    ),
    (
        "010006ff00000003000000000000000000000000000000000000001901000000000000000200000000000000030000000000010000",
        b"3 status node 255 Done live yes counter 2 seeds 3 gives 65536\n",
    ),
    (
        "0100060000000003000000000000000000000000000000000000001900ffffffffffffffff00000000000000000000000000000001",
        b"3 status node 0 Done live no counter 18446744073709551615 seeds 0 gives 1\n",
    ),
    (
        "01010509ffffffff0000000000000009000000000000000400000000",
        b"4294967295 start source 9 NoSuchNode asked 9 of 4\n",
    ),
    (
        "01020200000000050000000000010001000000000001000000000000",
        b"5 generate node 0 TooLong asked 65537 limit 65536\n",
    ),
    (
        "01030103000000060000000000000003000000000000000000000000",
        b"6 instantiate node 3 AlreadyInstantiated node 3\n",
    ),
    (
        "01040303000000070000000000000002000000000000000000000000",
        b"7 reseed node 3 NotInstantiated node 2\n",
    ),
    (
        "010502030000000800000000000000c0000000000000008000000000",
        b"8 generate node 3 StrengthTooHigh asked 192 kept 128\n",
    ),
    (
        "01060302000000090000000000000002000000000000000000000000",
        b"9 reseed node 2 ReseedRefused node 2\n",
    ),
    (
        "010702030000000a0000000000000002000000000000000000000000",
        b"10 generate node 3 PrUnsupported node 2\n",
    ),
    (
        "010803030000000b0000000000000002000000000000000300000000",
        b"11 reseed node 3 Exhausted node 2 counter 3\n",
    ),
    (
        "010a02030000000c1000000000000000000000000000002800000000",
        b"12 generate node 3 SourceSpent taken 1152921504606846976 need 40\n",
    ),
    (
        "010b02030000000d0000000000000000000000000000000000000000",
        b"13 generate node 3 SourceInError not started\n",
    ),
    (
        "010b02030000000e0000000000000001000000000000048100000000",
        b"14 generate node 3 SourceInError sample 1153 test repetition\n",
    ),
    (
        "010c02030000000f0000000000000001000000000000000200000000",
        b"15 generate node 3 SourceFault faults 1 source 2\n",
    ),
    (
        "010d0201000000070000000000000481000000000000000200000000",
        b"7 generate node 1 HealthFailed sample 1153 test proportion\n",
    ),
    (
        "010e0400000000100000000000000001000000000000000000000000",
        b"16 uninstantiate node 0 WantOfEntropy missing 1 source 0\n",
    ),
    (
        "01ff0000000000000000000000000002000000000000000300000000",
        b"Malformed offset 2 field flags\n",
    ),
];

#[test]
fn each_reply_is_shown_by_its_meaning(rt: HostRuntime) -> Result<(), Fail> {
    let mut all = Vec::new(rt.alloc());
    let mut shown = Vec::new(rt.alloc());
    for (frame, line) in REPLIES {
        all.extend_from_slice(&bytes_of(&rt, frame)?)?;
        shown.extend_from_slice(line)?;
    }
    for piece in [1, 16, 65_536] {
        let setting = Setting { piece, ..PLAIN };
        assert_eq!(rt;
            ran(&rt, "show", &all, &setting)?,
            (Status::Refused { refusals: 15 }, shown.to_vec(rt.alloc())?)
        );
        assert_eq!(rt;
            ran(&rt, "bytes", &all, &setting)?,
            (Status::Refused { refusals: 15 }, bytes_of(&rt, "00ff1a")?)
        );
    }
    Ok(())
}

#[test]
fn replies_end_where_they_stop_being_frames(rt: HostRuntime) -> Result<(), Fail> {
    let done = "01000500000000010000000000000000000000000000000000000000";
    let line = b"1 start source 0 Done\n".as_slice();
    tells(&rt, "show", done, &PLAIN, Status::Done, line)?;
    tells(&rt, "show", "", &PLAIN, Status::Done, b"")?;
    // A refusal before it doesn't change that the input is cut or malformed.
    for (rest, status) in [
        ("01", Status::Cut { offset: 29 }),
        (
            "010002000000000200000000000000000000000000000000000000 04000000",
            Status::Cut { offset: 59 },
        ),
        ("02", Status::Malformed { offset: 28, why: 1 }),
        ("0109", Status::Malformed { offset: 29, why: 8 }),
        ("010007", Status::Malformed { offset: 30, why: 2 }),
        ("01ff0001", Status::Malformed { offset: 31, why: 4 }),
        ("01ff000001", Status::Malformed { offset: 32, why: 5 }),
        (
            "010006000000000200000000000000000000000000000000000000 18",
            Status::Malformed { offset: 55, why: 6 },
        ),
        (
            "010002000000000201",
            Status::Malformed { offset: 36, why: 7 },
        ),
    ] {
        let text = format!(in rt.alloc(); "{done} {rest}")?;
        tells(&rt, "show", &text, &PLAIN, status, line)?;
        tells(&rt, "bytes", &text, &PLAIN, status, b"")?;
    }
    Ok(())
}

// A status as its line on standard error.
fn line_of(rt: &(impl Abort + AllocGlobal), status: Status) -> Result<Vec<u8>, Fail> {
    let alloc = rt.alloc();
    let mut sink = MemSink::new(vec![in alloc; 0u8; 512]?, Vec::new(alloc));
    assert!(rt; status.line(&mut sink).is_ok());
    Ok(sink.written().to_vec(alloc)?)
}

#[test]
fn words_and_lines_are_those_of_the_commands(rt: HostRuntime) -> Result<(), Fail> {
    for word in ["", "Ask", "ask ask", "help", "show "] {
        let (ended, wrote) = ran(&rt, word, b"status 0\n", &PLAIN)?;
        assert_eq!(rt; ended, Status::Usage);
        assert!(rt; wrote.is_empty());
    }
    let (ended, wrote) = ran(&rt, "--help", b"x", &PLAIN)?;
    assert_eq!(rt; ended, Status::Done);
    assert!(rt; wrote.starts_with(b"usage: rbg_talk ask "));
    for (status, number, line) in [
        (Status::Done, 0, ""),
        (
            Status::Usage,
            1,
            "usage: rbg_talk ask, show, bytes, --help\n",
        ),
        (
            Status::Line {
                number: 3,
                fault: Fault::NoNumber(Number::Count),
            },
            2,
            "line 3: COUNT must be a number from 0 to 4294967295\n",
        ),
        (
            Status::Line {
                number: 1,
                fault: Fault::NotTaken(Word::Pr),
            },
            2,
            "line 1: this operation takes no pr\n",
        ),
        (
            Status::Line {
                number: 2,
                fault: Fault::Twice(Word::StringWord),
            },
            2,
            "line 2: string stands twice\n",
        ),
        (
            Status::Malformed { offset: 27, why: 6 },
            3,
            "malformed reply at 27, why 6\n",
        ),
        (Status::Cut { offset: 2 }, 3, "input cut at 2\n"),
        (Status::ReadFault { count: 1 }, 4, "read fault 1\n"),
        (Status::WriteFault { count: 2 }, 5, "write fault 2\n"),
        (Status::Refused { refusals: 4 }, 6, "refusals 4\n"),
        (Status::Memory, 7, "out of memory\n"),
        (Status::Quota { bytes: 5 }, 9, "quota of 5 bytes\n"),
    ] {
        assert_eq!(rt; status.number(), number);
        assert_eq!(rt; line_of(&rt, status)?.as_slice(), line.as_bytes());
    }
    Ok(())
}
