// Texts that are replayed, how that ends and what is written. The bytes were computed by an independent implementation.
use crate::{ReplayRefusal, replay};
use rbg_bytes::{MemSink, MemSource};
use std::process::Abort;
use std::test::Fail;
use vector_text::{Family, TextRefusal};

// Replays a text that is read in pieces of so many bytes, where the reads and writes with these numbers fail. Says how that
// ends in words, `done PASSED DIFFERED SKIPPED`, `fault LINE WHY`, `read fault COUNT`, `write fault COUNT` or `memory`, and behind
// a `>` what was written.
fn said(
    rt: &(impl Abort + AllocGlobal),
    family: &str,
    text: &str,
    piece: usize,
    reads: &[u64],
    writes: &[u64],
) -> Result<String, Fail> {
    let alloc = rt.alloc();
    let family = if family == "Hmac" {
        Family::Hmac
    } else {
        Family::Ctr
    };
    let bytes = text.as_bytes().to_vec(alloc)?;
    let mut source = MemSource::new(bytes, piece.max(1), reads.to_vec(alloc)?);
    let mut sink = MemSink::new(vec![in alloc; 0u8; 4_096]?, writes.to_vec(alloc)?);
    let end = match replay(alloc, family, &mut source, &mut sink) {
        Ok(totals) => format!(in alloc;
            "done {} {} {}",
            totals.passed, totals.differed, totals.skipped
        )?,
        Err(ReplayRefusal::Text(TextRefusal::Fault { line, why })) => {
            format!(in alloc; "fault {line} {why}")?
        }
        Err(ReplayRefusal::Text(TextRefusal::ReadFault { count })) => {
            format!(in alloc; "read fault {count}")?
        }
        Err(ReplayRefusal::WriteFault { count }) => format!(in alloc; "write fault {count}")?,
        Err(ReplayRefusal::OutOfMemory) => String::from_str(alloc, "memory")?,
    };
    let mut said = end;
    said.push_str(">")?;
    said.push_str(std::str::from_utf8(sink.written()).ok().expect(rt, "text"))?;
    Ok(said)
}

// Families, how replaying a text ends, the text and what is written.
const TEXTS: &str =
    "Hmac>done 1 0 1># a comment\r\n[SHA-1]\r\n[PredictionResistance = False]\r\nCOUNT = 0\r\nEntropyInput = 00\r\nReturnedBits = 00\r\n[SHA-256]\r\n[PredictionResistance = False]\r\n[ReturnedBitsLen = 256]\r\nCOUNT = 0\r\nEntropyInput = 000102030405060708090a0b0c0d0e0f101112131415161718191a1b1c1d1e1f\r\nNonce = 202122232425262728292a2b2c2d2e2f\r\nPersonalizationString =\r\nAdditionalInput =\r\nAdditionalInput =\r\nReturnedBits = 08767656d3e9669eb668d1e1f5b80d27bb1aee12ff719eeb83e3dce006718c16\r\n>passed 1 differed 0 skipped 1\n|Hmac>done 0 1 1># a comment\r\n[SHA-1]\r\n[PredictionResistance = False]\r\nCOUNT = 0\r\nEntropyInput = 00\r\nReturnedBits = 00\r\n[SHA-256]\r\n[PredictionResistance = False]\r\n[ReturnedBitsLen = 256]\r\nCOUNT = 0\r\nEntropyInput = 000102030405060708090a0b0c0d0e0f101112131415161718191a1b1c1d1e1f\r\nNonce = 202122232425262728292a2b2c2d2e2f\r\nPersonalizationString =\r\nAdditionalInput =\r\nAdditionalInput =\r\nReturnedBits = 18767656d3e9669eb668d1e1f5b80d27bb1aee12ff719eeb83e3dce006718c16\r\n>differs line 10 count 0\nwant 18767656d3e9669eb668d1e1f5b80d27bb1aee12ff719eeb83e3dce006718c16\ngot 08767656d3e9669eb668d1e1f5b80d27bb1aee12ff719eeb83e3dce006718c16\npassed 0 differed 1 skipped 1\n|Hmac>fault 16 3># a comment\r\n[SHA-1]\r\n[PredictionResistance = False]\r\nCOUNT = 0\r\nEntropyInput = 00\r\nReturnedBits = 00\r\n[SHA-256]\r\n[PredictionResistance = False]\r\n[ReturnedBitsLen = 256]\r\nCOUNT = 0\r\nEntropyInput = 000102030405060708090a0b0c0d0e0f101112131415161718191a1b1c1d1e1f\r\nNonce = 202122232425262728292a2b2c2d2e2f\r\nPersonalizationString =\r\nAdditionalInput =\r\nAdditionalInput =\r\nReturnedBits = g8767656d3e9669eb668d1e1f5b80d27bb1aee12ff719eeb83e3dce006718c16\r\n>|Hmac>done 0 0 0>>passed 0 differed 0 skipped 0\n|Hmac>fault 2 5>[SHA-256]\nCOUNT = 0\nEntropyInput = 00\n>|Hmac>fault 1 6>COUNT = 0\n>|Ctr>fault 2 7>[AES-128 no df]\nCOUNT = 0\nEntropyInput = 00000000000000000000000000000000000000000000000000000000000000\nReturnedBits = 00\n>|Ctr>done 0 0 2># a comment\r\n[SHA-1]\r\n[PredictionResistance = False]\r\nCOUNT = 0\r\nEntropyInput = 00\r\nReturnedBits = 00\r\n[SHA-256]\r\n[PredictionResistance = False]\r\n[ReturnedBitsLen = 256]\r\nCOUNT = 0\r\nEntropyInput = 000102030405060708090a0b0c0d0e0f101112131415161718191a1b1c1d1e1f\r\nNonce = 202122232425262728292a2b2c2d2e2f\r\nPersonalizationString =\r\nAdditionalInput =\r\nAdditionalInput =\r\nReturnedBits = 08767656d3e9669eb668d1e1f5b80d27bb1aee12ff719eeb83e3dce006718c16\r\n>passed 0 differed 0 skipped 2\n|Hmac>done 1 2 1>[SHA-256]\nCOUNT = 3\nEntropyInput = 000102030405060708090a0b0c0d0e0f101112131415161718191a1b1c1d1e1f\nNonce = 202122232425262728292a2b2c2d2e2f\nReturnedBits = 18767656d3e9669eb668d1e1f5b80d27bb1aee12ff719eeb83e3dce006718c16\nCOUNT = 4\nEntropyInput = 000102030405060708090a0b0c0d0e0f101112131415161718191a1b1c1d1e1f\nNonce = 202122232425262728292a2b2c2d2e2f\nReturnedBits = 08767656d3e9669eb668d1e1f5b80d27bb1aee12ff719eeb83e3dce006718c16\nCOUNT = 18446744073709551615\nEntropyInput = 000102030405060708090a0b0c0d0e0f101112131415161718191a1b1c1d1e1f\nNonce = 202122232425262728292a2b2c2d2e2f\nReturnedBits = 18767656d3e9669eb668d1e1f5b80d27bb1aee12ff719eeb83e3dce006718c16\n[SHA-1]\nCOUNT = 1\n>differs line 2 count 3\nwant 18767656d3e9669eb668d1e1f5b80d27bb1aee12ff719eeb83e3dce006718c16\ngot 08767656d3e9669eb668d1e1f5b80d27bb1aee12ff719eeb83e3dce006718c16\ndiffers line 10 count 18446744073709551615\nwant 18767656d3e9669eb668d1e1f5b80d27bb1aee12ff719eeb83e3dce006718c16\ngot 08767656d3e9669eb668d1e1f5b80d27bb1aee12ff719eeb83e3dce006718c16\npassed 1 differed 2 skipped 1\n|Hmac>fault 11 2>[SHA-256]\nCOUNT = 3\nEntropyInput = 000102030405060708090a0b0c0d0e0f101112131415161718191a1b1c1d1e1f\nNonce = 202122232425262728292a2b2c2d2e2f\nReturnedBits = 18767656d3e9669eb668d1e1f5b80d27bb1aee12ff719eeb83e3dce006718c16\nCOUNT = 4\nEntropyInput = 000102030405060708090a0b0c0d0e0f101112131415161718191a1b1c1d1e1f\nNonce = 202122232425262728292a2b2c2d2e2f\nReturnedBits = 08767656d3e9669eb668d1e1f5b80d27bb1aee12ff719eeb83e3dce006718c16\nCOUNT = 5\nnothing\n>differs line 2 count 3\nwant 18767656d3e9669eb668d1e1f5b80d27bb1aee12ff719eeb83e3dce006718c16\ngot 08767656d3e9669eb668d1e1f5b80d27bb1aee12ff719eeb83e3dce006718c16\n|Ctr>fault 9 2>[AES-256 use df]\nCOUNT = 7\nEntropyInput = 00\nReturnedBits =\n[AES-128 no df]\nCOUNT = 0\nEntropyInput = 00000000000000000000000000000000000000000000000000000000000000\nReturnedBits = 00\nnothing\n>|Ctr>fault 6 7>[AES-256 use df]\nCOUNT = 7\nEntropyInput = 00\nReturnedBits =\n[AES-128 no df]\nCOUNT = 0\nEntropyInput = 00000000000000000000000000000000000000000000000000000000000000\nReturnedBits = 00\nCOUNT = 1\nnothing\n>";

#[test]
fn texts_are_replayed_in_any_pieces(rt: HostRuntime) -> Result<(), Fail> {
    for row in TEXTS.split('|') {
        let (family, rest) = row.split_once('>').expect(&rt, "a family");
        let (end, rest) = rest.split_once('>').expect(&rt, "an end");
        let (text, written) = rest.split_once('>').expect(&rt, "a text");
        for piece in [1, 65_536] {
            let found = said(&rt, family, text, piece, &[], &[])?;
            let (how, what) = found.split_once('>').expect(&rt, "what was written");
            assert_eq!(&rt; how, end);
            assert_eq!(&rt; what, written);
        }
    }
    Ok(())
}

// A text of two cases that differ.
const TWO: &str =
    "[SHA-256]\nCOUNT = 3\nEntropyInput = 000102030405060708090a0b0c0d0e0f101112131415161718191a1b1c1d1e1f\nNonce = 202122232425262728292a2b2c2d2e2f\nReturnedBits = 18767656d3e9669eb668d1e1f5b80d27bb1aee12ff719eeb83e3dce006718c16\nCOUNT = 4\nEntropyInput = 000102030405060708090a0b0c0d0e0f101112131415161718191a1b1c1d1e1f\nNonce = 202122232425262728292a2b2c2d2e2f\nReturnedBits = 18767656d3e9669eb668d1e1f5b80d27bb1aee12ff719eeb83e3dce006718c16\n";

// Which write fails, and behind it how replaying ends and what is written.
const WRITES: &str =
    "0>write fault 1>|1>write fault 1>differs line 2 count 3\n|2>write fault 1>differs line 2 count 3\nwant 18767656d3e9669eb668d1e1f5b80d27bb1aee12ff719eeb83e3dce006718c16\n|3>write fault 1>differs line 2 count 3\nwant 18767656d3e9669eb668d1e1f5b80d27bb1aee12ff719eeb83e3dce006718c16\ngot 08767656d3e9669eb668d1e1f5b80d27bb1aee12ff719eeb83e3dce006718c16\n|6>write fault 1>differs line 2 count 3\nwant 18767656d3e9669eb668d1e1f5b80d27bb1aee12ff719eeb83e3dce006718c16\ngot 08767656d3e9669eb668d1e1f5b80d27bb1aee12ff719eeb83e3dce006718c16\ndiffers line 6 count 4\nwant 18767656d3e9669eb668d1e1f5b80d27bb1aee12ff719eeb83e3dce006718c16\ngot 08767656d3e9669eb668d1e1f5b80d27bb1aee12ff719eeb83e3dce006718c16\n|7>done 0 2 0>differs line 2 count 3\nwant 18767656d3e9669eb668d1e1f5b80d27bb1aee12ff719eeb83e3dce006718c16\ngot 08767656d3e9669eb668d1e1f5b80d27bb1aee12ff719eeb83e3dce006718c16\ndiffers line 6 count 4\nwant 18767656d3e9669eb668d1e1f5b80d27bb1aee12ff719eeb83e3dce006718c16\ngot 08767656d3e9669eb668d1e1f5b80d27bb1aee12ff719eeb83e3dce006718c16\npassed 0 differed 2 skipped 0\n";

#[test]
fn each_line_is_one_write_and_those_before_a_fault_stay(rt: HostRuntime) -> Result<(), Fail> {
    for row in WRITES.split('|') {
        let (number, wanted) = row.split_once('>').expect(&rt, "a number");
        let number = number.parse::<u64>().ok().expect(&rt, "a number");
        let found = said(&rt, "Hmac", TWO, 65_536, &[], &[number])?;
        assert_eq!(&rt; found.as_str(), wanted);
    }
    let found = said(&rt, "Hmac", TWO, 200, &[1], &[])?;
    assert_eq!(&rt; found.as_str(), "read fault 1>");
    let found = said(&rt, "Hmac", TWO, 200, &[2], &[])?;
    assert_eq!(&rt;
        found.as_str(),
        "read fault 1>differs line 2 count 3\nwant 18767656d3e9669eb668d1e1f5b80d27bb1aee12ff719eeb83e3dce006718c16\ngot 08767656d3e9669eb668d1e1f5b80d27bb1aee12ff719eeb83e3dce006718c16\n"
    );
    Ok(())
}
