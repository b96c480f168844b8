// Runs of `replay` over texts in memory: the lines that it prints, and how the program ends. The bytes were computed by an independent
// implementation.
use crate::memory_world::MemWorld;
use crate::top::run;
use rbg_bytes::{MemSink, MemSource};
use sample_source::Recorded;
use std::process::Abort;
use std::test::Fail;

// The numbers of calls that fail: none where the word is `!`.
fn failing(rt: &(impl Abort + AllocGlobal), word: &str) -> Result<Vec<u64>, Fail> {
    let alloc = rt.alloc();
    match word.parse::<u64>() {
        Ok(number) => Ok(vec![in alloc; number]?),
        Err(_) => Ok(Vec::new(alloc)),
    }
}

// What a run of these words over the text in the file `f` wrote, its status and its line on standard error, each before a `>`. Reads
// of files and writes with the numbers of the two words fail, and each read of the input.
fn replayed(
    rt: &(impl Abort + AllocGlobal),
    words: &str,
    reads: &str,
    writes: &str,
    text: &str,
) -> Result<String, Fail> {
    let alloc = rt.alloc();
    let mut owned = Vec::new(alloc);
    for word in words.split(' ') {
        owned.push(String::from_str(alloc, word)?)?;
    }
    let file = (
        String::from_str(alloc, "f")?,
        text.as_bytes().to_vec(alloc)?,
    );
    let samples: Vec<(String, Recorded)> = Vec::new(alloc);
    let mut world = MemWorld::new(vec![in alloc; file]?, samples, failing(rt, reads)?);
    let mut input = MemSource::new(Vec::new(alloc), 1, vec![in alloc; 0u64]?);
    let mut output = MemSink::new(vec![in alloc; 0u8; 4_096]?, failing(rt, writes)?);
    let status = run(alloc, &owned, &mut world, &mut input, &mut output);
    let mut line = MemSink::new(vec![in alloc; 0u8; 512]?, Vec::new(alloc));
    assert_eq!(rt; status.line(&mut line), Ok(()));
    let written = std::str::from_utf8(output.written())
        .ok()
        .expect(rt, "text");
    let said = std::str::from_utf8(line.written()).ok().expect(rt, "text");
    Ok(format!(in alloc; "{written}>{}>{said}", status.number())?)
}

// Words, which read of a file and which write fails, the text, what is written, the status, and the line on standard error, of
// which `?` is any.
const RUNS: &str =
    "replay hmac f>!>!># a comment\r\n[SHA-1]\r\n[PredictionResistance = False]\r\nCOUNT = 0\r\nEntropyInput = 00\r\nReturnedBits = 00\r\n[SHA-256]\r\n[PredictionResistance = False]\r\n[ReturnedBitsLen = 256]\r\nCOUNT = 0\r\nEntropyInput = 000102030405060708090a0b0c0d0e0f101112131415161718191a1b1c1d1e1f\r\nNonce = 202122232425262728292a2b2c2d2e2f\r\nPersonalizationString =\r\nAdditionalInput =\r\nAdditionalInput =\r\nReturnedBits = 08767656d3e9669eb668d1e1f5b80d27bb1aee12ff719eeb83e3dce006718c16\r\n>passed 1 differed 0 skipped 1\n>0>|replay hmac f>!>!># a comment\r\n[SHA-1]\r\n[PredictionResistance = False]\r\nCOUNT = 0\r\nEntropyInput = 00\r\nReturnedBits = 00\r\n[SHA-256]\r\n[PredictionResistance = False]\r\n[ReturnedBitsLen = 256]\r\nCOUNT = 0\r\nEntropyInput = 000102030405060708090a0b0c0d0e0f101112131415161718191a1b1c1d1e1f\r\nNonce = 202122232425262728292a2b2c2d2e2f\r\nPersonalizationString =\r\nAdditionalInput =\r\nAdditionalInput =\r\nReturnedBits = 18767656d3e9669eb668d1e1f5b80d27bb1aee12ff719eeb83e3dce006718c16\r\n>differs line 10 count 0\nwant 18767656d3e9669eb668d1e1f5b80d27bb1aee12ff719eeb83e3dce006718c16\ngot 08767656d3e9669eb668d1e1f5b80d27bb1aee12ff719eeb83e3dce006718c16\npassed 0 differed 1 skipped 1\n>8>vectors differ: 1\n|replay hmac f>!>!># a comment\r\n[SHA-1]\r\n[PredictionResistance = False]\r\nCOUNT = 0\r\nEntropyInput = 00\r\nReturnedBits = 00\r\n[SHA-256]\r\n[PredictionResistance = False]\r\n[ReturnedBitsLen = 256]\r\nCOUNT = 0\r\nEntropyInput = 000102030405060708090a0b0c0d0e0f101112131415161718191a1b1c1d1e1f\r\nNonce = 202122232425262728292a2b2c2d2e2f\r\nPersonalizationString =\r\nAdditionalInput =\r\nAdditionalInput =\r\nReturnedBits = g8767656d3e9669eb668d1e1f5b80d27bb1aee12ff719eeb83e3dce006718c16\r\n>>3>text fault at line 16, why 3\n|replay ctr f>!>!># a comment\r\n[SHA-1]\r\n[PredictionResistance = False]\r\nCOUNT = 0\r\nEntropyInput = 00\r\nReturnedBits = 00\r\n[SHA-256]\r\n[PredictionResistance = False]\r\n[ReturnedBitsLen = 256]\r\nCOUNT = 0\r\nEntropyInput = 000102030405060708090a0b0c0d0e0f101112131415161718191a1b1c1d1e1f\r\nNonce = 202122232425262728292a2b2c2d2e2f\r\nPersonalizationString =\r\nAdditionalInput =\r\nAdditionalInput =\r\nReturnedBits = 08767656d3e9669eb668d1e1f5b80d27bb1aee12ff719eeb83e3dce006718c16\r\n>passed 0 differed 0 skipped 2\n>0>|replay hmac f>!>!>[SHA-256]\nCOUNT = 0\nEntropyInput = 00\n>>3>text fault at line 2, why 5\n|replay hmac f>!>!>COUNT = 0\n>>3>text fault at line 1, why 6\n|replay ctr f>!>!>[AES-128 no df]\nCOUNT = 0\nEntropyInput = 00000000000000000000000000000000000000000000000000000000000000\nReturnedBits = 00\n>>3>text fault at line 2, why 7\n|replay hmac f>!>!>>passed 0 differed 0 skipped 0\n>0>|replay hmac g>!>!>>>6>open fault 1\n|replay hmac f>0>!>>>6>open fault 1\n|replay hmac f>1>!># a comment\r\n[SHA-1]\r\n[PredictionResistance = False]\r\nCOUNT = 0\r\nEntropyInput = 00\r\nReturnedBits = 00\r\n[SHA-256]\r\n[PredictionResistance = False]\r\n[ReturnedBitsLen = 256]\r\nCOUNT = 0\r\nEntropyInput = 000102030405060708090a0b0c0d0e0f101112131415161718191a1b1c1d1e1f\r\nNonce = 202122232425262728292a2b2c2d2e2f\r\nPersonalizationString =\r\nAdditionalInput =\r\nAdditionalInput =\r\nReturnedBits = 18767656d3e9669eb668d1e1f5b80d27bb1aee12ff719eeb83e3dce006718c16\r\n>>6>open fault 1\n|replay hmac f>1>!>[SHA-256]\nCOUNT = 3\nEntropyInput = 000102030405060708090a0b0c0d0e0f101112131415161718191a1b1c1d1e1f\nNonce = 202122232425262728292a2b2c2d2e2f\nReturnedBits = 18767656d3e9669eb668d1e1f5b80d27bb1aee12ff719eeb83e3dce006718c16\nCOUNT = 4\nEntropyInput = 000102030405060708090a0b0c0d0e0f101112131415161718191a1b1c1d1e1f\nNonce = 202122232425262728292a2b2c2d2e2f\nReturnedBits = 18767656d3e9669eb668d1e1f5b80d27bb1aee12ff719eeb83e3dce006718c16\n>differs line 2 count 3\nwant 18767656d3e9669eb668d1e1f5b80d27bb1aee12ff719eeb83e3dce006718c16\ngot 08767656d3e9669eb668d1e1f5b80d27bb1aee12ff719eeb83e3dce006718c16\n>6>open fault 1\n|replay hmac f>!>0># a comment\r\n[SHA-1]\r\n[PredictionResistance = False]\r\nCOUNT = 0\r\nEntropyInput = 00\r\nReturnedBits = 00\r\n[SHA-256]\r\n[PredictionResistance = False]\r\n[ReturnedBitsLen = 256]\r\nCOUNT = 0\r\nEntropyInput = 000102030405060708090a0b0c0d0e0f101112131415161718191a1b1c1d1e1f\r\nNonce = 202122232425262728292a2b2c2d2e2f\r\nPersonalizationString =\r\nAdditionalInput =\r\nAdditionalInput =\r\nReturnedBits = 18767656d3e9669eb668d1e1f5b80d27bb1aee12ff719eeb83e3dce006718c16\r\n>>5>write fault 1\n|replay hmac f>!>2># a comment\r\n[SHA-1]\r\n[PredictionResistance = False]\r\nCOUNT = 0\r\nEntropyInput = 00\r\nReturnedBits = 00\r\n[SHA-256]\r\n[PredictionResistance = False]\r\n[ReturnedBitsLen = 256]\r\nCOUNT = 0\r\nEntropyInput = 000102030405060708090a0b0c0d0e0f101112131415161718191a1b1c1d1e1f\r\nNonce = 202122232425262728292a2b2c2d2e2f\r\nPersonalizationString =\r\nAdditionalInput =\r\nAdditionalInput =\r\nReturnedBits = 18767656d3e9669eb668d1e1f5b80d27bb1aee12ff719eeb83e3dce006718c16\r\n>differs line 10 count 0\nwant 18767656d3e9669eb668d1e1f5b80d27bb1aee12ff719eeb83e3dce006718c16\n>5>write fault 1\n|replay hmac f>!>3># a comment\r\n[SHA-1]\r\n[PredictionResistance = False]\r\nCOUNT = 0\r\nEntropyInput = 00\r\nReturnedBits = 00\r\n[SHA-256]\r\n[PredictionResistance = False]\r\n[ReturnedBitsLen = 256]\r\nCOUNT = 0\r\nEntropyInput = 000102030405060708090a0b0c0d0e0f101112131415161718191a1b1c1d1e1f\r\nNonce = 202122232425262728292a2b2c2d2e2f\r\nPersonalizationString =\r\nAdditionalInput =\r\nAdditionalInput =\r\nReturnedBits = 18767656d3e9669eb668d1e1f5b80d27bb1aee12ff719eeb83e3dce006718c16\r\n>differs line 10 count 0\nwant 18767656d3e9669eb668d1e1f5b80d27bb1aee12ff719eeb83e3dce006718c16\ngot 08767656d3e9669eb668d1e1f5b80d27bb1aee12ff719eeb83e3dce006718c16\n>5>write fault 1\n|replay HMAC f>!>!>>>1>?|replay hmac>!>!>>>1>?|replay hmac f f>!>!>>>1>?|check hmac f>!>!>>>1>?";

#[test]
fn texts_are_replayed_and_faults_end_the_program(rt: HostRuntime) -> Result<(), Fail> {
    for row in RUNS.split('|') {
        let (words, rest) = row.split_once('>').expect(&rt, "words");
        let (reads, rest) = rest.split_once('>').expect(&rt, "a read");
        let (writes, rest) = rest.split_once('>').expect(&rt, "a write");
        let (text, wanted) = rest.split_once('>').expect(&rt, "a text");
        let found = replayed(&rt, words, reads, writes, text)?;
        match wanted.strip_suffix("?") {
            Some(front) => assert!(&rt; found.starts_with(front)),
            None => assert_eq!(&rt; found.as_str(), wanted),
        }
    }
    Ok(())
}

// A text of two cases that differ.
const TWO: &str =
    "[SHA-256]\nCOUNT = 3\nEntropyInput = 000102030405060708090a0b0c0d0e0f101112131415161718191a1b1c1d1e1f\nNonce = 202122232425262728292a2b2c2d2e2f\nReturnedBits = 18767656d3e9669eb668d1e1f5b80d27bb1aee12ff719eeb83e3dce006718c16\nCOUNT = 4\nEntropyInput = 000102030405060708090a0b0c0d0e0f101112131415161718191a1b1c1d1e1f\nNonce = 202122232425262728292a2b2c2d2e2f\nReturnedBits = 18767656d3e9669eb668d1e1f5b80d27bb1aee12ff719eeb83e3dce006718c16\n";

// Which read of a file fails, and what is then written, the status and the line on standard error, where a thousand lines of comment,
// which take more than a piece, stand before the two cases.
const LONG: &str =
    "1>>6>open fault 1\n|2>differs line 1002 count 3\nwant 18767656d3e9669eb668d1e1f5b80d27bb1aee12ff719eeb83e3dce006718c16\ngot 08767656d3e9669eb668d1e1f5b80d27bb1aee12ff719eeb83e3dce006718c16\n>6>open fault 1\n|!>differs line 1002 count 3\nwant 18767656d3e9669eb668d1e1f5b80d27bb1aee12ff719eeb83e3dce006718c16\ngot 08767656d3e9669eb668d1e1f5b80d27bb1aee12ff719eeb83e3dce006718c16\ndiffers line 1006 count 4\nwant 18767656d3e9669eb668d1e1f5b80d27bb1aee12ff719eeb83e3dce006718c16\ngot 08767656d3e9669eb668d1e1f5b80d27bb1aee12ff719eeb83e3dce006718c16\npassed 0 differed 2 skipped 0\n>8>vectors differ: 2\n";

#[test]
fn a_text_is_read_piece_by_piece_while_its_cases_run(rt: HostRuntime) -> Result<(), Fail> {
    let alloc = rt.alloc();
    let mut text = String::new(alloc);
    for _ in 0..1_000u32 {
        text.push_str("# a comment of so many bytes that it fills\n")?;
    }
    text.push_str(TWO)?;
    for row in LONG.split('|') {
        let (reads, wanted) = row.split_once('>').expect(&rt, "a read");
        let found = replayed(&rt, "replay hmac f", reads, "!", text.as_str())?;
        assert_eq!(&rt; found.as_str(), wanted);
    }
    Ok(())
}
