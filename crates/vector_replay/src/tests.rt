// Cases and their verdicts. The bytes were computed by an independent implementation.
use crate::{Verdict, verdict};
use rbg_bytes::{Fixed, MemSource};
use std::process::Abort;
use std::test::Fail;
use vector_text::{Family, Item, VectorReader};

// Texts of one case, each behind its family and its verdict.
const CASES: &str =
    "Hmac>Same>[SHA-256]\n[PredictionResistance = False]\nCOUNT = 0\nEntropyInput = 000102030405060708090a0b0c0d0e0f101112131415161718191a1b1c1d1e1f\nNonce = 202122232425262728292a2b2c2d2e2f\nPersonalizationString = 7071\nEntropyInputReseed = 404142434445464748494a4b4c4d4e4f505152535455565758595a5b5c5d5e5f\nAdditionalInputReseed = dd\nAdditionalInput = aa\nAdditionalInput = bbcc\nReturnedBits = a9bfb180f3b857dfdfef398983f7c62979ae0eb5\n|Hmac>Same>[SHA-384]\n[PredictionResistance = True]\nCOUNT = 0\nEntropyInput = 000102030405060708090a0b0c0d0e0f101112131415161718191a1b1c1d1e1f\nNonce = 202122232425262728292a2b2c2d2e2f\nPersonalizationString = 7071\nEntropyInputReseed = 404142434445464748494a4b4c4d4e4f505152535455565758595a5b5c5d5e5f\nAdditionalInputReseed = dd\nAdditionalInput = aa\nAdditionalInput = bbcc\nEntropyInputPR = 6465666768696a6b6c6d6e6f707172737475767778797a7b7c7d7e7f80818283\nEntropyInputPR = 969798999a9b9c9d9e9fa0a1a2a3a4a5a6a7a8a9aaabacadaeafb0b1b2b3b4b5\nReturnedBits = ab68022a2b8e629e327c36b55ee20daa966a1ae788523304639129655c75f8a241b5c9f179083520c1a5d9dcaf62c3adc27b\n|Ctr>Same>[AES-128 use df]\n[PredictionResistance = True]\nCOUNT = 0\nEntropyInput = 000102030405060708090a0b0c0d0e0f101112131415161718191a1b1c1d1e1f\nNonce = 202122232425262728292a2b2c2d2e2f\nPersonalizationString = 7071\nAdditionalInput = aa\nAdditionalInput = bbcc\nEntropyInputPR = 6465666768696a6b6c6d6e6f707172737475767778797a7b7c7d7e7f80818283\nEntropyInputPR = 969798999a9b9c9d9e9fa0a1a2a3a4a5a6a7a8a9aaabacadaeafb0b1b2b3b4b5\nReturnedBits = d1360e74067b4ae7c6c8a318868d634ed0fb1465\n|Ctr>Same>[AES-192 no df]\n[PredictionResistance = False]\nCOUNT = 0\nEntropyInput = 000102030405060708090a0b0c0d0e0f101112131415161718191a1b1c1d1e1f2021222324252627\nNonce = 202122232425262728292a2b2c2d2e2f\nPersonalizationString = 7071\nEntropyInputReseed = 404142434445464748494a4b4c4d4e4f505152535455565758595a5b5c5d5e5f6061626364656667\nAdditionalInputReseed = dd\nAdditionalInput = aa\nAdditionalInput = bbcc\nReturnedBits = 1c72febf11ef921a0bd95bda6bc2bdaaee1995234a515b756f2b2ac94363834d57\n|Ctr>Same>[AES-256 no df]\n[PredictionResistance = True]\nCOUNT = 0\nEntropyInput = 000102030405060708090a0b0c0d0e0f101112131415161718191a1b1c1d1e1f202122232425262728292a2b2c2d2e2f\nNonce = 202122232425262728292a2b2c2d2e2f\nPersonalizationString = 7071\nEntropyInputReseed = 404142434445464748494a4b4c4d4e4f505152535455565758595a5b5c5d5e5f606162636465666768696a6b6c6d6e6f\nAdditionalInputReseed = dd\nAdditionalInput = aa\nAdditionalInput = bbcc\nEntropyInputPR = 6465666768696a6b6c6d6e6f707172737475767778797a7b7c7d7e7f808182838485868788898a8b8c8d8e8f90919293\nEntropyInputPR = 969798999a9b9c9d9e9fa0a1a2a3a4a5a6a7a8a9aaabacadaeafb0b1b2b3b4b5b6b7b8b9babbbcbdbebfc0c1c2c3c4c5\nReturnedBits = 1a220bb2ef34c08fb22b4af1875dfe7b\n|Hmac>Same>[SHA-256]\nCOUNT = 0\nEntropyInput = 000102030405060708090a0b0c0d0e0f101112131415161718191a1b1c1d1e1f\nNonce = 202122232425262728292a2b2c2d2e2f\nReturnedBits = 08767656d3e9669eb668d1e1f5b80d27bb1aee12ff719eeb83e3dce006718c16|Hmac>Differs>[SHA-256]\nCOUNT = 0\nEntropyInput = 000102030405060708090a0b0c0d0e0f101112131415161718191a1b1c1d1e1f\nNonce = 202122232425262728292a2b2c2d2e2f\nReturnedBits = 18767656d3e9669eb668d1e1f5b80d27bb1aee12ff719eeb83e3dce006718c16|Ctr>BadLengths>[AES-128 no df]\nCOUNT = 0\nEntropyInput = 00000000000000000000000000000000000000000000000000000000000000\nReturnedBits = 00|Ctr>BadLengths>[AES-128 no df]\nCOUNT = 0\nEntropyInput = 0000000000000000000000000000000000000000000000000000000000000000\nAdditionalInput =\nAdditionalInput = 000000000000000000000000000000000000000000000000000000000000000000\nReturnedBits = 00";

// The verdict on the case of a text, in a word, and whether the second output is the bytes that the case wants.
fn judged(
    rt: &(impl Abort + AllocGlobal),
    family: &str,
    text: &str,
) -> Result<(String, bool), Fail> {
    let alloc = rt.alloc();
    let family = if family == "Hmac" {
        Family::Hmac
    } else {
        Family::Ctr
    };
    let mut source = MemSource::new(text.as_bytes().to_vec(alloc)?, 65_536, Vec::new(alloc));
    let mut reader = VectorReader::open(alloc, family)
        .ok()
        .expect(rt, "a reader");
    assert!(rt; reader.next(&mut source) == Ok(Item::Case));
    let mut got = Fixed::of(&[]);
    let said = verdict(reader.case(), &mut got);
    let same = got.as_slice() == reader.case().returned.as_slice();
    Ok((format!(in alloc; "{said:?}")?, same))
}

#[test]
fn verdicts_are_those_of_an_independent_run(rt: HostRuntime) -> Result<(), Fail> {
    for row in CASES.split('|') {
        let (family, rest) = row.split_once('>').expect(&rt, "a family");
        let (wanted, text) = rest.split_once('>').expect(&rt, "a verdict");
        let (said, same) = judged(&rt, family, text)?;
        assert_eq!(&rt; said.as_str(), wanted);
        assert_eq!(&rt; same, wanted == "Same");
    }
    Ok(())
}
