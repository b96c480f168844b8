// Values computed by another implementation, which say that the definitions are the standard's.
use crate::{Hash, HmacDrbg, ReseedRequired};
use std::test::Fail;

// The bytes that count up from 0.
const COUNTING: [u8; 96] = [
    0x00, 0x01, 0x02, 0x03, 0x04, 0x05, 0x06, 0x07, 0x08, 0x09, 0x0a, 0x0b, 0x0c, 0x0d, 0x0e, 0x0f,
    0x10, 0x11, 0x12, 0x13, 0x14, 0x15, 0x16, 0x17, 0x18, 0x19, 0x1a, 0x1b, 0x1c, 0x1d, 0x1e, 0x1f,
    0x20, 0x21, 0x22, 0x23, 0x24, 0x25, 0x26, 0x27, 0x28, 0x29, 0x2a, 0x2b, 0x2c, 0x2d, 0x2e, 0x2f,
    0x30, 0x31, 0x32, 0x33, 0x34, 0x35, 0x36, 0x37, 0x38, 0x39, 0x3a, 0x3b, 0x3c, 0x3d, 0x3e, 0x3f,
    0x40, 0x41, 0x42, 0x43, 0x44, 0x45, 0x46, 0x47, 0x48, 0x49, 0x4a, 0x4b, 0x4c, 0x4d, 0x4e, 0x4f,
    0x50, 0x51, 0x52, 0x53, 0x54, 0x55, 0x56, 0x57, 0x58, 0x59, 0x5a, 0x5b, 0x5c, 0x5d, 0x5e, 0x5f,
];

// The answer to a generate of 32 bytes and one more, a reseed, and a generate with additional input, with K and V after it.
struct Row {
    hash: Hash,
    first: &'static str,
    second: &'static str,
    k: &'static str,
    v: &'static str,
}

const ROWS: [Row; 6] = [
    Row {
        hash: Hash::Sha224,
        first: "36248cd27b24283aa6cc545938c0f753ef85a768d6792a58434b7e8a50212aa7",
        second: "6336fd0217d5de1306f7d78a4b8b9988ecc46a4a85761561240b5682bb50ccad",
        k: "238c466787509308528180d8cda9d02703a6ae007a7f84edcf3cd7f1",
        v: "8b94be9028fedab13a16882e0fb4d406921d199beeaa70ffa57ced77",
    },
    Row {
        hash: Hash::Sha256,
        first: "0ffb80875a3e9022a4941a3fa1b0d3611df14e1cf651a73ce9229b9f3ad56887",
        second: "4e0807abce33fdf0935fd6e2ee63c29d0d5245727dc7a6d192ca958ca1fe44e8",
        k: "e8a16a16737a1a50f02d40411e1a94d71605da12e9cfb0a273a8c20f89fddfb6",
        v: "8e8ad35622bb225c7d93f642364c1520400ae3c38e33da77e40bfc3e345f9735",
    },
    Row {
        hash: Hash::Sha384,
        first: "290e3c0f81e1dd8e99e839fb98383fafc42d52d2cec7424d02ee75b628f981fe",
        second: "486ee938364e633a1106784059170c5ea9aa45e82e784fc17e9cf6c7f5f6fe90",
        k: "478d429e894407688dff2d78d0e28e8f43b0360296f22bd9568ebc641bd2a6f0d2109b6c22b5b3629afbd88c5f9a046e",
        v: "eeadf5cc0e4ae688c40f1c672ed992eb72b599813c553d259107d1c88e919b249e0245bfe566967a8f8f77970f3ec52d",
    },
    Row {
        hash: Hash::Sha512,
        first: "5a947e2ec811344b506f321e3f1fbde3fde96845301a7c1793e72b2071e1d984",
        second: "7ddf95f8951a14ccdbafb3ed3c8bbe144a1db575b0a0065df0c1b3ea4e1d2316",
        k: "86d1b0639c96a3e9ec31f10bca9ea1ccdaa78997c86b5a0447c0d2bdd6ff9fe21c1f98c82ff484f6ffeea6ce3781701fc669170d3f694b4c6c0a7b3537f9de16",
        v: "723f4265d26b0c4ef9c4fda484e0c947cab0c208e945cbc67f572f5e3766f3b0a6bb2d002877861a7ac279356e295d5470db500d024bd30b02b31379f0b3bcae",
    },
    Row {
        hash: Hash::Sha512_224,
        first: "aea6a3bac2f939f62da6c2f50da283ae4f76e17f37e2244cadbe58e6b6d2816f",
        second: "772821b041c56a4be8b4b63b8affc1e9af6173c0b872cc9cb21a4d8fc98ee16a",
        k: "c16ffea36d898cb688768a4d912e31340ccc382805e538d9fc3289d2",
        v: "c054fd8f58a14ba3162696d78c96b52ffb2bd3b5416016b638b97df6",
    },
    Row {
        hash: Hash::Sha512_256,
        first: "30f02f0c2d868dd8b5d466e52a057b40d9ee3d1d659f0da88b99d4654cf19dd6",
        second: "3292b4a8396c947d60fe08909d6925455ac046d603998d62a1073f5a8f38662e",
        k: "074a8dfa08369bc9ac543cfd84c2566d16e1943cc5153360d337b6e5590fb61f",
        v: "230fffefe6db1d3e37e5c13dad5581b81d1f69a9ae92668da851f58c861b30fa",
    },
];

#[test]
fn answers_as_another_implementation_under_each_hash(rt: HostRuntime) -> Result<(), Fail> {
    for row in &ROWS {
        let mut drbg = HmacDrbg::instantiate(row.hash, &COUNTING[..32], &COUNTING[32..48], &[]);
        assert_eq!(rt; drbg.counter, 1);
        let mut bytes = [0u8; 32];
        assert_eq!(rt; drbg.generate(&[], 1, &mut bytes), Ok(()));
        assert_eq!(rt; hex::encode(rt.alloc(), &bytes)?.as_str(), row.first);
        assert_eq!(rt; drbg.counter, 2);
        // A second generate is above the interval, and leaves all as it was.
        let mut untouched = [7u8; 32];
        let refused = drbg.generate(&[], 1, &mut untouched);
        assert_eq!(rt; refused, Err(ReseedRequired { counter: 2 }));
        assert_eq!(rt; untouched, [7u8; 32]);
        drbg.reseed(&COUNTING[64..], &[0xaa]);
        assert_eq!(rt; drbg.counter, 1);
        assert_eq!(rt; drbg.generate(&[0xbb, 0xcc], 1, &mut bytes), Ok(()));
        assert_eq!(rt; drbg.counter, 2);
        assert_eq!(rt; hex::encode(rt.alloc(), &bytes)?.as_str(), row.second);
        assert_eq!(rt; hex::encode(rt.alloc(), drbg.k.as_slice())?.as_str(), row.k);
        assert_eq!(rt; hex::encode(rt.alloc(), drbg.v.as_slice())?.as_str(), row.v);
    }
    Ok(())
}
