// FIPS 197, appendix C.1 to C.3: the key counts up from 00, the block is 00112233445566778899aabbccddeeff.
use crate::inversion::substituted;
use crate::power::substituted_by_power;
use crate::{Aes, BadKeyLength};
use std::simd::prelude::*;
use std::test::Fail;

const COUNTING: [u8; 32] = [
    0, 1, 2, 3, 4, 5, 6, 7, 8, 9, 10, 11, 12, 13, 14, 15, 16, 17, 18, 19, 20, 21, 22, 23, 24, 25,
    26, 27, 28, 29, 30, 31,
];

const PLAIN: [u8; 16] = [
    0x00, 0x11, 0x22, 0x33, 0x44, 0x55, 0x66, 0x77, 0x88, 0x99, 0xaa, 0xbb, 0xcc, 0xdd, 0xee, 0xff,
];

// The length of the key, and the block's encryption.
const EXAMPLES: [(usize, [u8; 16]); 3] = [
    (
        16,
        [
            0x69, 0xc4, 0xe0, 0xd8, 0x6a, 0x7b, 0x04, 0x30, 0xd8, 0xcd, 0xb7, 0x80, 0x70, 0xb4,
            0xc5, 0x5a,
        ],
    ),
    (
        24,
        [
            0xdd, 0xa9, 0x7c, 0xa4, 0x86, 0x4c, 0xdf, 0xe0, 0x6e, 0xaf, 0x70, 0xa0, 0xec, 0x0d,
            0x71, 0x91,
        ],
    ),
    (
        32,
        [
            0x8e, 0xa2, 0xb7, 0xca, 0x51, 0x67, 0x45, 0xbf, 0xea, 0xfc, 0x49, 0x90, 0x4b, 0x49,
            0x60, 0x89,
        ],
    ),
];

#[test]
fn published_examples_and_a_refused_length(rt: HostRuntime) -> Result<(), Fail> {
    for (keylen, expected) in EXAMPLES {
        let key = COUNTING.get(..keylen).ok_or("the key is too short")?;
        let aes = Aes::new(key)?;
        let mut block = PLAIN;
        aes.encrypt(&mut block);
        assert_eq!(rt; block, expected);
        let mut blocks = [PLAIN; 4];
        aes.encrypt4(&mut blocks);
        assert_eq!(rt; blocks, [expected; 4]);
    }
    assert!(rt; matches!(Aes::new(&COUNTING[..17]), Err(BadKeyLength { len: 17 })));
    Ok(())
}

#[test]
fn four_blocks_are_encrypted_each_for_itself(rt: HostRuntime) -> Result<(), Fail> {
    for (keylen, expected) in EXAMPLES {
        let key = COUNTING.get(..keylen).ok_or("the key is too short")?;
        let aes = Aes::new(key)?;
        let mut blocks = [PLAIN, expected, [0x00; 16], [0xff; 16]];
        let mut singles = blocks;
        aes.encrypt4(&mut blocks);
        for block in &mut singles {
            aes.encrypt(block);
        }
        assert_eq!(rt; blocks, singles);
    }
    Ok(())
}

// FIPS 197, figure 7: the S-box of the first sixteen bytes.
const SBOX_FRONT: [u8; 16] = [
    0x63, 0x7c, 0x77, 0x7b, 0xf2, 0x6b, 0x6f, 0xc5, 0x30, 0x01, 0x67, 0x2b, 0xfe, 0xd7, 0xab, 0x76,
];

#[test]
fn both_ways_to_the_s_box_agree_on_all_bytes(rt: HostRuntime) -> Result<(), Fail> {
    let mut lanes = [0u8; 64];
    for front in [0u8, 64, 128, 192] {
        let mut byte = front;
        for lane in &mut lanes {
            *lane = byte;
            byte = byte.wrapping_add(1);
        }
        let state = u8x64::from_array(lanes);
        let inverted = substituted(state).to_array();
        assert_eq!(rt; inverted, substituted_by_power(state).to_array());
        if front == 0 {
            assert!(rt; inverted.starts_with(&SBOX_FRONT));
        }
    }
    Ok(())
}
