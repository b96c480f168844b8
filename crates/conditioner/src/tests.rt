// Blocks and numbers that an independent implementation computes. The samples count up from the first one.
use crate::{Block, block_len, need};
use rbg_bytes::{Cond, Fixed};
use std::test::Fail;

const SAMPLES: [u8; 40] = [
    0, 1, 2, 3, 4, 5, 6, 7, 8, 9, 10, 11, 12, 13, 14, 15, 16, 17, 18, 19, 20, 21, 22, 23, 24, 25,
    26, 27, 28, 29, 30, 31, 32, 33, 34, 35, 36, 37, 38, 39,
];

// For each first sample, the block of 40 samples.
const MAC_BLOCKS: [(u8, [u8; 32]); 3] = [
    (
        20,
        [
            0x19, 0xac, 0x47, 0x68, 0xec, 0x22, 0x63, 0x28, 0x77, 0xf0, 0x47, 0xd6, 0xd0, 0x67,
            0xce, 0x1d, 0x32, 0xe1, 0xd3, 0x02, 0x3b, 0xfb, 0x61, 0xb7, 0x69, 0xc9, 0x0e, 0x87,
            0x9a, 0xf5, 0xa1, 0x78,
        ],
    ),
    (
        60,
        [
            0x18, 0x07, 0xbf, 0xa4, 0xef, 0x52, 0xca, 0x37, 0x82, 0x7a, 0x79, 0x5e, 0x00, 0xe1,
            0xa5, 0x09, 0xb3, 0x5e, 0xcd, 0x2d, 0xf9, 0x12, 0x0b, 0x7b, 0x1b, 0xe6, 0x61, 0x7a,
            0x4e, 0xd3, 0x0b, 0x5f,
        ],
    ),
    (
        100,
        [
            0x07, 0x70, 0x50, 0xa3, 0xc3, 0x86, 0xc3, 0x3f, 0x51, 0xc2, 0xa5, 0xfa, 0x65, 0x19,
            0x3c, 0xd5, 0x9f, 0x94, 0x32, 0x3d, 0xc3, 0xfd, 0xc8, 0xa5, 0xd6, 0xee, 0x90, 0x52,
            0x5c, 0x28, 0x0f, 0x80,
        ],
    ),
];

// The block of 24 samples from 20 on.
const DF_BLOCK: [u8; 16] = [
    0x1e, 0x0d, 0x43, 0xd4, 0x74, 0x06, 0xc7, 0xd9, 0xa7, 0x3e, 0x97, 0xf5, 0x55, 0x00, 0x40, 0xcd,
];

// The block of samples that count up, cut in two.
fn block_of(cond: Cond, first: u8, total: usize, cut: usize) -> Result<Fixed<32>, Fail> {
    let mut samples = SAMPLES;
    for sample in samples.iter_mut() {
        *sample = sample.wrapping_add(first);
    }
    let mut block = Block::start(cond, u32::try_from(total)?);
    block.push(samples.get(..cut).ok_or("too many samples")?);
    block.push(samples.get(cut..total).ok_or("too many samples")?);
    Ok(block.finish())
}

#[test]
fn blocks_of_counting_samples(rt: HostRuntime) -> Result<(), Fail> {
    for (first, want) in MAC_BLOCKS {
        for cut in [0, 1, 39, 40] {
            assert_eq!(rt;
                block_of(Cond::HmacSha256, first, 40, cut)?.as_slice(),
                want.as_slice()
            );
        }
    }
    for cut in 0..25 {
        assert_eq!(rt;
            block_of(Cond::DfAes256, 20, 24, cut)?.as_slice(),
            DF_BLOCK.as_slice()
        );
    }
    Ok(())
}

#[test]
fn needs_of_both_components(rt: HostRuntime) -> Result<(), Fail> {
    for (cond, num, den, samples) in [
        (Cond::HmacSha256, 8, 1, 40),
        (Cond::HmacSha256, 1, 1, 320),
        (Cond::HmacSha256, 3, 2, 214),
        (Cond::HmacSha256, 8000, 1, 1),
        (Cond::HmacSha256, 1, 1000, 320000),
        (Cond::DfAes256, 8, 1, 24),
        (Cond::DfAes256, 1, 1, 192),
    ] {
        assert_eq!(rt; need(cond, num, den), samples);
    }
    assert_eq!(rt;
        (block_len(Cond::HmacSha256), block_len(Cond::DfAes256)),
        (32, 16)
    );
    Ok(())
}
