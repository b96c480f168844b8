// Nodes that are seeded as in a tree. An independent implementation computes the bytes.
use crate::{Node, NodeCounts, SeedShort};
use rbg_bytes::{Kind, Name};
use std::test::Fail;
use tree_config::{NodeKind, NodePlan, Origin};

// The first two conditioned blocks of the samples k mod 251 after a start-up of 1,024, cut to entropy and nonce.
const MATERIAL: [u8; 48] = [
    0x19, 0xac, 0x47, 0x68, 0xec, 0x22, 0x63, 0x28, 0x77, 0xf0, 0x47, 0xd6, 0xd0, 0x67, 0xce, 0x1d,
    0x32, 0xe1, 0xd3, 0x02, 0x3b, 0xfb, 0x61, 0xb7, 0x69, 0xc9, 0x0e, 0x87, 0x9a, 0xf5, 0xa1, 0x78,
    0x18, 0x07, 0xbf, 0xa4, 0xef, 0x52, 0xca, 0x37, 0x82, 0x7a, 0x79, 0x5e, 0x00, 0xe1, 0xa5, 0x09,
];

// The block after them.
const ENTROPY: [u8; 32] = [
    0x07, 0x70, 0x50, 0xa3, 0xc3, 0x86, 0xc3, 0x3f, 0x51, 0xc2, 0xa5, 0xfa, 0x65, 0x19, 0x3c, 0xd5,
    0x9f, 0x94, 0x32, 0x3d, 0xc3, 0xfd, 0xc8, 0xa5, 0xd6, 0xee, 0x90, 0x52, 0x5c, 0x28, 0x0f, 0x80,
];

// 40 bytes of the blocks from the sample 1,184 on.
const FRESH: [u8; 40] = [
    0xdf, 0x6a, 0x55, 0xff, 0x5c, 0x97, 0x0e, 0xc5, 0xde, 0xbf, 0xba, 0x9b, 0x31, 0x08, 0x8b, 0x8d,
    0x9a, 0x39, 0x1d, 0xb9, 0x7c, 0xaf, 0xfd, 0xca, 0x13, 0x5b, 0x99, 0x09, 0x21, 0x94, 0xb8, 0x99,
    0x1d, 0x86, 0x9e, 0xc2, 0x3f, 0x20, 0x6c, 0x2e,
];

// What a child with CTR_DRBG and AES-256 gives first, seeded by a node that MATERIAL seeded.
const FROM_PARENT: [u8; 32] = [
    0xfd, 0x5a, 0x91, 0xa1, 0x0f, 0x7a, 0x9a, 0x53, 0xef, 0xa8, 0x79, 0x6b, 0x59, 0xe4, 0x83, 0x44,
    0x9e, 0x2d, 0x4c, 0xb1, 0x01, 0xfd, 0x06, 0xb2, 0x40, 0xb1, 0xc6, 0xdf, 0xac, 0x97, 0x43, 0xf9,
];

// What it gives after a reseed by that node.
const AGAIN: [u8; 32] = [
    0xfc, 0xdf, 0xd7, 0x6d, 0x14, 0x70, 0x89, 0x24, 0x39, 0xa9, 0xc6, 0x12, 0x14, 0x49, 0x3f, 0xd2,
    0x11, 0x2c, 0x93, 0x72, 0xc3, 0x7c, 0xc1, 0xed, 0x35, 0xa3, 0x9d, 0x20, 0x7e, 0x24, 0xcf, 0xca,
];

// What it gives after a reseed by that node, which ENTROPY had reseeded.
const RENEWED: [u8; 32] = [
    0x67, 0x34, 0xde, 0xd4, 0x50, 0x57, 0x84, 0xa2, 0xff, 0x81, 0x0d, 0xeb, 0xed, 0x50, 0x55, 0xd1,
    0x7e, 0x26, 0x3f, 0x05, 0xba, 0x6f, 0xb7, 0x13, 0xaa, 0x2c, 0x62, 0x5e, 0x0b, 0x04, 0x58, 0x3a,
];

// 40 bytes of a node that MATERIAL seeded, xor FRESH.
const MIXED: [u8; 40] = [
    0x04, 0x06, 0x7e, 0x87, 0x7d, 0xd5, 0xdc, 0xe3, 0x5a, 0x41, 0x7b, 0x51, 0x13, 0x65, 0xba, 0xa9,
    0x97, 0xb7, 0x6d, 0x70, 0xf1, 0xa2, 0xc4, 0xe3, 0xb1, 0xbb, 0xb5, 0x72, 0xd0, 0x23, 0xc7, 0xd4,
    0xaf, 0x47, 0xf7, 0xe8, 0x07, 0x69, 0x9b, 0xb3,
];

// The second output of a node that the 48 bytes 00 to 2f seeded, after one of 24 bytes.
const OF_A_SEED: [u8; 32] = [
    0x08, 0x76, 0x76, 0x56, 0xd3, 0xe9, 0x66, 0x9e, 0xb6, 0x68, 0xd1, 0xe1, 0xf5, 0xb8, 0x0d, 0x27,
    0xbb, 0x1a, 0xee, 0x12, 0xff, 0x71, 0x9e, 0xeb, 0x83, 0xe3, 0xdc, 0xe0, 0x06, 0x71, 0x8c, 0x16,
];

#[test]
fn an_rbg1_is_seeded_once(rt: HostRuntime) -> Result<(), Fail> {
    let plan = NodePlan {
        kind: NodeKind::Rbg1,
        drbg: Kind::HmacSha256,
        interval: 2,
        origin: Origin::SeedFile(Name::of("s48")),
    };
    let mut seed = [0u8; 50];
    for i in 0..50u8 {
        seed[i as usize] = i;
    }
    let short = SeedShort { have: 47, need: 48 };
    assert_eq!(rt; Node::fresh(&plan, &[0u8; 47]).err(), Some(short));
    let Ok(mut node) = Node::fresh(&plan, &seed) else {
        return Err("a seed that is long enough".into());
    };
    let counts = NodeCounts {
        live: false,
        counter: 0,
        seeds: 0,
        gives: 0,
    };
    assert_eq!(rt; node.counts(), counts);
    assert!(rt; node.has_seed());
    node.seed_own(&[]);
    assert!(rt; !node.has_seed());
    let mut for_a_child = [0u8; 24];
    node.give(&[], &mut for_a_child);
    assert!(rt; !node.due());
    let mut out = [0u8; 32];
    node.give(&[], &mut out);
    assert_eq!(rt; out, OF_A_SEED);
    assert!(rt; node.due());
    node.clear();
    assert!(rt; !node.due());
    let counts = NodeCounts {
        live: false,
        counter: 0,
        seeds: 1,
        gives: 2,
    };
    assert_eq!(rt; node.counts(), counts);
    assert!(rt; !node.has_seed());
    Ok(())
}

#[test]
fn a_child_is_seeded_by_its_parent(rt: HostRuntime) -> Result<(), Fail> {
    let parent = NodePlan {
        kind: NodeKind::Rbg2,
        drbg: Kind::HmacSha256,
        interval: 2,
        origin: Origin::Source(0),
    };
    let child = NodePlan {
        kind: NodeKind::Child,
        drbg: Kind::CtrAes256,
        interval: 1,
        origin: Origin::Parent(0),
    };
    let (Ok(mut parent), Ok(mut child)) = (Node::fresh(&parent, &[]), Node::fresh(&child, &[]))
    else {
        return Err("no seed is taken".into());
    };
    parent.seed(&MATERIAL, &[]);
    let mut material = [0u8; 48];
    parent.give(&[], &mut material);
    child.seed(&material, &[]);
    let mut out = [0u8; 32];
    child.give(&[], &mut out);
    assert_eq!(rt; out, FROM_PARENT);
    assert!(rt; child.due());
    let mut entropy = [0u8; 32];
    parent.give(&[], &mut entropy);
    child.reseed(&entropy, &[]);
    child.give(&[], &mut out);
    assert_eq!(rt; out, AGAIN);
    assert!(rt; parent.due());
    parent.reseed(&ENTROPY, &[]);
    parent.give(&[], &mut entropy);
    child.reseed(&entropy, &[]);
    child.give(&[], &mut out);
    assert_eq!(rt; out, RENEWED);
    let counts = NodeCounts {
        live: true,
        counter: 2,
        seeds: 2,
        gives: 3,
    };
    assert_eq!(rt; parent.counts(), counts);
    let counts = NodeCounts {
        live: true,
        counter: 2,
        seeds: 3,
        gives: 3,
    };
    assert_eq!(rt; child.counts(), counts);
    Ok(())
}

#[test]
fn fresh_bytes_are_mixed_in(rt: HostRuntime) -> Result<(), Fail> {
    let plan = NodePlan {
        kind: NodeKind::Rbg3Xor,
        drbg: Kind::HmacSha256,
        interval: 1000,
        origin: Origin::Source(0),
    };
    let Ok(mut node) = Node::fresh(&plan, &[]) else {
        return Err("no seed is taken".into());
    };
    node.seed(&MATERIAL, &[]);
    let mut out = [0u8; 40];
    node.give_xor(&[], &FRESH, &mut out);
    assert_eq!(rt; out, MIXED);
    assert_eq!(rt; node.counts().gives, 1);
    Ok(())
}
