// Values computed by another implementation, and the structs' sizes that `include/rbg.h` asserts.
use crate::{
    RbgDrbg, RbgTests, rbg_drbg_clear, rbg_drbg_counter, rbg_drbg_due, rbg_drbg_generate,
    rbg_drbg_generate_fresh, rbg_drbg_instantiate, rbg_drbg_reseed, rbg_rct_cutoff,
    rbg_tests_begin, rbg_tests_step, rbg_tests_step_all,
};
use std::test::Fail;

// The bytes that count up from 0.
const COUNTING: [u8; 96] = [
    0x00, 0x01, 0x02, 0x03, 0x04, 0x05, 0x06, 0x07, 0x08, 0x09, 0x0a, 0x0b, 0x0c, 0x0d, 0x0e, 0x0f,
    0x10, 0x11, 0x12, 0x13, 0x14, 0x15, 0x16, 0x17, 0x18, 0x19, 0x1a, 0x1b, 0x1c, 0x1d, 0x1e, 0x1f,
    0x20, 0x21, 0x22, 0x23, 0x24, 0x25, 0x26, 0x27, 0x28, 0x29, 0x2a, 0x2b, 0x2c, 0x2d, 0x2e, 0x2f,
    0x30, 0x31, 0x32, 0x33, 0x34, 0x35, 0x36, 0x37, 0x38, 0x39, 0x3a, 0x3b, 0x3c, 0x3d, 0x3e, 0x3f,
    0x40, 0x41, 0x42, 0x43, 0x44, 0x45, 0x46, 0x47, 0x48, 0x49, 0x4a, 0x4b, 0x4c, 0x4d, 0x4e, 0x4f,
    0x50, 0x51, 0x52, 0x53, 0x54, 0x55, 0x56, 0x57, 0x58, 0x59, 0x5a, 0x5b, 0x5c, 0x5d, 0x5e, 0x5f,
];

// A kind's number in C, and the 40 bytes of its fresh generate.
const ROWS: [(u32, &str); 6] = [
    (
        1,
        "02e66211e4fc8c8bdfcf891e04a46a5ee3e53f6bcc9c699c48e5e0604c76ce19ec9522aad2cd3759",
    ),
    (
        2,
        "4297ac4a79ee884bb53c3e1180e2322d0caf0168bf78a7f8ae52e00f13f32ff1c3aee711b18d7eeb",
    ),
    (
        3,
        "2a94a659a6b8012c5a69ffccee71501d95e030697c24055be0d3f334866a621263d5d58d44d0707e",
    ),
    (
        4,
        "4fa75cd84332b9dde7da70b88aba8a1c240af4ba0e3575671e486015d1754cba4b342f6ad426a372",
    ),
    (
        5,
        "59539b034bbbfbdf86651c099794cc76105f0538ea59f2a47d9432d1bdb8894046edbb7fd84fc4a8",
    ),
    (
        6,
        "c0b8d994ef2b209b3947177acc134f98bb895c898047826ab5c8b7b1df4369809993497a8cb01e9a",
    ),
];

const BLANK: RbgDrbg = RbgDrbg {
    counter: 0,
    kind: 0,
    reserved: 0,
    key: [0; 64],
    value: [0; 64],
};

#[test]
fn answers_as_another_implementation_through_the_exports(rt: HostRuntime) -> Result<(), Fail> {
    assert_eq!(rt; size_of::<RbgDrbg>(), 144);
    for row in &ROWS {
        let (kind, want) = *row;
        let mut state = BLANK;
        let pers = [0x70, 0x71];
        let begun = rbg_drbg_instantiate(
            &mut state,
            kind,
            &COUNTING[..32],
            &COUNTING[32..48],
            &pers,
        );
        assert_eq!(rt; begun, 0);
        let mut bytes = [0u8; 40];
        let fresh = rbg_drbg_generate_fresh(&mut state, &COUNTING[64..], &[0xaa], &mut bytes);
        assert_eq!(rt; fresh, 0);
        assert_eq!(rt; hex::encode(rt.alloc(), &bytes)?.as_str(), want);
        // The same by a reseed and a generate.
        let mut again = BLANK;
        let begun = rbg_drbg_instantiate(
            &mut again,
            kind,
            &COUNTING[..32],
            &COUNTING[32..48],
            &pers,
        );
        assert_eq!(rt; begun, 0);
        assert_eq!(rt; rbg_drbg_reseed(&mut again, &COUNTING[64..], &[0xaa]), 0);
        assert_eq!(rt; rbg_drbg_due(&again, 1), 0);
        assert_eq!(rt; rbg_drbg_generate(&mut again, &[], 1, &mut bytes), 0);
        assert_eq!(rt; hex::encode(rt.alloc(), &bytes)?.as_str(), want);
        let mut counter = 0;
        assert_eq!(rt; rbg_drbg_counter(&again, &mut counter), 0);
        assert_eq!(rt; counter, 2);
        rbg_drbg_clear(&mut again);
        assert_eq!(rt; rbg_drbg_counter(&again, &mut counter), 2);
    }
    Ok(())
}

#[test]
fn alarms_where_the_crate_below_does(rt: HostRuntime) -> Result<(), Fail> {
    assert_eq!(rt; size_of::<RbgTests>(), 24);
    let mut tests = RbgTests {
        rct: 0,
        run: 0,
        place: 0,
        alarm: 0,
        window: 0,
        apt: 0,
        equal: 0,
        last: 0,
        first: 0,
    };
    let (mut cutoff, mut at) = (0, 0);
    assert_eq!(rt; rbg_rct_cutoff(20, 8, 1, &mut cutoff), 0);
    assert_eq!(rt; cutoff, 4);
    assert_eq!(rt; rbg_tests_begin(&mut tests, cutoff, 512, 257), 0);
    assert_eq!(rt; rbg_tests_step(&mut tests, 7), 0);
    assert_eq!(rt; rbg_tests_step_all(&mut tests, &[7, 7, 7, 7], &mut at), 15);
    assert_eq!(rt; at, 2);
    Ok(())
}
