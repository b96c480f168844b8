// Constants, each in a `const`, so that proofs see the list.

// The powers of x in the field, from x ^ 0 on: the first bytes of the round constants (FIPS 197, 5.2).
pub(crate) const RCON: [u8; 10] = [0x01, 0x02, 0x04, 0x08, 0x10, 0x20, 0x40, 0x80, 0x1b, 0x36];

// What the lower, and what the upper half of a byte gives to its two halves over GF(16).
pub(crate) const IN_LOW: [u8; 16] = [0, 1, 95, 94, 19, 18, 76, 77, 17, 16, 78, 79, 2, 3, 93, 92];

pub(crate) const IN_HIGH: [u8; 16] = [
    0, 201, 239, 38, 205, 4, 34, 235, 46, 231, 193, 8, 227, 42, 12, 197,
];

// The inverse in GF(16), and the quotient of a constant by it. 128 stands for the inverse of 0.
pub(crate) const INVERSE: [u8; 16] = [128, 1, 8, 13, 15, 6, 5, 14, 2, 12, 11, 10, 9, 3, 7, 4];

pub(crate) const SHARE: [u8; 16] = [128, 12, 13, 11, 5, 4, 6, 9, 14, 7, 15, 3, 1, 2, 8, 10];

// What the two halves of the inverse give to the byte, after the linear part of the affine map.
pub(crate) const OUT_FIRST: [u8; 16] = [
    0, 177, 64, 128, 121, 136, 192, 200, 249, 49, 8, 185, 241, 72, 57, 113,
];

pub(crate) const OUT_SECOND: [u8; 16] = [
    0, 211, 115, 174, 148, 52, 221, 71, 58, 125, 154, 73, 160, 233, 231, 14,
];
