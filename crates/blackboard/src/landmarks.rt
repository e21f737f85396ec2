// Published codes of the six known formats, there and back: the ends of the subnormal and of the normal
// range, 1 and what is beside it, the nearest to 1/3 and to pi, infinity, and some with the other sign.
// tests/worked_examples.py has the numbers that are published of them. Then NaNs, in eight bits and in 64.
use crate::Failure;
use crate::packing::unpack_each;
use known::known_format;
use std::fmt;

const BINARY16: [u64; 20] = [
    0x0000, 0x0001, 0x03FF, 0x0400, 0x3555, 0x3BFF, 0x3C00, 0x3C01, 0x7BFF, 0x7C00, 0x8000, 0x8001,
    0x83FF, 0x8400, 0xB555, 0xBBFF, 0xBC00, 0xBC01, 0xFBFF, 0xFC00,
];

const BFLOAT16: [u64; 11] = [
    0x0001, 0x007F, 0x0080, 0x3EAB, 0x3F80, 0x3F81, 0x4049, 0x7F7F, 0x7F80, 0x8000, 0xC000,
];

const TENSORFLOAT32: [u64; 8] = [
    0x0_0001, 0x0_03FF, 0x0_0400, 0x1_FC00, 0x1_FC01, 0x3_FBFF, 0x3_FC00, 0x4_0000,
];

const BINARY32: [u64; 12] = [
    0x0000_0001,
    0x007F_FFFF,
    0x0080_0000,
    0x3EAA_AAAB,
    0x3F7F_FFFF,
    0x3F80_0000,
    0x3F80_0001,
    0x4049_0FDB,
    0x7F7F_FFFF,
    0x7F80_0000,
    0x8000_0000,
    0xC000_0000,
];

const BINARY64: [u64; 14] = [
    0x0000_0000_0000_0001,
    0x000F_FFFF_FFFF_FFFF,
    0x0010_0000_0000_0000,
    0x3FD5_5555_5555_5555,
    0x3FF0_0000_0000_0000,
    0x3FF0_0000_0000_0001,
    0x4009_21FB_5444_2D18,
    0x7FEF_FFFF_FFFF_FFFF,
    0x7FF0_0000_0000_0000,
    0x8000_0000_0000_0000,
    0xC000_0000_0000_0000,
    // NaNs; in 64 bits no code is too large
    0x7FF0_0000_0000_0001,
    0xFFF8_0000_0000_0001,
    0xFFFF_FFFF_FFFF_FFFF,
];

const E5M2: [u64; 15] = [
    0x01, 0x03, 0x04, 0x3C, 0x3D, 0x7B, 0x7C, 0x80, 0x81, 0xFB,
    // NaNs
    0x7D, 0x7E, 0x7F, 0xFD, 0xFF,
];

// By the formats' numbers.
pub(crate) fn published(text: &mut impl fmt::Write) -> Result<(), Failure> {
    let tables: [&[u64]; 6] = [
        &BINARY16,
        &BFLOAT16,
        &TENSORFLOAT32,
        &BINARY32,
        &BINARY64,
        &E5M2,
    ];
    for (known, codes) in (0..6).zip(tables) {
        unpack_each(text, known_format(known)?, codes)?;
    }
    Ok(())
}
