// Packing and unpacking: NaNs, what is refused, and which formats have a code.
use crate::Failure;
use crate::rows::{print_packed, print_unpacked};
use grid::Format;
use known::known_format;
use std::fmt;

// 1, and the next number of binary64.
const ONE: u64 = 0x3FF0_0000_0000_0000;

const AFTER_ONE: u64 = 0x3FF0_0000_0000_0001;

// Quiet and signalling NaNs of both signs, with several fractions.
const NANS: [u64; 6] = [
    0x7FF8_0000_0000_0000,
    0x7FF0_0000_0000_0001,
    0x7FF7_FFFF_FFFF_FFFF,
    0x7FFF_FFFF_FFFF_FFFF,
    0xFFF8_0000_0000_0001,
    0xFFF0_0200_0000_0000,
];

// What binary16 lacks.
const LACKING: [u64; 9] = [
    // above its largest number: 65520, 2 · 2^emax, and binary64's largest
    0x40EF_FE00_0000_0000,
    0x40F0_0000_0000_0000,
    0x7FEF_FFFF_FFFF_FFFF,
    // half a step above 1
    0x3FF0_0200_0000_0000,
    // one and a half times zeta, and half of it
    0x3E78_0000_0000_0000,
    0x3E60_0000_0000_0000,
    // half a zeta below the smallest normal number
    0x3F0F_FC00_0000_0000,
    // binary64's smallest
    0x0000_0000_0000_0001,
    // a negative one
    0xC0EF_FE00_0000_0000,
];

// Where binary16's normal range ends, and below.
const SMALL: [u64; 7] = [
    // zeros and the smallest normal number, which are there without subnormals too
    0x0000_0000_0000_0000,
    0x8000_0000_0000_0000,
    0x3F10_0000_0000_0000,
    0xBF10_0000_0000_0000,
    // the largest subnormal number and the smallest
    0x3F0F_F800_0000_0000,
    0xBF0F_F800_0000_0000,
    0x3E70_0000_0000_0000,
];

// Writes the code of each pattern.
fn pack_each(text: &mut impl fmt::Write, format: Format, xs: &[u64]) -> fmt::Result {
    for x in xs {
        print_packed(text, format, *x)?;
    }
    Ok(())
}

// Writes the pattern of each code and, unless it is refused, the code of that pattern.
pub(crate) fn unpack_each(
    text: &mut impl fmt::Write,
    format: Format,
    codes: &[u64],
) -> fmt::Result {
    for c in codes {
        if let Ok(pattern) = print_unpacked(text, format, *c)? {
            print_packed(text, format, pattern)?;
        }
    }
    Ok(())
}

// NaNs, to eight bits and to 64.
pub(crate) fn nans(text: &mut impl fmt::Write) -> Result<(), Failure> {
    pack_each(text, known_format(5)?, &NANS)?;
    pack_each(text, known_format(4)?, &NANS)?;
    Ok(())
}

// 8: a pattern that the format lacks. 9: a code with more than k bits.
pub(crate) fn lacking(text: &mut impl fmt::Write) -> Result<(), Failure> {
    let f = known_format(0)?;
    pack_each(text, f, &LACKING)?;
    unpack_each(text, f, &[0x1_0000, 0x1_3C00, u64::MAX])?;
    Ok(())
}

// Without subnormals, 10: a code that is no number. 9 comes before it.
pub(crate) fn without_subnormals(text: &mut impl fmt::Write) -> Result<(), Failure> {
    let without = Format {
        sub: false,
        ..known_format(0)?
    };
    pack_each(text, without, &SMALL)?;
    unpack_each(text, without, &[0x0000, 0x0001, 0x03FF, 0x0400])?;
    unpack_each(text, without, &[0x8000, 0x8001, 0x83FF, 0x8400, 0x1_0001])?;
    Ok(())
}

// Which formats have a code, and by which number the others are refused; 8 and 9 come after these. Writes the
// codes of 1 and of the number after it in each format, and the patterns of code 1 and of the last 64-bit
// number.
pub(crate) fn formats(text: &mut impl fmt::Write) -> fmt::Result {
    let ranges = [
        (2, 1),
        (2, 1023),
        (11, 1),
        (11, 127),
        (11, 1023),
        (53, 1),
        (53, 511),
        (53, 1023),
        // 1: p
        (0, 15),
        (1, 15),
        (1, 100),
        (1, 1024),
        (54, 15),
        (u64::MAX, 15),
        // 2: emax
        (11, 0),
        (11, 1024),
        (11, 2047),
        (11, u64::MAX),
        // 7: emax + 1 is no power of two
        (11, 2),
        (11, 14),
        (11, 100),
        (11, 1022),
    ];
    for (p, emax) in ranges {
        let format = Format { p, emax, sub: true };
        pack_each(text, format, &[ONE, AFTER_ONE])?;
        for c in [1, u64::MAX] {
            let _ = print_unpacked(text, format, c)?;
        }
    }
    Ok(())
}
