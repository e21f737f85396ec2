// The answers to telling inputs, a table a subject.
use crate::Failure;
use crate::rows::{print_answers, print_draw};
use grid::Format;
use known::known_format;
use std::fmt;

// Ties in binary16, beside an even and an odd m, and one last place of binary64 on either side.
const NEAR_ONE: [u64; 9] = [
    0x3FF0_01FF_FFFF_FFFF,
    0x3FF0_0200_0000_0000,
    0x3FF0_0200_0000_0001,
    0x3FF0_0300_0000_0000,
    0x3FF0_0400_0000_0000,
    0x3FF0_0600_0000_0000,
    // a carry out of the fraction
    0x3FFF_FE00_0000_0000,
    // negative numbers
    0xBFF0_0200_0000_0000,
    0xBFF0_0300_0000_0000,
];

// binary16's largest number, 65520, which is half a step above it, T, and binary64's largest number.
const NEAR_THE_TOP: [u64; 9] = [
    0x40EF_FC00_0000_0000,
    0x40EF_FC00_0000_0001,
    0x40EF_FDFF_FFFF_FFFF,
    0x40EF_FE00_0000_0000,
    0x40EF_FFFF_FFFF_FFFF,
    0x40F0_0000_0000_0000,
    0x7FEF_FFFF_FFFF_FFFF,
    0xC0EF_FE00_0000_0000,
    0xFFEF_FFFF_FFFF_FFFF,
];

// Below binary16's normal range: the smallest input of all, half of zeta, one and a half and two and a
// half times zeta, and half a zeta below the smallest normal number.
const NEAR_ZETA: [u64; 9] = [
    0x0000_0000_0000_0001,
    0x3E5F_FFFF_FFFF_FFFF,
    0x3E60_0000_0000_0000,
    0x3E60_0000_0000_0001,
    0x3E78_0000_0000_0000,
    0x3E84_0000_0000_0000,
    0x3F0F_FC00_0000_0000,
    // an answer that became zero keeps its sign
    0xBE60_0000_0000_0000,
    0x8000_0000_0000_0001,
];

// The same places without subnormals, where zeta is the smallest normal number.
const WITHOUT_SUBNORMALS: [u64; 5] = [
    0x3EFF_FFFF_FFFF_FFFF,
    0x3F00_0000_0000_0000,
    0x3F00_0000_0000_0001,
    0x3F0F_FFFF_FFFF_FFFF,
    0xBF00_0000_0000_0000,
];

// Inputs that are binary64's own subnormals.
const SOURCE_SUBNORMALS: [u64; 5] = [
    0x0000_0000_1000_0000,
    0x0000_0000_1000_0001,
    0x0000_0000_3000_0000,
    0x000F_FFFF_FFFF_FFFF,
    0x8000_0000_0000_0001,
];

// NaN, quiet and signalling, infinities and zeros.
const UNALTERED: [u64; 6] = [
    0x7FF8_0000_0000_0001,
    0xFFF0_0000_0000_0001,
    0x7FF0_0000_0000_0000,
    0xFFF0_0000_0000_0000,
    0x0000_0000_0000_0000,
    0x8000_0000_0000_0000,
];

// A format by its settings.
fn format(p: u64, emax: u64, sub: bool) -> Format {
    Format { p, emax, sub }
}

// Writes the answers to each input.
fn answer_each(text: &mut impl fmt::Write, format: Format, xs: &[u64]) -> fmt::Result {
    for x in xs {
        print_answers(text, format, *x)?;
    }
    Ok(())
}

// Around 1, at the top, and below the normal range.
pub(crate) fn in_binary16(text: &mut impl fmt::Write) -> Result<(), Failure> {
    let f = known_format(0)?;
    answer_each(text, f, &NEAR_ONE)?;
    answer_each(text, f, &NEAR_THE_TOP)?;
    answer_each(text, f, &NEAR_ZETA)?;
    Ok(())
}

// Without subnormals, in binary16 and in binary64; and binary64's own subnormals, to 24 digits and to
// binary64 itself.
pub(crate) fn of_subnormals(text: &mut impl fmt::Write) -> Result<(), Failure> {
    answer_each(text, format(11, 15, false), &WITHOUT_SUBNORMALS)?;
    answer_each(
        text,
        format(53, 1023, false),
        &[0x0008_0000_0000_0000, 0x8000_0000_0000_0001],
    )?;
    answer_each(text, format(24, 1023, true), &SOURCE_SUBNORMALS)?;
    answer_each(text, known_format(4)?, &[1, 0x000F_FFFF_FFFF_FFFF])?;
    Ok(())
}

// The fewest and the most digits, and the smallest and the largest emax.
pub(crate) fn ends_of_the_range(text: &mut impl fmt::Write) -> fmt::Result {
    answer_each(
        text,
        format(2, 15, true),
        &[0x3FF4_0000_0000_0000, 0x3FFC_0000_0000_0000],
    )?;
    answer_each(text, format(53, 15, true), &[0x3FF0_0000_0000_0001])?;
    answer_each(
        text,
        format(11, 1, true),
        &[0x400F_FE00_0000_0000, 0x4010_0000_0000_0000],
    )?;
    answer_each(
        text,
        format(11, 1023, true),
        &[0x7FEF_FE00_0000_0000, 0x7FEF_FFFF_FFFF_FFFF],
    )
}

// What comes back as it is.
pub(crate) fn unaltered(text: &mut impl fmt::Write) -> Result<(), Failure> {
    answer_each(text, known_format(0)?, &UNALTERED)?;
    Ok(())
}

// Document 01's job, between 3 and 3.25, and the most random bits: K is 2048 of 2^53.
pub(crate) fn job(text: &mut impl fmt::Write) -> Result<(), Failure> {
    let f = format(4, 15, true);
    for word in [4, 5, 13] {
        print_draw(text, f, 3, word, 0x4008_C000_0000_0000)?;
    }
    let g = known_format(0)?;
    for word in [0x001F_FFFF_FFFF_F7FF, 0x001F_FFFF_FFFF_F800] {
        print_draw(text, g, 53, word, 0x3FF0_0000_0000_0001)?;
    }
    Ok(())
}
