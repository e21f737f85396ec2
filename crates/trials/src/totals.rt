// One input rounded in mode 7 with each random number once, and what the answers add up to.
ghost use Rattle.std.specs.Prelude.{◌≤◌};

use crate::Failure;
use crate::text::{Patterns, Rounding};
use arrays::round_array;
use grid::Format;
use known::known_format;
use patterns::{exponent_of, magnitude_of, significand_of};
use places::{high_part, moved_up};
use reports::Report;
use std::fmt;

// The random numbers of four bits; those of r bits are the first 2^r of them.
const NUMBERS: [u64; 16] = [0, 1, 2, 3, 4, 5, 6, 7, 8, 9, 10, 11, 12, 13, 14, 15];

// The inputs of each format, with the place of the last kept digit in the significand.
// binary16: three quarters of a step above 1, a long negative tail, a carry into the next binade, and
// xmax, which stays; then among the subnormals, and below zeta.
const OF_BINARY16: [(u64, u64); 7] = [
    (0x3FF0_0300_0000_0000, 42),
    (0xBFF0_0123_4567_89AB, 42),
    (0x3FFF_FFFF_FFFF_FFFF, 42),
    (0x40EF_FC00_0000_0000, 42),
    (0x3F0F_FE70_0000_0000, 43),
    (0x3E78_0000_0000_0000, 52),
    (0x3E6C_0000_0000_0000, 53),
];

// bfloat16: a normal number, a subnormal one, and one below zeta.
const OF_BFLOAT16: [(u64, u64); 3] = [
    (0x3FF0_A800_0000_0000, 45),
    (0x37B4_8000_0000_0000, 51),
    (0xB79C_0000_0000_0000, 53),
];

// E5M2: a normal number, one below xmax, and a subnormal one.
const OF_E5M2: [(u64, u64); 3] = [
    (0x3FF5_0000_0000_0000, 50),
    (0xC0EA_8000_0000_0000, 50),
    (0x3EFB_0000_0000_0000, 52),
];

// The magnitude of y in units of 2^unit; a zero has none of them, whatever the unit.
fn units_of(y: u64, unit: u64) -> u64 {
    let m = magnitude_of(y);
    moved_up(significand_of(m), exponent_of(m).wrapping_sub(unit))
}

// The sum of the magnitudes in units of 2^unit.
fn sum_of(ys: &[u64], unit: u64) -> u64 {
    ys.iter()
        .fold(0u64, |sum, y| sum.wrapping_add(units_of(*y, unit)))
}

// 2^r times the input chopped r bits beyond the place d, in units of its own last digit: the digits
// from r places below d on, moved up so that the last of them stands at d.
fn chopped(x: u64, r: u64, d: u64) -> u64 {
    let n = significand_of(magnitude_of(x));
    moved_up(high_part(n, d.wrapping_sub(r)), d)
}

// Rounds x with each of the 2^r random numbers, which are N, and writes the answers, what they add up to,
// what they have to, where d is the place of the last kept digit in the significand of x, and whether the
// two are the same.
fn print_total<const N: usize>(
    text: &mut impl fmt::Write,
    format: Format,
    r: u64,
    x: u64,
    d: u64,
) -> fmt::Result
    requires { N ≤ 16 }
{
    let call = Rounding { format, mode: 7, r };
    let mut ys = [0; N];
    let answer = round_array(format, call.mode, r, &NUMBERS, &[x; N], &mut ys);
    let Report { number, .. } = Report::from(answer);
    let sum = sum_of(&ys, exponent_of(magnitude_of(x)));
    let due = chopped(x, r, d);
    let same = u64::from(sum == due);
    writeln!(
        text,
        "{call} x={x:016x} number={number} sum={sum:016x} chopped={due:016x} same={same} y={}",
        Patterns(&ys)
    )
}

// The totals of each input with one to four random bits, so with 2, 4, 8 and 16 random numbers.
fn print_totals(text: &mut impl fmt::Write, format: Format, inputs: &[(u64, u64)]) -> fmt::Result {
    for &(x, d) in inputs {
        print_total::<2>(text, format, 1, x, d)?;
        print_total::<4>(text, format, 2, x, d)?;
        print_total::<8>(text, format, 3, x, d)?;
        print_total::<16>(text, format, 4, x, d)?;
    }
    Ok(())
}

// The inputs of the three known formats, each in its own.
pub(crate) fn in_known_formats(text: &mut impl fmt::Write) -> Result<(), Failure> {
    print_totals(text, known_format(0)?, &OF_BINARY16)?;
    print_totals(text, known_format(1)?, &OF_BFLOAT16)?;
    print_totals(text, known_format(5)?, &OF_E5M2)?;
    Ok(())
}

// Below zeta without subnormals, and an input that is one of binary64's own subnormals.
pub(crate) fn in_other_formats(text: &mut impl fmt::Write) -> fmt::Result {
    let without = Format {
        p: 11,
        emax: 15,
        sub: false,
    };
    print_totals(text, without, &[(0x3F08_0000_0000_0000, 53)])?;
    let wide = Format {
        p: 24,
        emax: 1023,
        sub: true,
    };
    print_totals(text, wide, &[(0x0000_0000_1700_0000, 29)])
}
