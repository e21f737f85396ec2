// Array calls: what is reported, and what the output held before and holds afterwards.
use crate::Failure;
use crate::text::{Outcome, Patterns, Rounding};
use arrays::round_array;
use grid::Format;
use known::known_format;
use std::fmt;

// A tie, a negative number between two candidates, a number below zeta, an infinity and a NaN.
const FIVE: [u64; 5] = [
    0x3FF0_0200_0000_0000,
    0xBFF0_0300_0000_0000,
    0x3E60_0000_0000_0001,
    0xFFF0_0000_0000_0000,
    0x7FF0_0000_0000_0001,
];

// Writes a call, what is lent to it, and what comes of it.
fn print_array(
    text: &mut impl fmt::Write,
    call: Rounding,
    words: &[u64],
    xs: &[u64],
    out: &mut [u64],
) -> fmt::Result {
    write!(
        text,
        "{call} w={} x={} held={}",
        Patterns(words),
        Patterns(xs),
        Patterns(out)
    )?;
    let answer = round_array(call.format, call.mode, call.r, words, xs, out);
    writeln!(text, " {}", Outcome { answer, out })
}

// The same with five patterns, and an output that holds five numbers.
fn print_five(text: &mut impl fmt::Write, call: Rounding, words: &[u64]) -> fmt::Result {
    let mut out = [0xA1, 0xA2, 0xA3, 0xA4, 0xA5];
    print_array(text, call, words, &FIVE, &mut out)
}

// The same with no words and an output of one number, which is too short.
fn print_too_short(text: &mut impl fmt::Write, call: Rounding) -> fmt::Result {
    let mut out = [0xA1];
    print_array(text, call, &[], &FIVE, &mut out)
}

// The call with these settings.
fn rounding(format: Format, mode: u64, r: u64) -> Rounding {
    Rounding { format, mode, r }
}

// Nothing to round.
pub(crate) fn of_nothing(text: &mut impl fmt::Write, words: &[u64]) -> Result<(), Failure> {
    let f = known_format(0)?;
    print_array(text, rounding(f, 0, 0), &[], &[], &mut [])?;
    print_array(text, rounding(f, 7, 2), &[], &[], &mut [])?;
    print_array(text, rounding(f, 8, 0), words, &[], &mut [])?;
    Ok(())
}

// One pattern to round.
pub(crate) fn of_one(text: &mut impl fmt::Write) -> Result<(), Failure> {
    let f = known_format(0)?;
    let mut out = [0xA1];
    let tie = [0x3FF0_0200_0000_0000];
    print_array(text, rounding(f, 2, 0), &[], &tie, &mut out)?;
    let between = [0x3FF0_0300_0000_0000];
    print_array(text, rounding(f, 7, 2), &[1], &between, &mut out)?;
    Ok(())
}

// Words and an r that are not looked at.
pub(crate) fn not_looked_at(text: &mut impl fmt::Write, words: &[u64]) -> Result<(), Failure> {
    let f = known_format(0)?;
    print_five(text, rounding(f, 0, 54), &[])?;
    print_five(text, rounding(f, 8, 54), words)?;
    Ok(())
}

// Five patterns in every mode, with two random bits and more words than needed.
pub(crate) fn in_every_mode(text: &mut impl fmt::Write, words: &[u64]) -> Result<(), Failure> {
    let f = known_format(0)?;
    for mode in 0..9 {
        print_five(text, rounding(f, mode, 2), words)?;
    }
    Ok(())
}

// Each refusal by the numbers: the output holds what it held.
pub(crate) fn refused(text: &mut impl fmt::Write, words: &[u64]) -> Result<(), Failure> {
    let f = known_format(0)?;
    let calls = [
        // 1: p
        rounding(Format { p: 1, ..f }, 0, 0),
        // 2: emax
        rounding(Format { emax: 1024, ..f }, 0, 0),
        // 3: the mode
        rounding(f, 9, 0),
        // 4: r in mode 7
        rounding(f, 7, 54),
    ];
    for call in calls {
        print_five(text, call, words)?;
    }
    Ok(())
}

// By the lengths.
pub(crate) fn refused_lengths(text: &mut impl fmt::Write) -> Result<(), Failure> {
    let f = known_format(0)?;
    // 5: an output that is too short, and one that is too long
    print_too_short(text, rounding(f, 0, 0))?;
    let mut out = [0xA1, 0xA2];
    let tie = [0x3FF0_0200_0000_0000];
    print_array(text, rounding(f, 0, 0), &[], &tie, &mut out)?;
    // 6: no words, and one too few
    print_five(text, rounding(f, 8, 0), &[])?;
    let two = [0x3FF0_0200_0000_0000, 0x3FF0_0300_0000_0000];
    print_array(text, rounding(f, 7, 2), &[3], &two, &mut out)?;
    Ok(())
}

// The first refusal that applies: those that come after it would apply too.
pub(crate) fn refused_first(text: &mut impl fmt::Write) -> Result<(), Failure> {
    let f = known_format(0)?;
    let no_exponent = Format { emax: 0, ..f };
    let calls = [
        rounding(
            Format {
                p: 54,
                ..no_exponent
            },
            9,
            0,
        ),
        rounding(no_exponent, 9, 0),
        rounding(f, 9, 0),
        rounding(f, 7, 0),
        rounding(f, 7, 1),
    ];
    for call in calls {
        print_too_short(text, call)?;
    }
    Ok(())
}
