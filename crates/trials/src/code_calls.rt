// Calls that pack and unpack whole arrays, accepted and refused.
use crate::Failure;
use crate::text::{Outcome, Patterns, Settings};
use arrays::{pack_array, unpack_array};
use grid::Format;
use known::known_format;
use std::fmt;

// 2^-14, minus zero and a NaN with a payload.
const PATTERNS: [u64; 3] = [
    0x3F10_0000_0000_0000,
    0x8000_0000_0000_0000,
    0xFFF0_0000_0000_0001,
];

// 1, then 2^16, which binary16 lacks, and the smallest input of all.
const LACKED: [u64; 3] = [0x3FF0_0000_0000_0000, 0x40F0_0000_0000_0000, 1];

// Codes of binary16: a subnormal number, a NaN and minus zero.
const CODES: [u64; 3] = [0x03FF, 0x7C01, 0x8000];

// xmax, then a code of 17 bits whose fields are no number without subnormals, and one that is such.
const WIDE: [u64; 3] = [0x7BFF, 0x1_0001, 0x0001];

// The same, the other way round.
const NO_NUMBER: [u64; 3] = [0x7BFF, 0x0001, 0x1_0001];

// What is done with an array.
#[derive(Clone, Copy)]
enum Call {
    Pack,
    Unpack,
}

impl fmt::Display for Call {
    fn fmt<W: fmt::Write>(&self, f: &mut fmt::Formatter<W>) -> fmt::Result {
        f.write_str(match self {
            Call::Pack => "pack",
            Call::Unpack => "unpack",
        })
    }
}

// Writes a call, what is lent to it, and what comes of it.
fn print_call(
    text: &mut impl fmt::Write,
    call: Call,
    format: Format,
    given: &[u64],
    out: &mut [u64],
) -> fmt::Result {
    write!(
        text,
        "{call} {} given={} held={}",
        Settings(format),
        Patterns(given),
        Patterns(out)
    )?;
    let answer = match call {
        Call::Pack => pack_array(format, given, out),
        Call::Unpack => unpack_array(format, given, out),
    };
    writeln!(text, " {}", Outcome { answer, out })
}

// Packs an array and unpacks another, each with an output that holds three numbers.
fn print_both(
    text: &mut impl fmt::Write,
    format: Format,
    xs: &[u64],
    codes: &[u64],
) -> fmt::Result {
    for (call, given) in [(Call::Pack, xs), (Call::Unpack, codes)] {
        print_call(text, call, format, given, &mut [0xB1, 0xB2, 0xB3])?;
    }
    Ok(())
}

// The same arrays in every known format.
pub(crate) fn in_known_formats(text: &mut impl fmt::Write) -> Result<(), Failure> {
    for known in 0..6 {
        print_both(text, known_format(known)?, &PATTERNS, &CODES)?;
    }
    Ok(())
}

// Nothing to pack or unpack.
pub(crate) fn of_nothing(text: &mut impl fmt::Write) -> Result<(), Failure> {
    let f = known_format(0)?;
    print_call(text, Call::Pack, f, &[], &mut [])?;
    print_call(text, Call::Unpack, f, &[], &mut [])?;
    Ok(())
}

// 8, 9 and 10 at the lowest bad index, with and without subnormals; 9 comes before 10 at one index.
pub(crate) fn refused_entries(text: &mut impl fmt::Write) -> Result<(), Failure> {
    let binary16 = known_format(0)?;
    print_both(text, binary16, &LACKED, &WIDE)?;
    let without = Format {
        sub: false,
        ..binary16
    };
    print_both(text, without, &LACKED, &WIDE)?;
    print_both(text, without, &[1, 0, 1], &NO_NUMBER)?;
    Ok(())
}

// 1, 2, 7 and 5, each before those that follow: the arrays are not as long as the output, and their
// entries bad.
pub(crate) fn refused_calls(text: &mut impl fmt::Write) -> Result<(), Failure> {
    let binary16 = known_format(0)?;
    let above = Format {
        emax: 1024,
        ..binary16
    };
    let formats = [
        Format { p: 54, ..above },
        above,
        Format {
            emax: 100,
            ..binary16
        },
        binary16,
    ];
    for format in formats {
        print_both(text, format, &[1, 1, 1, 1], &[0x1_0000, 0x1_0000])?;
    }
    Ok(())
}
