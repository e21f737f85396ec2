// Every code of a format there and back.
use crate::Failure;
use crate::rows::Settings;
use codes::{pack_one, unpack_one};
use grid::Format;
use known::known_format;
use patterns::INFINITY;
use refusals::Refusal;
use std::fmt;

// What has come of the codes so far.
#[derive(Clone, Copy, Default)]
struct Tally {
    // codes refused as no number
    refused: u64,
    // codes that came back as they were
    back: u64,
    // codes that came back as the quiet NaN of their sign
    quiet: u64,
    // patterns not above infinity that are above the one before
    ordered: u64,
    // patterns whose next one in binary64 the format lacks
    alone: u64,
    // all patterns in one number: turned up by one bit before each is added, modulo 2^64
    mix: u64,
    // the last pattern
    last: u64,
}

impl fmt::Display for Tally {
    fn fmt<W: fmt::Write>(&self, f: &mut fmt::Formatter<W>) -> fmt::Result {
        let Tally {
            refused,
            back,
            quiet,
            ordered,
            alone,
            mix,
            last: _,
        } = *self;
        write!(f, "refused={refused} back={back} quiet={quiet} ")?;
        write!(f, "ordered={ordered} alone={alone} y={mix:016x}")
    }
}

// Counts one more where the test holds.
fn count(counter: &mut u64, holds: bool) {
    *counter = counter.wrapping_add(u64::from(holds));
}

impl Tally {
    // One code more; nan is the code of the quiet NaN of its sign.
    fn add(&mut self, format: Format, nan: u64, c: u64) {
        let there = unpack_one(format, c);
        let x = there.unwrap_or(0);
        let back = pack_one(format, x);
        let next = pack_one(format, x.wrapping_add(1));
        count(&mut self.refused, there == Err(Refusal::NoNumber));
        count(&mut self.back, back == Ok(c));
        count(&mut self.quiet, back == Ok(nan));
        count(&mut self.ordered, self.last < x && x <= INFINITY);
        count(
            &mut self.alone,
            there.is_ok() && next == Err(Refusal::NotInFormat),
        );
        self.mix = self.mix.rotate_left(1).wrapping_add(x);
        self.last = x;
    }
}

// Writes what all codes of a format come to, which are those below a power of two; nan is the code of the
// quiet NaN without a sign.
fn print_sweep(text: &mut impl fmt::Write, format: Format, codes: u64, nan: u64) -> fmt::Result {
    let mut tally = Tally::default();
    for c in 0..codes {
        tally.add(format, nan | (c & (codes / 2)), c);
    }
    writeln!(text, "{} codes={codes} {tally}", Settings(format))
}

// binary16 with subnormals and without, bfloat16, E5M2, and the narrowest format of all.
pub(crate) fn all_codes(text: &mut impl fmt::Write) -> Result<(), Failure> {
    let f = known_format(0)?;
    print_sweep(text, f, 0x1_0000, 0x7E00)?;
    print_sweep(text, Format { sub: false, ..f }, 0x1_0000, 0x7E00)?;
    print_sweep(text, known_format(1)?, 0x1_0000, 0x7FC0)?;
    print_sweep(text, known_format(5)?, 0x100, 0x7E)?;
    print_sweep(text, Format { p: 2, emax: 1, ..f }, 0x10, 0x7)?;
    Ok(())
}
