// A line of the text: a call with its number and answer, or the answers to one input in all modes. No
// contract can say what is written: the program's whole text is compared with the stored one.
use codes::{pack_one, unpack_one};
use grid::Format;
use refusals::Refusal;
use rounding::round_one;
use std::fmt;

// Half a step above 1 in binary16: no accepted call answers 0 to it.
const TIE: u64 = 0x3FF0_0200_0000_0000;

// The modes that an input is rounded in, each with r and a word: modes 0 to 6; mode 7 with two random bits,
// by each of the four words; and mode 8 by an even word and an odd one.
const CALLS: [(u64, u64, u64); 13] = [
    (0, 0, 0),
    (1, 0, 0),
    (2, 0, 0),
    (3, 0, 0),
    (4, 0, 0),
    (5, 0, 0),
    (6, 0, 0),
    (7, 2, 0),
    (7, 2, 1),
    (7, 2, 2),
    (7, 2, 3),
    (8, 0, 0),
    (8, 0, 1),
];

// The settings of a format; sub is 1 for on, and 0 for off. The other program that prints them has its own (decision 35).
#[derive(Clone, Copy)]
pub(crate) struct Settings(pub Format);

impl fmt::Display for Settings {
    fn fmt<W: fmt::Write>(&self, f: &mut fmt::Formatter<W>) -> fmt::Result {
        let Format { p, emax, sub } = self.0;
        write!(f, "p={p} emax={emax} sub={}", u64::from(sub))
    }
}

// What a call answers: number 0 and a pattern or code, or the refusal's number and 0.
#[derive(Clone, Copy)]
struct Outcome(Result<u64, Refusal>);

impl fmt::Display for Outcome {
    fn fmt<W: fmt::Write>(&self, f: &mut fmt::Formatter<W>) -> fmt::Result {
        let (number, answer) = match self.0 {
            Ok(answer) => (0, answer),
            Err(refusal) => (refusal.number(), 0),
        };
        write!(f, "number={number} y={answer:016x}")
    }
}

// Writes the settings of a call that rounds, and what it answers.
pub(crate) fn print_call(
    text: &mut impl fmt::Write,
    p: u64,
    emax: u64,
    mode: u64,
    r: u64,
) -> fmt::Result {
    let outcome = Outcome(round_one(Format { p, emax, sub: true }, mode, r, 0, TIE));
    writeln!(text, "p={p} emax={emax} mode={mode} r={r} {outcome}")
}

// Writes an input and the answers to it in all modes, 0 for one that is refused.
pub(crate) fn print_answers(text: &mut impl fmt::Write, format: Format, x: u64) -> fmt::Result {
    write!(text, "{} x={x:016x} y=", Settings(format))?;
    for (mode, r, word) in CALLS {
        let y = round_one(format, mode, r, word, x).unwrap_or(0);
        write!(text, " {y:016x}")?;
    }
    writeln!(text)
}

// Writes the answer of mode 7 with r random bits, 0 if it is refused.
pub(crate) fn print_draw(
    text: &mut impl fmt::Write,
    format: Format,
    r: u64,
    word: u64,
    x: u64,
) -> fmt::Result {
    let y = round_one(format, 7, r, word, x).unwrap_or(0);
    writeln!(
        text,
        "{} r={r} w={word:016x} x={x:016x} y= {y:016x}",
        Settings(format)
    )
}

// Writes a pattern, and what its packing answers.
pub(crate) fn print_packed(text: &mut impl fmt::Write, format: Format, x: u64) -> fmt::Result {
    let outcome = Outcome(pack_one(format, x));
    writeln!(text, "{} pack={x:016x} {outcome}", Settings(format))
}

// Writes a code, and what its unpacking answers; answers the same.
pub(crate) fn print_unpacked(
    text: &mut impl fmt::Write,
    format: Format,
    c: u64,
) -> Result<Result<u64, Refusal>, fmt::Error> {
    let outcome = unpack_one(format, c);
    writeln!(
        text,
        "{} unpack={c:016x} {}",
        Settings(format),
        Outcome(outcome)
    )?;
    Ok(outcome)
}
