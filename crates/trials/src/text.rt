// What is written often. No contract can say what is written: the program's whole text is compared with
// the stored one.
use grid::Format;
use reports::{Refused, Report};
use std::fmt;

// The settings of a format; sub is 1 for on, and 0 for off. The other program that prints them has its own (decision 35).
#[derive(Clone, Copy)]
pub(crate) struct Settings(pub Format);

impl fmt::Display for Settings {
    fn fmt<W: fmt::Write>(&self, f: &mut fmt::Formatter<W>) -> fmt::Result {
        let Format { p, emax, sub } = self.0;
        write!(f, "p={p} emax={emax} sub={}", u64::from(sub))
    }
}

// The settings of a call that rounds.
#[derive(Clone, Copy)]
pub(crate) struct Rounding {
    pub format: Format,
    pub mode: u64,
    pub r: u64,
}

impl fmt::Display for Rounding {
    fn fmt<W: fmt::Write>(&self, f: &mut fmt::Formatter<W>) -> fmt::Result {
        let settings = Settings(self.format);
        write!(f, "{settings} mode={} r={}", self.mode, self.r)
    }
}

// Patterns or codes in sixteen hexadecimal digits each, a blank before each.
#[derive(Clone, Copy)]
pub(crate) struct Patterns<'a>(pub &'a [u64]);

impl fmt::Display for Patterns<'_> {
    fn fmt<W: fmt::Write>(&self, f: &mut fmt::Formatter<W>) -> fmt::Result {
        for pattern in self.0 {
            write!(f, " {pattern:016x}")?;
        }
        Ok(())
    }
}

// What came of a call, and what the output holds now.
#[derive(Clone, Copy)]
pub(crate) struct Outcome<'a> {
    pub answer: Result<(), Refused>,
    pub out: &'a [u64],
}

impl fmt::Display for Outcome<'_> {
    fn fmt<W: fmt::Write>(&self, f: &mut fmt::Formatter<W>) -> fmt::Result {
        let Report { number, place } = Report::from(self.answer);
        let out = Patterns(self.out);
        write!(f, "number={number} place={place} y={out}")
    }
}
