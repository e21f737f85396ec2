// A row, read byte after byte.
use refusals::Refusal;
use std::fmt;

const BLANK: u8 = b' ';

const NUL: u8 = 0;

// What is called in a row.
#[derive(Clone, Copy, Debug, PartialEq, Eq)]
pub(crate) enum Call {
    Pack,
    Unpack,
}

impl Call {
    // The call whose name begins with the letter.
    fn named(letter: u8) -> Option<Call> {
        match letter {
            b'p' => Some(Call::Pack),
            b'u' => Some(Call::Unpack),
            _ => None,
        }
    }
}

// What a call answers: a number, and a code or pattern, which is 0 for a refused call.
#[derive(Clone, Copy, Debug, Default, PartialEq, Eq)]
pub(crate) struct Outcome {
    pub number: u64,
    pub answer: u64,
}

impl From<Result<u64, Refusal>> for Outcome {
    fn from(answer: Result<u64, Refusal>) -> Outcome {
        match answer {
            Ok(answer) => Outcome { number: 0, answer },
            Err(refusal) => Outcome {
                number: refusal.number(),
                answer: 0,
            },
        }
    }
}

impl fmt::Display for Outcome {
    fn fmt<W: fmt::Write>(&self, f: &mut fmt::Formatter<W>) -> fmt::Result {
        write!(f, "number={} answer={:016x}", self.number, self.answer)
    }
}

// What a call is given, and what it has to answer.
#[derive(Clone, Copy, Debug, PartialEq, Eq)]
pub(crate) struct Row {
    pub call: Call,
    pub p: u64,
    pub emax: u64,
    pub sub: u64,
    pub given: u64,
    pub place: u64,
    pub due: Outcome,
}

// The fields of a row, in their order, and what no row has: from there on a row is strange, whatever follows.
#[derive(Clone, Copy, Debug, Default, PartialEq, Eq)]
enum Field {
    #[default]
    Call,
    Precision,
    Emax,
    Sub,
    Given,
    Arrow,
    Number,
    Place,
    Answer,
    Beyond,
}

impl Field {
    // The field behind this one.
    fn next(self) -> Field {
        match self {
            Field::Call => Field::Precision,
            Field::Precision => Field::Emax,
            Field::Emax => Field::Sub,
            Field::Sub => Field::Given,
            Field::Given => Field::Arrow,
            Field::Arrow => Field::Number,
            Field::Number => Field::Place,
            Field::Place => Field::Answer,
            Field::Answer | Field::Beyond => Field::Beyond,
        }
    }
}

// What a digit is worth, by decimal or upper-case hexadecimal. The crate lines hands out whole lines, and no digit.
fn worth(digit: u8) -> Option<u64> {
    match digit {
        b'0'..=b'9' => Some(u64::from(digit - b'0')),
        b'A'..=b'F' => Some(u64::from(digit - b'A') + 10),
        _ => None,
    }
}

// A decimal number with one more digit, modulo 2^64; A to F are digits too, each for what it is worth.
fn decimal(n: u64, digit: u64) -> u64 {
    n.wrapping_mul(10).wrapping_add(digit)
}

// A hexadecimal number with one more digit, modulo 2^64.
fn hexadecimal(n: u64, digit: u64) -> u64 {
    n.wrapping_mul(16).wrapping_add(digit)
}

// A row, as far as it is read: the call's first letter, the field that is being read, and the numbers. Its
// bytes are not kept, since it may be as long as the input.
#[derive(Clone, Copy, Debug, Default)]
pub(crate) struct Draft {
    letter: Option<u8>,
    field: Field,
    p: u64,
    emax: u64,
    sub: u64,
    given: u64,
    place: u64,
    due: Outcome,
}

impl Draft {
    // One more byte: a blank ends a field, and the first byte that is neither blank nor NUL tells the call.
    pub(crate) fn push(&mut self, byte: u8) {
        match (byte, self.letter) {
            (BLANK, _) => self.field = self.field.next(),
            (NUL, None) => {}
            (letter, None) => self.letter = Some(letter),
            (rest, Some(_)) => self.push_rest(rest),
        }
    }

    // One more byte behind the letter. Of the call's name and the arrow no more is looked at; elsewhere what
    // is no digit spoils the row.
    fn push_rest(&mut self, byte: u8) {
        if matches!(self.field, Field::Call | Field::Arrow) {
            return;
        }
        match worth(byte) {
            Some(digit) => self.push_digit(digit),
            None => self.field = Field::Beyond,
        }
    }

    // One more digit of the number that is being read.
    fn push_digit(&mut self, digit: u64) {
        match self.field {
            Field::Precision => self.p = decimal(self.p, digit),
            Field::Emax => self.emax = decimal(self.emax, digit),
            Field::Sub => self.sub = decimal(self.sub, digit),
            Field::Given => self.given = hexadecimal(self.given, digit),
            Field::Number => self.due.number = decimal(self.due.number, digit),
            Field::Place => self.place = decimal(self.place, digit),
            Field::Answer => self.due.answer = hexadecimal(self.due.answer, digit),
            Field::Call | Field::Arrow | Field::Beyond => {}
        }
    }

    // Whether anything but blanks and NULs is read.
    pub(crate) fn is_begun(&self) -> bool {
        self.letter.is_some()
    }

    // The row, if it ends here; none where it has no known form.
    pub(crate) fn row(&self) -> Option<Row> {
        if self.field != Field::Answer {
            return None;
        }
        Some(Row {
            call: Call::named(self.letter?)?,
            p: self.p,
            emax: self.emax,
            sub: self.sub,
            given: self.given,
            place: self.place,
            due: self.due,
        })
    }
}
