// One line of a job text or of its answer, `key=value` and a line feed: read from the start of a text, and
// written to the start of a buffer. The contracts cite the definitions in specs/; start with
// specs/Lib.antt. Every callable function answers for all inputs.
#![tactic(auto)]

mod digits;
mod reading;
mod widths;
mod writing;

pub use reading::read_line;
pub use writing::{lay_over, write_line};

// The byte that ends a line.
const LINE_FEED: u8 = b'\n';

// The form of a line's value: a decimal number, no larger than is said and of four digits at most, or a
// word of sixteen hexadecimal digits.
#[derive(Clone, Copy)]
pub enum Form {
    Number(u64),
    Word,
}

// A line that a text begins with: its value, and how many bytes it takes.
#[derive(Clone, Copy)]
pub struct Found {
    pub value: u64,
    pub used: usize,
}
