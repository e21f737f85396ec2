// A job text: the numbers that its lines hold, or its first bad line. The contracts cite the definitions in
// specs/; start with specs/Lib.antt. Every callable function answers for all texts.
#![tactic(auto)]

ghost use Rattle.std.specs.Prelude.{◌≡◌, suc, ◌^◌, ◌<◌};

mod layout;
mod texts;

pub use layout::has_words;
pub use texts::read_job;

// The first line of a text that is not as a job text is laid out, counted from 1.
#[derive(Clone, Copy)]
pub struct BadLine {
    pub line: u64,
}

impl BadLine {
    // The line behind so many good ones.
    fn behind(lines: usize) -> BadLine
        requires { lines < 2 ^ 63 }
        ensures { result.line ≡ suc lines }
    {
        BadLine {
            line: lines as u64 + 1,
        }
    }
}
