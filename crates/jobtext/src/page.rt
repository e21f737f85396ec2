// The page on which an answer is printed.
ghost use Rattle.std.specs.Prelude.{◌≡◌, ◌+◌, ◌≤◌, [], ◌++◌, length};
ghost use Rattle.lines.specs.Lines.{line};
ghost use Rattle.jobtext.specs.Facts.{longest_answer};

use lines::{Form, write_line};
use std::marker::Model;

// How many bytes the longest answer has.
const LONGEST_ANSWER: usize = 19472;

// The lines printed so far, with room for those of the longest answer: a job is answered without a heap,
// so this is no Vec.
#[derive(Drop)]
pub(crate) struct Page {
    bytes: [u8; LONGEST_ANSWER],
    size: usize,
}

impl Model for Page {
    ghost use Rattle.std.specs.Prelude.{List, ℕ, ◌≤◌, take};
    ghost use Rattle.jobtext.specs.Facts.{longest_answer};

    ghost Value = { List ℕ };

    ghost view = { λ a. take a.size a.bytes };

    ghost invariant = { λ a. a.size ≤ longest_answer };
}

impl Page {
    pub(crate) fn new() -> Page
        ensures { result ≡ [] }
    {
        Page {
            bytes: [0; LONGEST_ANSWER],
            size: 0,
        }
    }

    // Prints a line behind those that are there.
    pub(crate) fn add(&mut self, key: &[u8], form: Form, n: u64)
        requires { length self.old + length (line key.now form n) ≤ longest_answer }
        ensures { self.new ≡ self.old ++ line key.now form n }
    {
        if let Some(taken) = write_line(&mut self.bytes[self.size..], key, form, n) {
            self.size += taken;
        }
    }

    pub(crate) fn bytes(&self) -> &[u8]
        ensures { result.now ≡ self.now }
    {
        &self.bytes[..self.size]
    }
}
