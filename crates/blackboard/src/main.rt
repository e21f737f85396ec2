// Runs rounding, packing and unpacking on worked examples and writes what comes back. The whole text
// has to be that of the file stdout, and tests/worked_examples.py holds that file to the rules of
// document 01.
#![tactic(auto)]

mod answers;
mod landmarks;
mod numbers;
mod packing;
mod rows;
mod sweeps;

use refusals::Refusal;
use std::fmt;
use std::fmt::Write;
use thiserror::Error;

// Standard output, by the toolchain's io: what cannot be written is passed over.
#[derive(Drop)]
struct Out;

impl fmt::Write for Out {
    fn write_str(&mut self, s: &str) -> fmt::Result {
        io::write_all(1, s.as_bytes());
        Ok(())
    }
}

// Why the program ends before its text is whole.
#[derive(Debug, Drop, Error)]
pub(crate) enum Failure {
    #[error("the text is not written")]
    Text(#[from] fmt::Error),
    #[error("a known format is refused: {0:?}")]
    Format(#[from] Refusal),
}

// Writes the whole text.
fn write_text(text: &mut impl fmt::Write) -> Result<(), Failure> {
    numbers::formats(text)?;
    numbers::modes(text)?;
    answers::in_binary16(text)?;
    answers::of_subnormals(text)?;
    answers::ends_of_the_range(text)?;
    answers::unaltered(text)?;
    answers::job(text)?;
    landmarks::published(text)?;
    packing::nans(text)?;
    packing::lacking(text)?;
    packing::without_subnormals(text)?;
    packing::formats(text)?;
    sweeps::all_codes(text)?;
    Ok(())
}

fn main() {
    if let Err(failure) = write_text(&mut Out) {
        // The text is another one then, and so the failure is seen.
        let _ = writeln!(Out, "{failure}");
    }
}
