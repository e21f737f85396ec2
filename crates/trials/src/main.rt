// Runs array calls, which round, pack and unpack, and writes what is lent to each and what comes of it,
// and then what the answers of stochastic rounding add up to. The whole text has to be that of the file stdout, and
// tests/worked_examples.py holds that file to the rules of document 01.
#![tactic(auto)]

mod array_calls;
mod code_calls;
mod text;
mod totals;

use refusals::Refusal;
use std::fmt;
use std::fmt::Write;
use thiserror::Error;

// Standard output, by the toolchain's io: what cannot be written is passed over.
#[derive(Drop)]
struct Out;

impl fmt::Write for Out {
    fn write_str(&mut self, s: &str) -> fmt::Result {
        io::write_all(1, s.as_bytes());
        Ok(())
    }
}

// Why the program ends before its text is whole.
#[derive(Debug, Drop, Error)]
pub(crate) enum Failure {
    #[error("the text is not written")]
    Text(#[from] fmt::Error),
    #[error("a known format is refused: {0:?}")]
    Format(#[from] Refusal),
}

// Writes the whole text.
fn write_text(text: &mut impl fmt::Write) -> Result<(), Failure> {
    // words for five places, and one more
    let words = [0, 1, 2, 3, 0xFFFF_FFFF_FFFF_FFFF, 4];
    array_calls::of_nothing(text, &words)?;
    array_calls::of_one(text)?;
    array_calls::not_looked_at(text, &words)?;
    array_calls::in_every_mode(text, &words)?;
    array_calls::refused(text, &words)?;
    array_calls::refused_lengths(text)?;
    array_calls::refused_first(text)?;
    code_calls::in_known_formats(text)?;
    code_calls::of_nothing(text)?;
    code_calls::refused_entries(text)?;
    code_calls::refused_calls(text)?;
    totals::in_known_formats(text)?;
    totals::in_other_formats(text)?;
    Ok(())
}

fn main() {
    if let Err(failure) = write_text(&mut Out) {
        // The text is another one then, and so the failure is seen.
        let _ = writeln!(Out, "{failure}");
    }
}
