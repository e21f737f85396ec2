// What is decided before anything is written.
ghost use Rattle.std.specs.Prelude.{◌≡◌};
ghost use Rattle.magnitudes.specs.Modes.{uses_word};
ghost use Rattle.refusals.specs.Refusals.{in_numbers, refusal_number};
ghost use Rattle.rounding.specs.BySettings.{Ready, Refused};
ghost use Rattle.arrays.specs.Rounding.{lengths_refusal};
ghost use Rattle.arrays.specs.Loops.{decided};

use grid::Format;
use magnitudes::{Mode, Settings};
use refusals::Refusal;
use rounding::prepare;

// Whether the mode looks at the word: modes 7 and 8 do.
#[tactic(auto, unfolding(magnitudes::specs::Modes::uses_word))]
pub fn uses_word(mode: Mode) -> bool
    ensures { result ≡ uses_word mode }
{
    matches!(mode, Mode::Stochastic(_) | Mode::EvenChance)
}

// Nothing where the three lengths are accepted; or the first refusal that applies, that of the output before
// that of the words.
#[tactic(auto, unfolding(crate::specs::Rounding::lengths_refusal))]
fn check_lengths(mode: Mode, words: usize, inputs: usize, outputs: usize) -> Result<(), Refusal>
    ensures { refusal_number result ≡ lengths_refusal mode words inputs outputs }
{
    if outputs != inputs {
        return Err(Refusal::OutputLength);
    }
    if uses_word(mode) && words < inputs {
        return Err(Refusal::WordsLength);
    }
    Ok(())
}

// The settings to round by, or the first refusal that applies: what `prepare` refuses, then the lengths.
#[tactic(auto, using(crate::proofs::Refusals::decided_ready, crate::proofs::Refusals::decided_by_lengths, crate::proofs::Refusals::decided_first))]
pub fn decide(
    format: Format,
    mode: u64,
    r: u64,
    words: usize,
    inputs: usize,
    outputs: usize,
) -> Result<Settings, Refusal>
    ensures { in_numbers Ready Refused result ≡ decided format mode r words inputs outputs }
{
    let s = prepare(format, mode, r)?;
    check_lengths(s.mode, words, inputs, outputs)?;
    Ok(s)
}
