// What is decided before any word is looked at.
ghost use Rattle.std.specs.Prelude.{◌≡◌};
ghost use Rattle.refusals.specs.Refusals.{in_numbers, refusal_number};
ghost use Rattle.layouts.specs.Layouts.{ready, refused};
ghost use Rattle.codearrays.specs.Codes.{then_lengths};
ghost use Rattle.codearrays.specs.Loops.{decided};

use grid::Format;
use layouts::{Layout, lay_out};
use refusals::Refusal;

// Refused where the output is not as long as the input.
#[tactic(auto, unfolding(crate::specs::Codes::then_lengths))]
fn check_lengths(inputs: usize, outputs: usize) -> Result<(), Refusal>
    ensures { refusal_number result ≡ then_lengths 0 inputs outputs }
{
    if outputs == inputs {
        return Ok(());
    }
    Err(Refusal::OutputLength)
}

// The layout to pack or unpack by, or the first refusal that applies: what `lay_out` refuses, then the lengths.
#[tactic(auto, using(crate::proofs::Decided::decided_ready, crate::proofs::Decided::decided_by_lengths, crate::proofs::Decided::decided_first))]
pub(crate) fn decide(format: Format, inputs: usize, outputs: usize) -> Result<Layout, Refusal>
    ensures { in_numbers ready refused result ≡ decided format inputs outputs }
{
    let layout = lay_out(format)?;
    check_lengths(inputs, outputs)?;
    Ok(layout)
}

// The number of the first refusal that packing or unpacking meets before it looks at a word, and 0 where it
// meets none: that of what is refused already, then 5 for the output's length. It goes by numbers, since it is
// promised for every number that a caller may have, also for one that no refusal has.
#[tactic(auto, unfolding(crate::specs::Codes::then_lengths))]
pub fn codes_refusal(number: u64, inputs: usize, outputs: usize) -> u64
    ensures { result ≡ then_lengths number inputs outputs }
{
    if number != 0 {
        return number;
    }
    match check_lengths(inputs, outputs) {
        Ok(()) => 0,
        Err(refusal) => refusal.number(),
    }
}
