// What is decided by lengths in bytes.
ghost use Rattle.std.specs.Prelude.{◌≡◌, ℕ};
ghost use Rattle.refusals.specs.Refusals.{refusal_number};
ghost use Rattle.words.specs.Bytes.{one_ragged};
ghost use Rattle.bytearrays.specs.Calls.{ragged_refusal};

use refusals::Refusal;

// Whether one of the two lengths is no whole number of words.
#[tactic(auto, unfolding(words::specs::Bytes::ragged))]
fn one_is_ragged(inputs: usize, outputs: usize) -> bool
    ensures { result ≡ one_ragged inputs outputs }
{
    if inputs % 8 != 0 {
        return true;
    }
    outputs % 8 != 0
}

// Refused where one of the two lengths is no whole number of words: as `before` refuses, which comes before
// the lengths, or else for the length.
pub(crate) fn check_whole<S: Drop, F: FnOnce() -> Result<S, Refusal>>(
    inputs: usize,
    outputs: usize,
    before: F,
) -> Result<(), Refusal>
    requires { F.IsAlwaysCallable before }
    ensures { (number : ℕ) → ((r : _) → F.post before r → refusal_number r ≡ number) → refusal_number result ≡ ragged_refusal number inputs outputs }
{
    if one_is_ragged(inputs, outputs) {
        before()?;
        return Err(Refusal::OutputLength);
    }
    Ok(())
}
