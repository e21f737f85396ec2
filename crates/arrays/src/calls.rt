// The call: decide, then write.
ghost use Rattle.std.specs.Prelude.{◌≡◌, OnErr};
ghost use Rattle.reports.specs.Reports.{reported_by};
ghost use Rattle.arrays.specs.Rounding.{reported, afterwards};

use super::decisions::{decide, uses_word};
use super::inputs::Inputs;
use super::loops::round_all;
use grid::Format;
use reports::Refused;
use words::Entry;

// Rounds every pattern of xs into out, place i with word i in modes 7 and 8; or refuses, and leaves out as it was.
// What stands behind the last word of out stays.
// In the other modes no word is looked at: the loop is lent xs in their place.
pub fn round_array<T: Entry>(
    format: Format,
    mode: u64,
    r: u64,
    words: &[T],
    xs: &[T],
    out: &mut [T],
) -> Result<(), Refused>
    ensures answer { reported_by result ≡ reported format mode r (T.words words.now) (T.words xs.now) (T.words out.old) }
    ensures written { T.words out.new ≡ afterwards format mode r (T.words words.now) (T.words xs.now) (T.words out.old) }
    ensures rest { T.rest out.new ≡ T.rest out.old }
    ensures kept { OnErr result (out.new ≡ out.old) }
{
    let s = decide(
        format,
        mode,
        r,
        T::count(words),
        T::count(xs),
        T::count(out),
    )?;
    if uses_word(s.mode) {
        round_all(s, &Inputs { words, xs }, out);
        return Ok(());
    }
    round_all(s, &Inputs { words: xs, xs }, out);
    Ok(())
}
