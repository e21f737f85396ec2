// Stretches of an array swept: each number rounded without a branch, and all of them right or none taken as
// such. The stretch starts where the places end that are rounded already.
ghost use Rattle.std.specs.Prelude.{◌≡◌, ◌≤◌, ◌<◌, ◌^◌, ℕ, true, length};
ghost use Rattle.magnitudes.specs.declared.Mode.{Mode};
ghost use Rattle.magnitudes.specs.declared.Mode.TheVariants.{Stochastic};
ghost use Rattle.magnitudes.specs.declared.Settings.{Settings};
ghost use Rattle.rounding.specs.BySettings.{rounded_by};
ghost use Rattle.sweeps.specs.declared.Limits.{Limits};
ghost use Rattle.sweeps.specs.declared.Swept.{Swept};
ghost use Rattle.sweeps.specs.Limits.{limits};
ghost use Rattle.sweeps.specs.Quick.{plainly, cappedly};
ghost use Rattle.sweeps.specs.Stretches.{SweptTo};
ghost use Rattle.sweeps.proofs.QuickAnswers.{plain_is_rounded, capped_is_rounded};
ghost use Rattle.arrays.specs.Loops.{RoundedTo};

use super::inputs::Inputs;
use magnitudes::{Mode, Settings};
use std::ops::Range;
use sweeps::{Limits, Swept, capped, limits_of, plain};
use words::Entry;

// From so many digits on that are cut, few are kept.
const FEW_KEPT: u64 = 49;

// How a number is rounded without a branch.
trait Quick {
    ghost rule: { Limits → Mode → ℕ → ℕ → Swept };

    // Rounds x, and says whether it fits.
    fn swept(l: Limits, mode: Mode, word: u64, x: u64) -> Swept
        ensures { result ≡ rule l mode word x };

    // what fits is rounded right, by settings that have these limits and this mode
    ghost rounds: { (s : Settings) (word x : ℕ) → x < 2 ^ 64 → (l : Limits) → l ≡ limits s → (mode : Mode) → mode ≡ s.mode
        → (y : Swept) → y ≡ rule l mode word x → y.unfit < 2 ^ 63 → y.answer ≡ rounded_by s word x };
}

// In a format of many digits: no sum that fits reaches T.
struct Plain;

impl Quick for Plain {
    ghost rule = { plainly };

    #[inline(always)]
    fn swept(l: Limits, mode: Mode, word: u64, x: u64) -> Swept {
        plain(l, mode, word, x)
    }

    ghost rounds = { plain_is_rounded };
}

// In a format of few digits, in which many sums reach T.
struct Capped;

impl Quick for Capped {
    ghost rule = { cappedly };

    #[inline(always)]
    fn swept(l: Limits, mode: Mode, word: u64, x: u64) -> Swept {
        capped(l, mode, word, x)
    }

    ghost rounds = { capped_is_rounded };
}

// Sweeps the stretch by the rule. Answers whether every number of it fits.
#[inline(always)]
fn sweep_by<T: Entry, Q: Quick>(
    l: Limits,
    mode: Mode,
    inputs: &Inputs<'_, T>,
    out: &mut [T],
    stretch: Range<usize>,
) -> bool
    requires ends { stretch.end ≤ length (T.words inputs.now.xs.now) }
    requires outputs { length (T.words out.old) ≡ length (T.words inputs.now.xs.now) }
    ensures outputs { length (T.words out.new) ≡ length (T.words inputs.now.xs.now) }
    ensures swept { SweptTo (RoundedTo (T.words inputs.now.words.now) (T.words inputs.now.xs.now)) l mode stretch.start stretch.end (result ≡ true) (T.words out.old) (T.words out.new) }
    ensures rest { T.rest out.new ≡ T.rest out.old }
{
    // copies, which the compiler need not read again behind each store
    let words = inputs.words;
    let xs = inputs.xs;
    let end = inputs.place_within(out, stretch.end);
    let mut unfit = 0;
    for i in stretch.start..end {
        let swept = Q::swept(l, mode, T::word_at(words, i), T::word_at(xs, i));
        T::put(out, i, swept.answer);
        unfit |= swept.unfit;
    }
    unfit >> 63 == 0
}

// Sweeps the stretch by the rule in mode 7. It is a function of its own, since only then the compiler makes a loop for
// each way to a share.
fn sweep_shares<T: Entry, Q: Quick>(
    l: Limits,
    r: u64,
    inputs: &Inputs<'_, T>,
    out: &mut [T],
    stretch: Range<usize>,
) -> bool
    requires ends { stretch.end ≤ length (T.words inputs.now.xs.now) }
    requires outputs { length (T.words out.old) ≡ length (T.words inputs.now.xs.now) }
    ensures outputs { length (T.words out.new) ≡ length (T.words inputs.now.xs.now) }
    ensures swept { SweptTo (RoundedTo (T.words inputs.now.words.now) (T.words inputs.now.xs.now)) l (Stochastic r) stretch.start stretch.end (result ≡ true) (T.words out.old) (T.words out.new) }
    ensures rest { T.rest out.new ≡ T.rest out.old }
{
    sweep_by::<T, Q>(l, Mode::Stochastic(r), inputs, out, stretch)
}

// Sweeps the stretch by the rule in any mode. The arms are alike, so that the compiler makes a loop of its own for each
// mode: only then they are vectorized.
fn sweep_in<T: Entry, Q: Quick>(
    l: Limits,
    mode: Mode,
    inputs: &Inputs<'_, T>,
    out: &mut [T],
    stretch: Range<usize>,
) -> bool
    requires ends { stretch.end ≤ length (T.words inputs.now.xs.now) }
    requires outputs { length (T.words out.old) ≡ length (T.words inputs.now.xs.now) }
    ensures outputs { length (T.words out.new) ≡ length (T.words inputs.now.xs.now) }
    ensures swept { SweptTo (RoundedTo (T.words inputs.now.words.now) (T.words inputs.now.xs.now)) l mode stretch.start stretch.end (result ≡ true) (T.words out.old) (T.words out.new) }
    ensures rest { T.rest out.new ≡ T.rest out.old }
{
    match mode {
        Mode::TiesToEven => sweep_by::<T, Q>(l, Mode::TiesToEven, inputs, out, stretch),
        Mode::TiesToZero => sweep_by::<T, Q>(l, Mode::TiesToZero, inputs, out, stretch),
        Mode::TiesAway => sweep_by::<T, Q>(l, Mode::TiesAway, inputs, out, stretch),
        Mode::TowardZero => sweep_by::<T, Q>(l, Mode::TowardZero, inputs, out, stretch),
        Mode::TowardPlus => sweep_by::<T, Q>(l, Mode::TowardPlus, inputs, out, stretch),
        Mode::TowardMinus => sweep_by::<T, Q>(l, Mode::TowardMinus, inputs, out, stretch),
        Mode::ToOdd => sweep_by::<T, Q>(l, Mode::ToOdd, inputs, out, stretch),
        Mode::Stochastic(r) => sweep_shares::<T, Q>(l, r, inputs, out, stretch),
        Mode::EvenChance => sweep_by::<T, Q>(l, Mode::EvenChance, inputs, out, stretch),
    }
}

// Sweeps the stretch by the rule for the format and the mode. Answers whether every number of it fits, and then all its
// places are rounded. Toward zero and to odd no sum reaches T.
pub(crate) fn sweep<T: Entry>(
    s: Settings,
    inputs: &Inputs<'_, T>,
    out: &mut [T],
    stretch: Range<usize>,
) -> bool
    requires ends { stretch.end ≤ length (T.words inputs.now.xs.now) }
    requires outputs { length (T.words out.old) ≡ length (T.words inputs.now.xs.now) }
    requires done { RoundedTo (T.words inputs.now.words.now) (T.words inputs.now.xs.now) s stretch.start (T.words out.old) }
    ensures outputs { length (T.words out.new) ≡ length (T.words inputs.now.xs.now) }
    ensures done { RoundedTo (T.words inputs.now.words.now) (T.words inputs.now.xs.now) s stretch.start (T.words out.new) }
    ensures swept { result ≡ true → RoundedTo (T.words inputs.now.words.now) (T.words inputs.now.xs.now) s stretch.end (T.words out.new) }
    ensures rest { T.rest out.new ≡ T.rest out.old }
{
    let l = limits_of(s);
    let mode = s.mode;
    if s.cut < FEW_KEPT {
        return sweep_in::<T, Plain>(l, mode, inputs, out, stretch);
    }
    match mode {
        Mode::TowardZero | Mode::ToOdd => sweep_in::<T, Plain>(l, mode, inputs, out, stretch),
        _ => sweep_in::<T, Capped>(l, mode, inputs, out, stretch),
    }
}
