// Stretches of an array rounded by the two tables, and what these leave out by the single rounding.
ghost use Rattle.std.specs.Prelude.{◌≡◌, ◌≤◌, ◌<◌, length};
ghost use Rattle.magnitudes.specs.declared.Mode.TheVariants.{Stochastic};
ghost use Rattle.sweeps.specs.Rules.{place_table};
ghost use Rattle.sweeps.specs.Rows.{row_table};
ghost use Rattle.arrays.specs.Loops.{rounded_by_at, RoundedTo};

use super::inputs::Inputs;
use magnitudes::{Mode, Settings};
use rounding::round_by;
use std::ops::Range;
use sweeps::{by_row, place_by};
use words::Entry;

// Settings, and the two tables filled for them.
#[derive(Clone, Copy)]
pub(crate) struct Tables<'a> {
    pub(crate) settings: Settings,
    pub(crate) places: &'a [u8; 2048],
    pub(crate) rows: &'a [u64; 512],
    ghost filled_places: { places.now ≡ place_table settings },
    ghost filled_rows: { rows.now ≡ row_table settings },
}

impl Tables<'_> {
    // Rounds the number at place i, in the settings' own mode: by its row, or by the single rounding.
    #[inline(always)]
    fn round_at<T: Entry>(&self, mode: Mode, inputs: &Inputs<'_, T>, i: usize) -> u64
        requires mode { mode ≡ self.now.settings.mode }
        requires place { i < length (T.words inputs.now.xs.now) }
        ensures { result ≡ rounded_by_at self.now.settings (T.words inputs.now.words.now) (T.words inputs.now.xs.now) i }
    {
        let x = T::word_at(inputs.xs, i);
        let place = place_by(self.places, x);
        if place < 64 {
            return by_row(mode, self.rows, place, T::word_at(inputs.words, i), x);
        }
        round_by(self.settings, T::word_at(inputs.words, i), x)
    }
}

// Rounds the stretch by the tables.
#[inline(always)]
fn look_up_by<T: Entry>(
    t: &Tables<'_>,
    mode: Mode,
    inputs: &Inputs<'_, T>,
    out: &mut [T],
    stretch: Range<usize>,
)
    requires mode { mode ≡ t.now.settings.mode }
    requires ends { stretch.end ≤ length (T.words inputs.now.xs.now) }
    requires outputs { length (T.words out.old) ≡ length (T.words inputs.now.xs.now) }
    requires done { RoundedTo (T.words inputs.now.words.now) (T.words inputs.now.xs.now) t.now.settings stretch.start (T.words out.old) }
    ensures outputs { length (T.words out.new) ≡ length (T.words inputs.now.xs.now) }
    ensures done { RoundedTo (T.words inputs.now.words.now) (T.words inputs.now.xs.now) t.now.settings stretch.end (T.words out.new) }
    ensures rest { T.rest out.new ≡ T.rest out.old }
{
    // copies, which the compiler need not read again behind each store
    let tables = *t;
    let lent = Inputs {
        words: inputs.words,
        xs: inputs.xs,
    };
    let end = lent.place_within(out, stretch.end);
    for i in stretch.start..end {
        T::put(out, i, tables.round_at(mode, &lent, i));
    }
}

// Rounds the stretch by the tables in mode 7. It is a function of its own, since only then the compiler makes a loop for
// each way to a share.
fn look_up_shares<T: Entry>(
    t: &Tables<'_>,
    r: u64,
    inputs: &Inputs<'_, T>,
    out: &mut [T],
    stretch: Range<usize>,
)
    requires mode { Stochastic r ≡ t.now.settings.mode }
    requires ends { stretch.end ≤ length (T.words inputs.now.xs.now) }
    requires outputs { length (T.words out.old) ≡ length (T.words inputs.now.xs.now) }
    requires done { RoundedTo (T.words inputs.now.words.now) (T.words inputs.now.xs.now) t.now.settings stretch.start (T.words out.old) }
    ensures outputs { length (T.words out.new) ≡ length (T.words inputs.now.xs.now) }
    ensures done { RoundedTo (T.words inputs.now.words.now) (T.words inputs.now.xs.now) t.now.settings stretch.end (T.words out.new) }
    ensures rest { T.rest out.new ≡ T.rest out.old }
{
    look_up_by(t, Mode::Stochastic(r), inputs, out, stretch);
}

// Rounds the stretch by the tables in any mode. The arms are alike, so that the compiler makes a loop of its own for each
// mode.
pub(crate) fn look_up<T: Entry>(
    t: &Tables<'_>,
    inputs: &Inputs<'_, T>,
    out: &mut [T],
    stretch: Range<usize>,
)
    requires ends { stretch.end ≤ length (T.words inputs.now.xs.now) }
    requires outputs { length (T.words out.old) ≡ length (T.words inputs.now.xs.now) }
    requires done { RoundedTo (T.words inputs.now.words.now) (T.words inputs.now.xs.now) t.now.settings stretch.start (T.words out.old) }
    ensures outputs { length (T.words out.new) ≡ length (T.words inputs.now.xs.now) }
    ensures done { RoundedTo (T.words inputs.now.words.now) (T.words inputs.now.xs.now) t.now.settings stretch.end (T.words out.new) }
    ensures rest { T.rest out.new ≡ T.rest out.old }
{
    match t.settings.mode {
        Mode::TiesToEven => look_up_by(t, Mode::TiesToEven, inputs, out, stretch),
        Mode::TiesToZero => look_up_by(t, Mode::TiesToZero, inputs, out, stretch),
        Mode::TiesAway => look_up_by(t, Mode::TiesAway, inputs, out, stretch),
        Mode::TowardZero => look_up_by(t, Mode::TowardZero, inputs, out, stretch),
        Mode::TowardPlus => look_up_by(t, Mode::TowardPlus, inputs, out, stretch),
        Mode::TowardMinus => look_up_by(t, Mode::TowardMinus, inputs, out, stretch),
        Mode::ToOdd => look_up_by(t, Mode::ToOdd, inputs, out, stretch),
        Mode::Stochastic(r) => look_up_shares(t, r, inputs, out, stretch),
        Mode::EvenChance => look_up_by(t, Mode::EvenChance, inputs, out, stretch),
    }
}
