// The loop over a whole array, stretch after stretch. It is swept as long as every number fits. The first stretch
// that does not fit and some behind it go by tables; then one is swept again, and where that does not fit either, a
// good many more go by them, so that data which never fits is not swept in vain. A stretch is as long as where it starts
// says, and who walks it depends on the stretch before: so these loops step by hand, and no range or chain serves.
ghost use Rattle.std.specs.Prelude.{◌≡◌, ◌≤◌, length};
ghost use Rattle.arrays.specs.Loops.{RoundedTo, rounded_all_by};

use super::inputs::Inputs;
use super::looking::{Tables, look_up};
use super::sweeping::sweep;
use magnitudes::Settings;
use rounding::round_by;
use sweeps::{fill_places, fill_rows, stretch_end};
use words::Entry;

// How many stretches go by the tables before one is swept again: from the first that did not fit on, and where
// the next that was swept did not fit either.
const FIRST_PATIENCE: u64 = 5;

const PATIENCE: u64 = 32;

// How many places are left at least where the tables are worth their filling.
const WORTH_TABLES: usize = 40;

// Sweeps every stretch up to the first of which not every number fits. Answers where that starts.
fn sweep_on<T: Entry>(s: Settings, inputs: &Inputs<'_, T>, out: &mut [T]) -> usize
    requires outputs { length (T.words out.old) ≡ length (T.words inputs.now.xs.now) }
    ensures within { result ≤ length (T.words inputs.now.xs.now) }
    ensures outputs { length (T.words out.new) ≡ length (T.words inputs.now.xs.now) }
    ensures done { RoundedTo (T.words inputs.now.words.now) (T.words inputs.now.xs.now) s result (T.words out.new) }
    ensures rest { T.rest out.new ≡ T.rest out.old }
{
    let n = T::count(inputs.xs);
    let mut from = 0;
    while from < n {
        let to = stretch_end(from, n);
        if !sweep(s, inputs, out, from..to) {
            return from;
        }
        from = to;
    }
    from
}

// Rounds the places from `from` on by tables that are filled. The first stretch is known not to fit.
fn look_on<T: Entry>(t: &Tables<'_>, inputs: &Inputs<'_, T>, out: &mut [T], from: usize)
    requires outputs { length (T.words out.old) ≡ length (T.words inputs.now.xs.now) }
    requires starts { from ≤ length (T.words inputs.now.xs.now) }
    requires done { RoundedTo (T.words inputs.now.words.now) (T.words inputs.now.xs.now) t.now.settings from (T.words out.old) }
    ensures written { T.words out.new ≡ rounded_all_by t.now.settings (T.words inputs.now.words.now) (T.words inputs.now.xs.now) }
    ensures rest { T.rest out.new ≡ T.rest out.old }
{
    let n = T::count(inputs.xs);
    let mut patience = FIRST_PATIENCE;
    let mut again = PATIENCE;
    let mut i = from;
    while i < n {
        let to = stretch_end(i, n);
        if patience == 0 {
            if sweep(t.settings, inputs, out, i..to) {
                again = 0;
            } else {
                look_up(t, inputs, out, i..to);
                patience = again;
                again = PATIENCE;
            }
        } else {
            look_up(t, inputs, out, i..to);
            patience -= 1;
        }
        i = to;
    }
}

// Rounds the places from `from` on by tables.
fn round_by_tables<T: Entry>(s: Settings, inputs: &Inputs<'_, T>, out: &mut [T], from: usize)
    requires outputs { length (T.words out.old) ≡ length (T.words inputs.now.xs.now) }
    requires starts { from ≤ length (T.words inputs.now.xs.now) }
    requires done { RoundedTo (T.words inputs.now.words.now) (T.words inputs.now.xs.now) s from (T.words out.old) }
    ensures written { T.words out.new ≡ rounded_all_by s (T.words inputs.now.words.now) (T.words inputs.now.xs.now) }
    ensures rest { T.rest out.new ≡ T.rest out.old }
{
    let mut places = [0; 2048];
    let mut rows = [0; 512];
    fill_places(s, &mut places);
    fill_rows(s, &mut rows);
    let tables = Tables {
        settings: s,
        places: &places,
        rows: &rows,
    };
    look_on(&tables, inputs, out, from);
}

// Rounds the places from `from` on one after the other, by the single rounding.
fn round_each<T: Entry>(s: Settings, inputs: &Inputs<'_, T>, out: &mut [T], from: usize)
    requires outputs { length (T.words out.old) ≡ length (T.words inputs.now.xs.now) }
    requires starts { from ≤ length (T.words inputs.now.xs.now) }
    requires done { RoundedTo (T.words inputs.now.words.now) (T.words inputs.now.xs.now) s from (T.words out.old) }
    ensures written { T.words out.new ≡ rounded_all_by s (T.words inputs.now.words.now) (T.words inputs.now.xs.now) }
    ensures rest { T.rest out.new ≡ T.rest out.old }
{
    // copies, which the compiler need not read again behind each store
    let words = inputs.words;
    let xs = inputs.xs;
    let end = inputs.place_within(out, T::count(xs));
    for i in from..end {
        T::put(out, i, round_by(s, T::word_at(words, i), T::word_at(xs, i)));
    }
}

// Rounds every place by the settings into out.
pub(crate) fn round_all<T: Entry>(s: Settings, inputs: &Inputs<'_, T>, out: &mut [T])
    requires outputs { length (T.words out.old) ≡ length (T.words inputs.now.xs.now) }
    ensures written { T.words out.new ≡ rounded_all_by s (T.words inputs.now.words.now) (T.words inputs.now.xs.now) }
    ensures rest { T.rest out.new ≡ T.rest out.old }
{
    let from = sweep_on(s, inputs, out);
    if T::count(inputs.xs) - from < WORTH_TABLES {
        round_each(s, inputs, out, from);
    } else {
        round_by_tables(s, inputs, out, from);
    }
}
