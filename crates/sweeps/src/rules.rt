// The first table: the place of the last kept digit, by the exponent field of a pattern less one. So an exact
// power of two goes with the numbers below it, where it is exact too, and zero goes with the NaNs, which are
// their own answers.
ghost use Rattle.std.specs.Prelude.{◌≡◌, ◌+◌, ◌-◌, ◌/◌, ◌^◌, ◌≤◌, max, slice_index};
ghost use Rattle.laws.specs.Fills.{FilledTo};
ghost use Rattle.sweeps.specs.Rules.{field_of, place_rule, place_table, Painted};

use super::derived::Sound;
use magnitudes::Settings;

// One more than the last place: for numbers that the tables leave out. It is no Option, since the table has a byte a field.
const LEFT_OUT: u8 = 64;

// The place at which the sign alone is kept, for the finite numbers from T on.
const ALL_CUT: u8 = 63;

// A place as a word: what stands in a table is known to fit its type once it is handed on.
fn in_word(place: u8) -> u64
    ensures { result ≡ place }
{
    place as u64
}

// The place by the tables for x.
#[tactic(auto, unfolding(crate::specs::Rules::field_of))]
pub fn place_by(places: &[u8; 2048], x: u64) -> u64
    ensures { result ≡ slice_index places.now (field_of x) }
{
    in_word(places[((x << 1).wrapping_sub(1) >> 53) as usize])
}

// The fields from `from` to below `to` get the place. Answers where the next ones start.
fn paint(places: &mut [u8; 2048], from: usize, to: usize, place: u8) -> usize
    requires { to ≤ 2048 }
    ensures next { result ≡ max from to }
    ensures filled { Painted (λ k. place) from to places.old places.new }
{
    if to <= from {
        return from;
    }
    places[from..to].fill(place);
    to
}

// The same with a place that falls by one from field to field.
fn paint_falling(places: &mut [u8; 2048], from: usize, to: usize, sum: u64) -> usize
    requires ends { to ≤ 2048 }
    requires falls { to ≤ sum + 1 }
    requires near { sum ≤ from + 255 }
    ensures next { result ≡ max from to }
    ensures filled { Painted (λ k. sum - k) from to places.old places.new }
{
    for i in from..to {
        places[i] = (sum - i as u64) as u8;
    }
    from.max(to)
}

// The first field of which all numbers keep a digit.
fn first_kept(bottom: u64) -> u64
    ensures { result ≡ max 1 (bottom - 51) }
{
    bottom.saturating_sub(51).max(1)
}

impl Sound {
    // The fields below the normal range.
    fn paint_below_normal(self, places: &mut [u8; 2048])
        ensures { FilledTo (place_rule self.s) (self.s.emin - 51) places.new }
    {
        let s = self.s;
        let kept = paint(places, 0, first_kept(s.bottom) as usize, LEFT_OUT);
        paint_falling(places, kept, (s.emin - 51) as usize, s.bottom + 1);
    }

    // Then those of the normal range, up to T's.
    fn paint_normal(self, places: &mut [u8; 2048])
        requires { FilledTo (place_rule self.s) (self.s.emin - 51) places.old }
        ensures { FilledTo (place_rule self.s) (self.s.top / 2 ^ 52) places.new }
    {
        let s = self.s;
        let top = (s.top >> 52) as usize;
        let last = paint(places, (s.emin - 51) as usize, top - 1, s.cut as u8);
        paint(places, last, top, LEFT_OUT);
    }

    // Then all others.
    fn paint_past_top(self, places: &mut [u8; 2048])
        requires { FilledTo (place_rule self.s) (self.s.top / 2 ^ 52) places.old }
        ensures { places.new ≡ place_table self.s }
    {
        let largest = paint(places, (self.s.top >> 52) as usize, 2046, ALL_CUT);
        let special = paint(places, largest, 2047, LEFT_OUT);
        paint(places, special, 2048, 0);
    }

    // The table, from the smallest field to the largest.
    fn fill_places(self, places: &mut [u8; 2048])
        ensures { places.new ≡ place_table self.s }
    {
        self.paint_below_normal(places);
        self.paint_normal(places);
        self.paint_past_top(places);
    }
}

// The table for the settings. All fields are left out where no format has such settings.
pub fn fill_places(s: Settings, places: &mut [u8; 2048])
    ensures { places.new ≡ place_table s }
{
    match Sound::check(s) {
        Some(sound) => sound.fill_places(places),
        None => {
            paint(places, 0, 2048, LEFT_OUT);
        }
    }
}
