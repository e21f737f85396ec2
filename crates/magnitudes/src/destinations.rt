// Where a magnitude goes, by settings. `m` is a magnitude pattern, `d` the place of its significand's
// last kept digit. Mode, sign and word are handed on one by one, as `increment_at` and the definitions take them.
ghost use Rattle.std.specs.Prelude.{◌≡◌, ◌^◌, ◌<◌};
ghost use Rattle.patterns.specs.Patterns.{sign, mag};
ghost use Rattle.magnitudes.specs.BySettings.{place, kept, reached, moved, goes_to_by};

use super::modes::{increment_of, overflows_to_infinity};
use super::{Mode, Settings};
use patterns::{INFINITY, digits_of, exponent_of, magnitude_of, sign_of, significand_of};
use places::high_part;

// The place of the last kept digit, by where the magnitude's first digit stands: p digits are kept in
// the normal range, and below it the step is zeta, so that a smaller number keeps fewer.
#[tactic(auto, unfolding(crate::specs::BySettings::place))]
fn place_of(s: Settings, m: u64) -> u64
    ensures { result ≡ place s.cut s.emin s.bottom m }
{
    if s.emin < digits_of(m) {
        return s.cut;
    }
    s.bottom.saturating_sub(exponent_of(m))
}

// Where a digit is kept: the increment is added to the pattern, and the digits below the place are
// cleared. A carry out of the fraction raises the exponent by one, which is right.
fn round_kept(mode: Mode, negative: bool, word: u64, m: u64, d: u64) -> u64
    requires m_bound { m < 2 ^ 63 }
    requires d_bound { d < 53 }
    ensures { result ≡ kept mode negative word m d }
{
    let last = significand_of(m) >> d;
    let sum = m + increment_of(mode, negative, last, d, word);
    (sum >> d) << d
}

// Where no digit is kept: whether zeta is taken, and not zero. A place past the word's last is brought down
// to it, and the rest with it: of what is far below zeta at least 1 stays, so that it is still told from zero.
fn reaches_zeta(mode: Mode, negative: bool, word: u64, m: u64, d: u64) -> bool
    ensures { result ≡ reached mode negative word m d }
{
    let c = d.min(63);
    let rest = high_part(significand_of(m), d - c).max(1);
    1 << c <= rest + increment_of(mode, negative, 0, c, word)
}

// Of m below T: the magnitude pattern that it goes to. T's own may come out.
#[tactic(auto, unfolding(crate::specs::BySettings::moved))]
fn round_below_top(s: Settings, negative: bool, word: u64, m: u64) -> u64
    requires { m < 2 ^ 63 }
    ensures { result ≡ moved s negative word m }
{
    let d = place_of(s, m);
    if d < 53 {
        return round_kept(s.mode, negative, word, m, d);
    }
    if reaches_zeta(s.mode, negative, word, m, d) {
        return s.zeta;
    }
    0
}

// The magnitude pattern that the magnitude of x goes to, by x's sign. What comes out as T is infinity,
// and a magnitude that reaches T goes by its mode's overflow.
#[tactic(auto, using(patterns::proofs::Signs::magnitude_below), unfolding(crate::specs::BySettings::goes_to_by))]
pub fn round_magnitude(s: Settings, word: u64, x: u64) -> u64
    ensures { result ≡ goes_to_by s (sign x) word (mag x) }
{
    let negative = sign_of(x);
    let m = magnitude_of(x);
    if m < s.top {
        let y = round_below_top(s, negative, word, m);
        if y < s.top {
            return y;
        }
        return INFINITY;
    }
    if overflows_to_infinity(s.mode, negative) {
        return INFINITY;
    }
    s.xmax
}
