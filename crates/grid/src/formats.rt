// A format's settings, the patterns of its landmarks and the exponent of zeta.
ghost use Rattle.std.specs.Prelude.{◌≡◌};
ghost use Rattle.grid.specs.Formats.{precision_fits, exponent_fits, in_range, smallest_normal, zeta_exp, xmax, T, pattern_in, exponent_in};

use super::Format;
use patterns::power_pattern;

// What a format out of range gets for a pattern or an exponent. The calls promise it, and cannot fail: so it is
// a number, and no Option (decision 7).
const NO_LANDMARK: u64 = 0;

// Whether p is from 2 to 53.
#[tactic(auto, unfolding(crate::specs::Formats::precision_fits, crate::specs::Formats::between))]
pub fn precision_fits(p: u64) -> bool
    ensures { result ≡ precision_fits p }
{
    (2..=53).contains(&p)
}

// Whether emax is from 1 to 1023.
#[tactic(auto, unfolding(crate::specs::Formats::exponent_fits, crate::specs::Formats::between))]
pub fn exponent_fits(emax: u64) -> bool
    ensures { result ≡ exponent_fits emax }
{
    (1..=1023).contains(&emax)
}

// Whether the format's p and emax fit.
pub fn in_range(f: Format) -> bool
    ensures { result ≡ in_range f }
{
    precision_fits(f.p) && exponent_fits(f.emax)
}

// The pattern of the smallest normal number, 2^emin; 0 for a format out of range.
pub fn smallest_normal_pattern(f: Format) -> u64
    ensures { result ≡ pattern_in f (smallest_normal f) }
{
    if in_range(f) {
        return power_pattern(1075 - f.emax);
    }
    NO_LANDMARK
}

// The exponent of zeta, counted from 2^-1074: p - 1 places below the smallest normal number's with
// subnormals, and that number's without; 0 for a format out of range.
pub fn zeta_exponent(f: Format) -> u64
    ensures { result ≡ exponent_in f (zeta_exp f) }
{
    if in_range(f) {
        if f.sub {
            return 1076 - f.emax - f.p;
        }
        return 1075 - f.emax;
    }
    NO_LANDMARK
}

// The pattern of T, the next candidate above the largest finite number; 0 for a format out of range.
pub fn top_pattern(f: Format) -> u64
    ensures { result ≡ pattern_in f (T f) }
{
    if in_range(f) {
        return power_pattern(1075 + f.emax);
    }
    NO_LANDMARK
}

// The pattern of the largest finite number, p ones: the pattern of T less one in the last of the p
// places; 0 for a format out of range.
pub fn xmax_pattern(f: Format) -> u64
    ensures { result ≡ pattern_in f (xmax f) }
{
    if in_range(f) {
        return top_pattern(f) - (1 << (53 - f.p));
    }
    NO_LANDMARK
}
