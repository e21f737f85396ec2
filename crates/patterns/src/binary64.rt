// Reading a binary64 pattern. `x` is a whole pattern, `m` a magnitude pattern, the sign left out.
ghost use Rattle.std.specs.Prelude.{◌≡◌};
ghost use Rattle.patterns.specs.Patterns.{sign, mag, with_sign, kind_of, ex, sig, digits_of, power_pattern};

use super::Kind;

// The sign bit.
pub const SIGN: u64 = 0x8000_0000_0000_0000;

// The magnitude pattern of infinity.
pub const INFINITY: u64 = 0x7FF0_0000_0000_0000;

// The one in front of a normal number's fraction, which is also the smallest normal pattern.
const HIDDEN: u64 = 0x0010_0000_0000_0000;

// Whether the sign bit is set.
#[tactic(auto, unfolding(crate::specs::Patterns::sign))]
pub fn sign_of(x: u64) -> bool
    ensures { result ≡ sign x }
{
    SIGN <= x
}

// The pattern without its sign.
#[tactic(auto, unfolding(crate::specs::Patterns::mag))]
pub fn magnitude_of(x: u64) -> u64
    ensures { result ≡ mag x }
{
    x % SIGN
}

// The magnitude m with the sign of x.
pub fn with_sign(x: u64, m: u64) -> u64
    ensures { result ≡ with_sign x m }
{
    x / SIGN * SIGN + m % SIGN
}

// What the pattern is: zero, a finite number, infinity or NaN.
#[tactic(auto, unfolding(crate::specs::Patterns::kind_of))]
pub fn kind_of(x: u64) -> Kind
    ensures { result ≡ kind_of x }
{
    let m = magnitude_of(x);
    if m == 0 {
        return Kind::Zero;
    }
    if m < INFINITY {
        return Kind::Finite;
    }
    if m == INFINITY {
        return Kind::Infinity;
    }
    Kind::NaN
}

// The exponent by which the significand is shifted: one less than the field, and 0 where the field
// is 0 already.
pub fn exponent_of(m: u64) -> u64
    ensures { result ≡ ex m }
{
    (m >> 52).saturating_sub(1)
}

// The significand, with the one that stands in front of a normal number's fraction.
pub fn significand_of(m: u64) -> u64
    ensures { result ≡ sig m }
{
    m - (exponent_of(m) << 52)
}

// How many binary digits the value has. A normal number's first one stands in front of its
// fraction; below that the first one may stand anywhere, so the fraction's leading zeros are counted.
pub fn digits_of(m: u64) -> u64
    ensures { result ≡ digits_of m }
{
    if m < HIDDEN {
        return 64 - m.leading_zeros() as u64;
    }
    (m >> 52) + 52
}

// The pattern of 2^k units: below 2^52 units the fraction alone holds it, and from 2^1024 on, which
// is 2^2098 units, it is infinity's.
pub fn power_pattern(k: u64) -> u64
    ensures { result ≡ power_pattern k }
{
    if k < 52 {
        return 1 << k;
    }
    if k < 2098 {
        return (k - 51) << 52;
    }
    INFINITY
}
