// A code's pattern, by a layout. `c` is a code, `n` its exponent and fraction fields as one number.
ghost use Rattle.std.specs.Prelude.{◌≡◌};
ghost use Rattle.refusals.specs.Refusals.{in_numbers};
ghost use Rattle.bylayout.specs.Answers.{as_pattern, no_pattern};
ghost use Rattle.bylayout.specs.ByLayout.{small_pattern, magnitude_by, no_number_by, unpacked_by};

use layouts::Layout;
use patterns::{INFINITY, digits_of, magnitude_of, with_sign};
use places::{high_part, moved_up};
use refusals::Refusal;

// The magnitude pattern that every NaN is unpacked to.
const QUIET_NAN: u64 = 0x7FF8_0000_0000_0000;

// The pattern of n times 2^bottom: n is moved up until its first digit stands where a normal number
// has it, or as far as bottom goes, and what is left of bottom is the exponent.
#[tactic(auto, unfolding(crate::specs::ByLayout::small_pattern))]
fn small_pattern(bottom: u64, n: u64) -> u64
    ensures { result ≡ small_pattern bottom n }
{
    if n == 0 {
        return 0;
    }
    // below 2^52 a number is the pattern of itself, so its digits are the pattern's
    let room = 53u64.saturating_sub(digits_of(n));
    if bottom < room {
        return moved_up(n, bottom);
    }
    moved_up(bottom - room, 52).wrapping_add(moved_up(n, room))
}

// The magnitude pattern of the fields: below the normal range, in it, infinity, or NaN.
#[tactic(auto, unfolding(crate::specs::ByLayout::magnitude_by))]
fn unpack_magnitude(l: Layout, n: u64) -> u64
    ensures { result ≡ magnitude_by l n }
{
    if n < l.first {
        return small_pattern(l.bottom, n);
    }
    if n < l.infinity {
        return moved_up(n - l.first, l.cut).wrapping_add(l.normal);
    }
    if n == l.infinity {
        return INFINITY;
    }
    QUIET_NAN
}

// Whether the fields are no number: without subnormals, above 0 and below the normal range.
#[tactic(auto, unfolding(crate::specs::ByLayout::no_number_by))]
fn is_no_number(l: Layout, n: u64) -> bool
    ensures { result ≡ no_number_by l n }
{
    if l.sub {
        return false;
    }
    n != 0 && n < l.first
}

// The code c unpacked by the layout; or refused where it has too many bits, and then where it is no number.
// The code is moved to the top of a word, so that its sign stands where binary64 has it.
#[tactic(auto, unfolding(crate::specs::ByLayout::unpacked_by))]
pub fn unpack_by(l: Layout, c: u64) -> Result<u64, Refusal>
    ensures { in_numbers as_pattern no_pattern result ≡ unpacked_by l c }
{
    let w = moved_up(c, l.spare);
    let n = high_part(magnitude_of(w), l.spare);
    let no_number = is_no_number(l, n);
    if l.last < c {
        return Err(Refusal::CodeTooLarge);
    }
    if no_number {
        return Err(Refusal::NoNumber);
    }
    Ok(with_sign(w, unpack_magnitude(l, n)))
}
