// One number rounded without a branch: the mode's increment is added, and what is below the cut is cleared.
// Whether the number was one for which this is right is said beside it, for the loop to gather. Private functions ask for a place below
// 64: with a type of such places a field would stand between each number and the definition that takes it.
ghost use Rattle.std.specs.Prelude.{◌≡◌, ◌+◌, ◌*◌, ◌/◌, ◌%◌, ◌^◌, ◌<◌, if◌then◌else◌, nat_le};
ghost use Rattle.sweeps.specs.Quick.{added, plainly, cappedly};

use super::{Limits, Swept};
use magnitudes::{Mode, increment_at};
use patterns::{SIGN, magnitude_of, sign_of};

// What the mode adds to x below place d. The last kept digit of a normal number is the pattern's own.
#[tactic(auto, unfolding(crate::specs::Quick::added))]
fn added_to(mode: Mode, word: u64, x: u64, d: u64) -> u64
    requires { d < 64 }
    ensures { result ≡ added mode word x d }
{
    increment_at(mode, sign_of(x), x >> d, d, word)
}

// The sum of x and what is added, with the digits below place d cleared.
fn cleared_sum(x: u64, more: u64, d: u64) -> u64
    requires { d < 64 }
    ensures { result ≡ (x + more) % 2 ^ 64 / 2 ^ d * 2 ^ d }
{
    (x.wrapping_add(more) >> d) << d
}

// n where the top bit of the sum is set, and nothing where not.
fn if_past(high: u64, more: u64, n: u64) -> u64
    ensures { result ≡ (if nat_le (2 ^ 63) ((high + more) % 2 ^ 64) then n else 0) }
{
    if SIGN <= high.wrapping_add(more) {
        return n;
    }
    0
}

// A normal number up to the most that fits. It cannot come out as T. It is put into the loops that sweep, as
// `capped` is, before the compiler improves them: only then does mode 7 get a loop for each way to a share.
#[inline(always)]
#[tactic(auto, unfolding(crate::specs::Quick::plainly, crate::specs::Quick::cleared, crate::specs::Quick::less))]
pub fn plain(l: Limits, mode: Mode, word: u64, x: u64) -> Swept
    ensures { result ≡ plainly l mode word x }
{
    let d = l.cut % 64;
    let m = magnitude_of(x);
    let more = added_to(mode, word, x, d);
    let low = m.wrapping_sub(l.least);
    let high = l.most.wrapping_sub(m);
    Swept {
        answer: cleared_sum(x, more, d),
        unfit: low | high,
    }
}

// A normal number below T. What comes out as T is moved on to infinity. In a format of few digits many
// numbers do.
#[inline(always)]
#[tactic(auto, unfolding(crate::specs::Quick::cappedly, crate::specs::Quick::cleared, crate::specs::Quick::less))]
pub fn capped(l: Limits, mode: Mode, word: u64, x: u64) -> Swept
    ensures { result ≡ cappedly l mode word x }
{
    let d = l.cut % 64;
    let m = magnitude_of(x);
    let more = added_to(mode, word, x, d);
    let low = m.wrapping_sub(l.least);
    let high = m.wrapping_add(l.room);
    Swept {
        answer: cleared_sum(x, more, d).wrapping_add(if_past(high, more, l.gap)),
        unfit: low | high,
    }
}
