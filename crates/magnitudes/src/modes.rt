// The nine modes: by number, and the two tables of document 01. The choice between lo and hi is made
// by a sum: the rest below the step and the mode's increment reach the step exactly where hi is taken.
ghost use Rattle.std.specs.Prelude.{◌≡◌, ◌*◌, ◌/◌, ◌%◌, ◌^◌, ◌<◌};
ghost use Rattle.magnitudes.specs.Modes.{mode_of, overflows, u};
ghost use Rattle.magnitudes.specs.Increments.{increment};

use super::Mode;
use patterns::SIGN;
use places::high_part;

// The mode with this number. Numbers above 8 are for the caller to refuse; here they are 8. It is no `From`
// of a number, since only mode 7 holds r.
#[tactic(auto, using(crate::proofs::ModeTables::mode_past), unfolding(crate::specs::Modes::mode_of))]
pub fn mode_of(mode: u64, r: u64) -> Mode
    ensures { result ≡ mode_of mode r }
{
    match mode {
        0 => Mode::TiesToEven,
        1 => Mode::TiesToZero,
        2 => Mode::TiesAway,
        3 => Mode::TowardZero,
        4 => Mode::TowardPlus,
        5 => Mode::TowardMinus,
        6 => Mode::ToOdd,
        7 => Mode::Stochastic(r),
        _ => Mode::EvenChance,
    }
}

// Private functions ask for a place below 64, a word's: with a type of such places a field would stand between each
// number and the definition that takes it.

// The share of 2^d that the last r bits of the word are of 2^r, rounded down. They are moved up to the bits
// below the sign, and from there down to those below place d.
fn share(word: u64, r: u64, d: u64) -> u64
    requires { d < 64 }
    ensures { result ≡ u r word * 2 ^ d / 2 ^ r }
{
    if r < 64 {
        return ((word << (63 - r)) % SIGN) >> (63 - d);
    }
    high_part(word, r - d)
}

// What the mode adds below place d: by the sign, lo's m and the word.
#[tactic(auto, using(laws::proofs::Words::one_shifted, laws::proofs::Words::one_shifted_some), unfolding(crate::specs::Increments::increment))]
pub(crate) fn increment_of(mode: Mode, negative: bool, m: u64, d: u64, word: u64) -> u64
    requires { d < 64 }
    ensures { result ≡ increment mode negative m (2 ^ d) word }
{
    let below = (1 << d) - 1;
    match mode {
        Mode::TiesToEven => ((below >> 1) + m % 2) & below,
        Mode::TiesToZero => below >> 1,
        Mode::TiesAway => (1 << d) >> 1,
        Mode::TowardZero => 0,
        Mode::TowardPlus => if negative { 0 } else { below },
        Mode::TowardMinus => if negative { below } else { 0 },
        Mode::ToOdd => (below + m % 2) & below,
        Mode::Stochastic(r) => share(word, r, d),
        Mode::EvenChance => if word % 2 == 1 { below } else { 0 },
    }
}

// The same for any place, which is counted round a word's 64.
pub fn increment_at(mode: Mode, negative: bool, m: u64, d: u64, word: u64) -> u64
    ensures { result ≡ increment mode negative m (2 ^ (d % 64)) word }
{
    increment_of(mode, negative, m, d % 64, word)
}

// Whether a magnitude from T on becomes infinity; where not, it becomes xmax.
#[tactic(auto, unfolding(crate::specs::Modes::overflows))]
pub fn overflows_to_infinity(mode: Mode, negative: bool) -> bool
    ensures { result ≡ overflows mode negative }
{
    match mode {
        Mode::TiesToEven | Mode::TiesToZero | Mode::TiesAway => true,
        Mode::TowardZero | Mode::ToOdd => false,
        Mode::TowardPlus => !negative,
        Mode::TowardMinus => negative,
        Mode::Stochastic(_) | Mode::EvenChance => true,
    }
}
