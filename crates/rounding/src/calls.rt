// The calls: what is refused, and what is answered.
ghost use Rattle.std.specs.Prelude.{◌≡◌, IfOk};
ghost use Rattle.refusals.specs.Refusals.{in_numbers, refusal_number};
ghost use Rattle.magnitudes.specs.Modes.{mode_of};
ghost use Rattle.rounding.specs.BySettings.{Ready, Refused, rounded_by, prepared};
ghost use Rattle.rounding.specs.Calls.{bits_fit, mode_refusal, refusal, answered, refused, round_one};

use super::derived::settings_of;
use grid::{Format, check_range};
use magnitudes::{Mode, Settings, mode_of, round_magnitude};
use patterns::{Kind, kind_of, with_sign};
use refusals::Refusal;

// Whether r is from 1 to 53.
#[tactic(auto, unfolding(crate::specs::Calls::bits_fit, grid::specs::Formats::between))]
fn bits_fit(r: u64) -> bool
    ensures { result ≡ bits_fit r }
{
    (1..=53).contains(&r)
}

// The mode with this number, or the first refusal that applies: that of the mode, then that of r, which only
// mode 7 looks at.
fn checked_mode(mode: u64, r: u64) -> Result<Mode, Refusal>
    ensures number { refusal_number result ≡ mode_refusal mode r }
    ensures mode { IfOk result (λ m. m ≡ mode_of mode r) }
{
    if 8 < mode {
        return Err(Refusal::Mode);
    }
    if mode == 7 && !bits_fit(r) {
        return Err(Refusal::RandomBits);
    }
    Ok(mode_of(mode, r))
}

// The settings to round by, or the first refusal that applies: that of p, of emax, of the mode, or of r.
#[tactic(auto, using(crate::proofs::Refusals::by_range, crate::proofs::Refusals::by_mode, crate::proofs::Refusals::range_accepted, crate::proofs::WholeCalls::prepared_ready, crate::proofs::WholeCalls::prepared_refused))]
pub fn prepare(format: Format, mode: u64, r: u64) -> Result<Settings, Refusal>
    ensures number { refusal_number result ≡ refusal format mode r }
    ensures answer { in_numbers Ready Refused result ≡ prepared format mode r }
{
    check_range(format)?;
    let known = checked_mode(mode, r)?;
    Ok(settings_of(format, known))
}

// The pattern x rounded by the settings. The word is looked at in modes 7 and 8 only.
#[tactic(auto, unfolding(crate::specs::BySettings::rounded_by, crate::specs::Rounded::answer_to))]
pub fn round_by(s: Settings, word: u64, x: u64) -> u64
    ensures { result ≡ rounded_by s word x }
{
    match kind_of(x) {
        Kind::Zero | Kind::Infinity | Kind::NaN => x,
        Kind::Finite => {
            let m = round_magnitude(s, word, x);
            with_sign(x, m)
        }
    }
}

// One pattern rounded to a format, or refused. r is looked at in mode 7 only, the word in modes 7
// and 8 only.
#[tactic(auto, using(crate::proofs::WholeCalls::answer_ready, crate::proofs::WholeCalls::answer_refused))]
pub fn round_one(format: Format, mode: u64, r: u64, word: u64, x: u64) -> Result<u64, Refusal>
    ensures { in_numbers answered refused result ≡ round_one format mode r word x }
{
    let s = prepare(format, mode, r)?;
    Ok(round_by(s, word, x))
}
