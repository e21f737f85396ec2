// What depends only on the settings: the limits between which numbers are rounded without a branch.
ghost use Rattle.std.specs.Prelude.{◌≡◌, ◌≤◌, true, false, MatchOption};
ghost use Rattle.sweeps.specs.Limits.{sound_places, sound_top, sound, steady, most, limits};

use super::Limits;
use magnitudes::{Mode, Settings};
use patterns::{INFINITY, SIGN};

// The smallest normal pattern: a step of the exponent field.
const FIELD: u64 = 0x0010_0000_0000_0000;

// Whether digits are cut as by a format, in the normal range and below it.
fn places_are_sound(cut: u64, emin: u64, bottom: u64) -> bool
    ensures { result ≡ sound_places cut emin bottom }
{
    if 51 < cut {
        return false;
    }
    if emin < 52 {
        return false;
    }
    if emin < bottom {
        return false;
    }
    emin - bottom <= 52 - cut
}

// Whether T and xmax are as a format's.
fn top_is_sound(cut: u64, emin: u64, xmax: u64, top: u64) -> bool
    requires cut_bound { cut ≤ 51 }
    requires le_emin { 52 ≤ emin }
    ensures { result ≡ sound_top cut emin xmax top }
{
    if INFINITY < top {
        return false;
    }
    if top % FIELD != 0 {
        return false;
    }
    if top / FIELD <= emin - 51 {
        return false;
    }
    xmax == top - (1 << cut)
}

// Whether the mode never goes from below T to T: toward zero and to odd, since xmax is odd.
#[tactic(auto, using(crate::proofs::Steadiness::not_steady), unfolding(crate::specs::Limits::steady))]
fn is_steady(mode: Mode) -> bool
    ensures { result ≡ steady mode }
{
    matches!(mode, Mode::TowardZero | Mode::ToOdd)
}

// Whether the settings are as those of a format are.
fn is_sound(s: Settings) -> bool
    ensures { result ≡ sound s }
{
    places_are_sound(s.cut, s.emin, s.bottom) && top_is_sound(s.cut, s.emin, s.xmax, s.top)
}

// Settings that are as those of a format are: what is rounded quickly by them is rounded right.
#[derive(Clone, Copy)]
pub(crate) struct Sound {
    pub s: Settings,
    ghost sound: { sound s ≡ true },
}

impl Sound {
    // The settings, where they are sound.
    pub(crate) fn check(s: Settings) -> Option<Sound>
        ensures { MatchOption result (sound s ≡ false) (λ it. it.s ≡ s) }
    {
        if is_sound(s) {
            return Some(Sound { s });
        }
        None
    }

    // The most that fits `plain`: what is above xmax may go to T, but not in a steady mode.
    fn most(self) -> u64
        ensures { result ≡ most self.s }
    {
        if is_steady(self.s.mode) {
            return self.s.top - 1;
        }
        self.s.xmax
    }

    // The limits of the settings.
    fn limits(self) -> Limits
        ensures { result ≡ limits self.s }
    {
        let s = self.s;
        Limits {
            cut: s.cut,
            least: (s.emin - 51) << 52,
            most: self.most(),
            room: SIGN - s.top,
            gap: INFINITY - s.top,
        }
    }
}

// The limits of the settings. Nothing fits those of settings that no format has.
pub fn limits_of(s: Settings) -> Limits
    ensures { result ≡ limits s }
{
    if let Some(it) = Sound::check(s) {
        return it.limits();
    }
    Limits {
        cut: 0,
        least: SIGN,
        most: 0,
        room: 0,
        gap: 0,
    }
}
