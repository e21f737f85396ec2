// What depends only on the format and the mode.
ghost use Rattle.std.specs.Prelude.{true, ◌≡◌};
ghost use Rattle.grid.specs.Formats.{in_range};
ghost use Rattle.magnitudes.specs.BySettings.{settings};

use grid::{Format, top_pattern, xmax_pattern, zeta_exponent};
use magnitudes::{Mode, Settings};
use patterns::power_pattern;

// The settings for a format and a mode.
pub(crate) fn settings_of(f: Format, mode: Mode) -> Settings
    requires { in_range f ≡ true }
    ensures { result ≡ settings f mode }
{
    let bottom = zeta_exponent(f);
    Settings {
        mode,
        cut: 53 - f.p,
        emin: 1075 - f.emax,
        bottom,
        zeta: power_pattern(bottom),
        xmax: xmax_pattern(f),
        top: top_pattern(f),
    }
}
