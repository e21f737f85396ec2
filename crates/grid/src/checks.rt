// Which formats are refused.
ghost use Rattle.std.specs.Prelude.{◌≡◌};
ghost use Rattle.refusals.specs.Refusals.{refusal_number};
ghost use Rattle.grid.specs.Formats.{range_refusal};

use super::Format;
use super::formats::{exponent_fits, precision_fits};
use refusals::Refusal;

// Nothing where the format is in range; or the first refusal that applies, that of p before that of emax.
pub fn check_range(f: Format) -> Result<(), Refusal>
    ensures { refusal_number result ≡ range_refusal f }
{
    if !precision_fits(f.p) {
        return Err(Refusal::Precision);
    }
    if !exponent_fits(f.emax) {
        return Err(Refusal::Exponent);
    }
    Ok(())
}
