// An array of patterns rounded as bytes.
ghost use Rattle.std.specs.Prelude.{◌≡◌};
ghost use Rattle.reports.specs.Reports.{reported_by};
ghost use Rattle.bytearrays.specs.Calls.{round_bytes_reported, round_bytes_afterwards};

use super::decisions::check_whole;
use arrays::round_array;
use grid::Format;
use reports::Refused;
use rounding::prepare;

// Rounds every pattern of xs into out, place i with word i in modes 7 and 8; or refuses, and leaves out as it was.
pub fn round_bytes(
    format: Format,
    mode: u64,
    r: u64,
    words: &[u8],
    xs: &[u8],
    out: &mut [u8],
) -> Result<(), Refused>
    ensures answer { reported_by result ≡ round_bytes_reported format mode r words.now xs.now out.old }
    ensures written { out.new ≡ round_bytes_afterwards format mode r words.now xs.now out.old }
{
    check_whole(xs.len(), out.len(), || prepare(format, mode, r))?;
    round_array(format, mode, r, words, xs, out)
}
