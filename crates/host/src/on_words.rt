// The array calls on arrays of 64-bit words.
ghost use Rattle.std.specs.Prelude.{◌≡◌};
ghost use Rattle.arrays.specs.Rounding.{reported, afterwards};
ghost use Rattle.codearrays.specs.Codes.{pack_reported, pack_afterwards, unpack_reported, unpack_afterwards};
ghost use Rattle.host.specs.Formats.{format_from};

use super::formats::format_from;
use arrays::{pack_array, round_array, unpack_array};
use reports::Report;

// Every pattern of xs rounded into out, place i with word i in modes 7 and 8; or a refusal, and out as it
// was.
pub fn wharfgrain_round(
    p: u64,
    emax: u64,
    sub: u64,
    mode: u64,
    r: u64,
    words: &[u64],
    xs: &[u64],
    out: &mut [u64],
) -> Report
    ensures answer { result ≡ reported (format_from p emax sub) mode r words.now xs.now out.old }
    ensures written { out.new ≡ afterwards (format_from p emax sub) mode r words.now xs.now out.old }
{
    round_array(format_from(p, emax, sub), mode, r, words, xs, out).into()
}

// The code of every pattern of xs into out; or a refusal, and out as it was.
pub fn wharfgrain_pack(p: u64, emax: u64, sub: u64, xs: &[u64], out: &mut [u64]) -> Report
    ensures answer { result ≡ pack_reported (format_from p emax sub) xs.now out.old }
    ensures written { out.new ≡ pack_afterwards (format_from p emax sub) xs.now out.old }
{
    pack_array(format_from(p, emax, sub), xs, out).into()
}

// The pattern of every code into out; or a refusal, and out as it was.
pub fn wharfgrain_unpack(p: u64, emax: u64, sub: u64, codes: &[u64], out: &mut [u64]) -> Report
    ensures answer { result ≡ unpack_reported (format_from p emax sub) codes.now out.old }
    ensures written { out.new ≡ unpack_afterwards (format_from p emax sub) codes.now out.old }
{
    unpack_array(format_from(p, emax, sub), codes, out).into()
}
