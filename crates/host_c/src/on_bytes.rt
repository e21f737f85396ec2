// The array calls on arrays of bytes, eight to a word and the low byte first.
ghost use Rattle.std.specs.Prelude.{◌≡◌};
ghost use Rattle.bytearrays.specs.Calls.{round_bytes_reported, round_bytes_afterwards, pack_bytes_reported, pack_bytes_afterwards, unpack_bytes_reported, unpack_bytes_afterwards};
ghost use Rattle.host.specs.Formats.{format_from};

use reports::Report;

// Every pattern of xs rounded into out, place i with word i in modes 7 and 8; or a refusal, and out as it
// was.
#[unsafe(no_mangle)]
pub extern "C" fn wharfgrain_round_bytes(
    p: u64,
    emax: u64,
    sub: u64,
    mode: u64,
    r: u64,
    words: &[u8],
    xs: &[u8],
    out: &mut [u8],
) -> Report
    ensures answer { result ≡ round_bytes_reported (format_from p emax sub) mode r words.now xs.now out.old }
    ensures written { out.new ≡ round_bytes_afterwards (format_from p emax sub) mode r words.now xs.now out.old }
{
    host::wharfgrain_round_bytes(p, emax, sub, mode, r, words, xs, out)
}

// The code of every pattern of xs into out; or a refusal, and out as it was.
#[unsafe(no_mangle)]
pub extern "C" fn wharfgrain_pack_bytes(
    p: u64,
    emax: u64,
    sub: u64,
    xs: &[u8],
    out: &mut [u8],
) -> Report
    ensures answer { result ≡ pack_bytes_reported (format_from p emax sub) xs.now out.old }
    ensures written { out.new ≡ pack_bytes_afterwards (format_from p emax sub) xs.now out.old }
{
    host::wharfgrain_pack_bytes(p, emax, sub, xs, out)
}

// The pattern of every code into out; or a refusal, and out as it was.
#[unsafe(no_mangle)]
pub extern "C" fn wharfgrain_unpack_bytes(
    p: u64,
    emax: u64,
    sub: u64,
    codes: &[u8],
    out: &mut [u8],
) -> Report
    ensures answer { result ≡ unpack_bytes_reported (format_from p emax sub) codes.now out.old }
    ensures written { out.new ≡ unpack_bytes_afterwards (format_from p emax sub) codes.now out.old }
{
    host::wharfgrain_unpack_bytes(p, emax, sub, codes, out)
}
