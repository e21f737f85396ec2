// Arrays packed and unpacked as bytes.
ghost use Rattle.std.specs.Prelude.{◌≡◌};
ghost use Rattle.reports.specs.Reports.{reported_by};
ghost use Rattle.bytearrays.specs.Calls.{pack_bytes_reported, pack_bytes_afterwards, unpack_bytes_reported, unpack_bytes_afterwards};

use super::decisions::check_whole;
use codearrays::{pack_array, unpack_array};
use grid::Format;
use layouts::lay_out;
use reports::Refused;

// The code of every pattern of xs into out; or a refusal, and out as it was.
pub fn pack_bytes(format: Format, xs: &[u8], out: &mut [u8]) -> Result<(), Refused>
    ensures answer { reported_by result ≡ pack_bytes_reported format xs.now out.old }
    ensures written { out.new ≡ pack_bytes_afterwards format xs.now out.old }
{
    check_whole(xs.len(), out.len(), || lay_out(format))?;
    pack_array(format, xs, out)
}

// The pattern of every code into out; or a refusal, and out as it was.
pub fn unpack_bytes(format: Format, codes: &[u8], out: &mut [u8]) -> Result<(), Refused>
    ensures answer { reported_by result ≡ unpack_bytes_reported format codes.now out.old }
    ensures written { out.new ≡ unpack_bytes_afterwards format codes.now out.old }
{
    check_whole(codes.len(), out.len(), || lay_out(format))?;
    unpack_array(format, codes, out)
}
