// The calls: what the format refuses, then every word packed or unpacked by its layout.
ghost use Rattle.std.specs.Prelude.{◌≡◌, OnErr};
ghost use Rattle.reports.specs.Reports.{reported_by};
ghost use Rattle.codearrays.specs.Codes.{pack_reported, pack_afterwards, unpack_reported, unpack_afterwards};

use super::converting::convert_all;
use super::decisions::decide;
use bylayout::{pack_by, unpack_by};
use grid::Format;
use reports::Refused;
use words::Entry;

// The code of every pattern of xs into out; or a refusal, and out as it was. What stands behind the last word stays.
pub fn pack_array<T: Entry>(format: Format, xs: &[T], out: &mut [T]) -> Result<(), Refused>
    ensures answer { reported_by result ≡ pack_reported format (T.words xs.now) (T.words out.old) }
    ensures written { T.words out.new ≡ pack_afterwards format (T.words xs.now) (T.words out.old) }
    ensures rest { T.rest out.new ≡ T.rest out.old }
    ensures kept { OnErr result (out.new ≡ out.old) }
{
    let layout = decide(format, T::count(xs), T::count(out))?;
    convert_all(xs, out, |x| pack_by(layout, x))
}

// The pattern of every code into out; or a refusal, and out as it was. What stands behind the last word stays.
pub fn unpack_array<T: Entry>(format: Format, codes: &[T], out: &mut [T]) -> Result<(), Refused>
    ensures answer { reported_by result ≡ unpack_reported format (T.words codes.now) (T.words out.old) }
    ensures written { T.words out.new ≡ unpack_afterwards format (T.words codes.now) (T.words out.old) }
    ensures rest { T.rest out.new ≡ T.rest out.old }
    ensures kept { OnErr result (out.new ≡ out.old) }
{
    let layout = decide(format, T::count(codes), T::count(out))?;
    convert_all(codes, out, |code| unpack_by(layout, code))
}
