// A known format in numbers.
ghost use Rattle.std.specs.Prelude.{◌≡◌};
ghost use Rattle.known.specs.Table.{lookup};
ghost use Rattle.host.specs.Formats.{in_numbers};

use host::KnownFormat;

// The known format with this number; refused as 11 above 5.
#[unsafe(no_mangle)]
pub extern "C" fn wharfgrain_known(known: u64) -> KnownFormat
    ensures { result ≡ in_numbers (lookup known) }
{
    host::wharfgrain_known(known)
}
