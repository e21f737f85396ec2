// A format as C has it: three numbers.
ghost use Rattle.std.specs.Prelude.{◌≡◌};
ghost use Rattle.known.specs.Table.{lookup};
ghost use Rattle.host.specs.Formats.{format_from, by_number, in_numbers};

use super::KnownFormat;
use grid::Format;
use known::known_format;
use refusals::Refusal;

// The format that three numbers from C stand for: of sub, 0 is off and every other number on.
pub(crate) fn format_from(p: u64, emax: u64, sub: u64) -> Format
    ensures { result ≡ format_from p emax sub }
{
    Format {
        p,
        emax,
        sub: sub != 0,
    }
}

impl From<Result<Format, Refusal>> for KnownFormat {
    ghost from_gives = { λ found numbers. numbers ≡ in_numbers (by_number found) };

    // A format that was found, or its refusal, copied out number by number.
    fn from(found: Result<Format, Refusal>) -> KnownFormat {
        match found {
            Ok(format) => KnownFormat {
                number: 0,
                p: format.p,
                emax: format.emax,
                sub: format.sub as u64,
            },
            Err(refusal) => KnownFormat {
                number: refusal.number(),
                p: 0,
                emax: 0,
                sub: 0,
            },
        }
    }
}

// The known format with this number; refused as 11 above 5.
pub fn wharfgrain_known(known: u64) -> KnownFormat
    ensures { result ≡ in_numbers (lookup known) }
{
    known_format(known).into()
}
