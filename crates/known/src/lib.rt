// The known formats, looked up by number. The table stands here once; what it must hold is in
// specs/Table.antt, in the order of document 01.
#![tactic(auto)]

ghost use Rattle.std.specs.Prelude.{◌≡◌};
ghost use Rattle.refusals.specs.Refusals.{in_numbers};
ghost use Rattle.known.specs.Table.{with_format, refused, lookup};

use grid::Format;
use refusals::Refusal;

const TABLE: [Format; 6] = [
    // 0: binary16
    Format {
        p: 11,
        emax: 15,
        sub: true,
    },
    // 1: bfloat16
    Format {
        p: 8,
        emax: 127,
        sub: true,
    },
    // 2: TensorFloat-32
    Format {
        p: 11,
        emax: 127,
        sub: true,
    },
    // 3: binary32
    Format {
        p: 24,
        emax: 127,
        sub: true,
    },
    // 4: binary64
    Format {
        p: 53,
        emax: 1023,
        sub: true,
    },
    // 5: E5M2, by IEEE's rules
    Format {
        p: 3,
        emax: 15,
        sub: true,
    },
];

// The known format with this number; refused as unknown above the table's end.
pub fn known_format(known: u64) -> Result<Format, Refusal>
    ensures { in_numbers with_format refused result ≡ lookup known }
{
    TABLE
        .get(known as usize)
        .copied()
        .ok_or(Refusal::UnknownFormat)
}
