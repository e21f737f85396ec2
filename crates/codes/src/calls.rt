// The whole calls: the format's refusals, then the pattern's or the code's.
ghost use Rattle.std.specs.Prelude.{◌≡◌};
ghost use Rattle.refusals.specs.Refusals.{in_numbers};
ghost use Rattle.bylayout.specs.Answers.{as_code, no_code, as_pattern, no_pattern};
ghost use Rattle.codes.specs.Calls.{pack_one, unpack_one};

use bylayout::{pack_by, unpack_by};
use grid::Format;
use layouts::lay_out;
use refusals::Refusal;

// One pattern packed to a format's code, or refused.
#[tactic(auto, using(crate::proofs::WholeCalls::pack_answered, crate::proofs::WholeCalls::pack_refused_lem))]
pub fn pack_one(format: Format, x: u64) -> Result<u64, Refusal>
    ensures { in_numbers as_code no_code result ≡ pack_one format x }
{
    pack_by(lay_out(format)?, x)
}

// One code of a format unpacked to a pattern, or refused.
#[tactic(auto, using(crate::proofs::WholeCalls::unpack_answered, crate::proofs::WholeCalls::unpack_refused))]
pub fn unpack_one(format: Format, c: u64) -> Result<u64, Refusal>
    ensures { in_numbers as_pattern no_pattern result ≡ unpack_one format c }
{
    unpack_by(lay_out(format)?, c)
}
