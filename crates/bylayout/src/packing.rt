// A pattern's code, by a layout. `x` is a pattern, `m` its magnitude, `n` the exponent and fraction
// fields of a code as one number.
ghost use Rattle.std.specs.Prelude.{◌≡◌, cond};
ghost use Rattle.refusals.specs.Refusals.{in_numbers};
ghost use Rattle.bylayout.specs.Answers.{as_code, no_code};
ghost use Rattle.bylayout.specs.ByLayout.{held_by, finite_fields, code_by, has_as, fields_as, packed_by};

use layouts::Layout;
use patterns::{Kind, exponent_of, kind_of, magnitude_of, significand_of, with_sign};
use places::{high_part, low_part, moved_up};
use refusals::Refusal;

// Whether a finite magnitude is one of the format's: no digit stands below its last place, which below the
// normal range is zeta's, and it is below T.
#[tactic(auto, unfolding(crate::specs::ByLayout::held_by))]
fn holds(l: Layout, m: u64) -> bool
    ensures { result ≡ held_by l m }
{
    if m < l.normal {
        return low_part(significand_of(m), l.bottom.saturating_sub(exponent_of(m))) == 0;
    }
    m < l.top && low_part(m, l.cut) == 0
}

// The fields of a magnitude that is: below the normal range its digits down to that place; else those of
// the smallest normal number, and the difference of the two patterns without the cut digits.
#[tactic(auto, unfolding(crate::specs::ByLayout::finite_fields))]
fn finite_fields(l: Layout, m: u64) -> u64
    ensures { result ≡ finite_fields l m }
{
    if m < l.normal {
        return high_part(significand_of(m), l.bottom.saturating_sub(exponent_of(m)));
    }
    high_part(m - l.normal, l.cut).wrapping_add(l.first)
}

// The fields below the sign of x: put together at the top of a word, and moved down.
#[tactic(auto, unfolding(crate::specs::ByLayout::code_by))]
fn code_of(l: Layout, x: u64, n: u64) -> u64
    ensures { result ≡ code_by l x n }
{
    high_part(with_sign(x, moved_up(n, l.spare)), l.spare)
}

// The fields by what the pattern is, where the format has it: zeros, infinities and NaNs are in every format,
// and a finite number is asked for.
#[tactic(auto, unfolding(crate::specs::ByLayout::has_as, crate::specs::ByLayout::fields_as))]
fn fields_of(l: Layout, kind: Kind, m: u64) -> Option<u64>
    ensures { result ≡ cond (has_as l kind m) (Some (fields_as l kind m)) None }
{
    match kind {
        Kind::Zero => Some(0),
        Kind::Finite => {
            if holds(l, m) {
                Some(finite_fields(l, m))
            } else {
                None
            }
        }
        Kind::Infinity => Some(l.infinity),
        Kind::NaN => Some(l.nan),
    }
}

// The pattern x packed by the layout, or refused where the format lacks it.
#[tactic(auto, unfolding(crate::specs::ByLayout::packed_by))]
pub fn pack_by(l: Layout, x: u64) -> Result<u64, Refusal>
    ensures { in_numbers as_code no_code result ≡ packed_by l x }
{
    let n = fields_of(l, kind_of(x), magnitude_of(x)).ok_or(Refusal::NotInFormat)?;
    Ok(code_of(l, x, n))
}
