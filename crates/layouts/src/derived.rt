// A format's layout, and the refusals that come before any code or pattern is looked at.
ghost use Rattle.std.specs.Prelude.{true, ◌≡◌, ◌+◌, ◌-◌, ◌*◌, ◌^◌, ◌≤◌, ◌<◌};
ghost use Rattle.refusals.specs.Refusals.{in_numbers};
ghost use Rattle.grid.specs.Formats.{exponent_fits};
ghost use Rattle.layouts.specs.Fields.{be, has_code};
ghost use Rattle.layouts.specs.Calls.{format_refusal};
ghost use Rattle.layouts.specs.Layouts.{layout, ready, refused, laid};

use super::Layout;
use grid::{Format, check_range, smallest_normal_pattern, top_pattern, zeta_exponent};
use patterns::digits_of;
use refusals::Refusal;

// How many bits the exponent field has: the digits of emax + 1, which is small enough to be the pattern
// of itself.
#[tactic(auto, using(crate::proofs::Layouts::emax_most, crate::proofs::Layouts::exponent_bits_are))]
fn exponent_bits(f: Format) -> u64
    requires { exponent_fits f.emax ≡ true }
    ensures { result ≡ be f }
{
    digits_of(f.emax + 1)
}

// Whether emax + 1 is a power of two.
fn has_code(f: Format) -> bool
    requires { exponent_fits f.emax ≡ true }
    ensures { result ≡ has_code f }
{
    f.emax + 1 == 1 << (exponent_bits(f) - 1)
}

// The code of infinity, without its sign: an exponent field of ones only.
fn infinity_code(bits: u64, p: u64) -> u64
    requires bits_bound { bits ≤ 11 }
    requires le_p { 2 ≤ p }
    requires p_bound { p ≤ 53 }
    ensures { result ≡ (2 ^ bits - 1) * 2 ^ (p - 1) }
{
    ((1 << bits) - 1) << (p - 1)
}

// The code of a NaN, without its sign: the same with the top fraction bit.
#[tactic(auto, using(crate::proofs::Layouts::nan_code_is, crate::proofs::Layouts::nan_code_fits))]
fn nan_code(infinity: u64, p: u64) -> u64
    requires infinity_bound { infinity < 2 ^ 63 }
    requires le_p { 2 ≤ p }
    requires p_bound { p ≤ 53 }
    ensures { result ≡ infinity + 2 ^ (p - 2) }
{
    infinity + (1 << (p - 2))
}

// The layout of a format that has a code.
#[tactic(auto, using(crate::proofs::Refusals::accepted_exponent_fits, crate::proofs::Refusals::accepted_inside, crate::proofs::Layouts::accepted_bits_most, crate::proofs::Layouts::infinity_code_below))]
fn layout_of(f: Format) -> Layout
    requires { format_refusal f ≡ 0 }
    ensures { result ≡ layout f }
{
    let bits = exponent_bits(f);
    let spare = 64 - bits - f.p;
    let infinity = infinity_code(bits, f.p);
    Layout {
        sub: f.sub,
        spare,
        last: 0xFFFF_FFFF_FFFF_FFFF >> spare,
        cut: 53 - f.p,
        bottom: zeta_exponent(f),
        normal: smallest_normal_pattern(f),
        top: top_pattern(f),
        first: 1 << (f.p - 1),
        infinity,
        nan: nan_code(infinity, f.p),
    }
}

// The layout to pack and unpack by; or the first refusal that applies, that of p or of emax, and then that
// of a format without a code.
#[tactic(auto, using(crate::proofs::Refusals::refuses_range, crate::proofs::Refusals::asked_exponent_fits, crate::proofs::Refusals::accepts_code, crate::proofs::Layouts::laid_ready, crate::proofs::Layouts::laid_refused, crate::proofs::Layouts::laid_without_code))]
pub fn lay_out(format: Format) -> Result<Layout, Refusal>
    ensures { in_numbers ready refused result ≡ laid format }
{
    check_range(format)?;
    if !has_code(format) {
        return Err(Refusal::NoCode);
    }
    Ok(layout_of(format))
}
