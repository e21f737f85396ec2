// A target format's range and landmarks. The contracts cite the definitions in specs/; start with
// specs/Lib.antt. Every function here answers for all inputs.
#![tactic(auto)]

mod checks;
mod formats;

pub use checks::check_range;
pub use formats::{
    exponent_fits, in_range, precision_fits, smallest_normal_pattern, top_pattern, xmax_pattern,
    zeta_exponent,
};

// A target format: precision p in binary digits, the largest exponent emax, and whether subnormal
// numbers are kept. Any numbers may stand here; `in_range` tells whether the format is one of ours.
#[derive(Clone, Copy)]
pub struct Format {
    pub p: u64,
    pub emax: u64,
    pub sub: bool,
}
