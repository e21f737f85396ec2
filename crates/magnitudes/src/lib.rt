// Rounding one magnitude in the nine modes of document 01, by settings that are worked out once for a
// format and a mode. `mode_of` makes a mode of its number, and `round_magnitude` rounds; what a mode adds
// below a place, and what it makes of overflow, can be asked for too. The contracts cite the definitions in
// specs/; start with specs/Lib.antt. Every callable function answers for all inputs.
#![tactic(auto)]

mod destinations;
mod modes;

pub use destinations::round_magnitude;
pub use modes::{increment_at, mode_of, overflows_to_infinity};

// The rounding modes, in the order of their numbers, 0 to 8. Stochastic rounding holds its count r
// of random bits.
#[derive(Clone, Copy)]
pub enum Mode {
    TiesToEven,
    TiesToZero,
    TiesAway,
    TowardZero,
    TowardPlus,
    TowardMinus,
    ToOdd,
    Stochastic(u64),
    EvenChance,
}

// What depends only on the format and the mode, worked out once for many patterns.
#[derive(Clone, Copy)]
pub struct Settings {
    pub mode: Mode,
    // how many digits of a significand are cut in the normal range
    pub cut: u64,
    // a magnitude of more digits than this is in the normal range
    pub emin: u64,
    // the exponent of zeta, which is the step below the normal range
    pub bottom: u64,
    // the patterns of zeta, xmax and T
    pub zeta: u64,
    pub xmax: u64,
    pub top: u64,
}
