// Reading binary64 patterns. The contracts cite the definitions in
// specs/; start with specs/Lib.antt. Every function here answers for all inputs.
#![tactic(auto)]

mod binary64;

pub use binary64::{
    INFINITY, SIGN, digits_of, exponent_of, kind_of, magnitude_of, power_pattern, sign_of,
    significand_of, with_sign,
};

// What a binary64 pattern is, whatever its sign. Finite leaves out zero.
#[derive(Clone, Copy)]
pub enum Kind {
    Zero,
    Finite,
    Infinity,
    NaN,
}
