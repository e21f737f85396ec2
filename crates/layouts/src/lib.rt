// The bits of a format's own code: which formats have one, and the numbers by which patterns are
// packed and codes unpacked, worked out once for a format. The contracts cite the definitions in
// specs/; start with specs/Lib.antt. Every callable function answers for all inputs.
#![tactic(auto)]

mod derived;

pub use derived::lay_out;

// What depends only on the format. `normal` and `top` are binary64 patterns, `first`, `infinity` and
// `nan` codes without a sign. Any numbers may stand here; `lay_out` makes those of a format.
#[derive(Clone, Copy)]
pub struct Layout {
    // whether subnormal numbers are kept
    pub sub: bool,
    // how many bits of a word the code leaves free: 64 - k
    pub spare: u64,
    // the last code: k ones
    pub last: u64,
    // how many fraction bits binary64 has more: 53 - p
    pub cut: u64,
    // the exponent of zeta, counted from 2^-1074
    pub bottom: u64,
    // the smallest normal number
    pub normal: u64,
    // T
    pub top: u64,
    // the code of the smallest normal number
    pub first: u64,
    // the code of infinity
    pub infinity: u64,
    // the code of a NaN
    pub nan: u64,
}
