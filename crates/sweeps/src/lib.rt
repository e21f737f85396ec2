// Rounding at speed: what a loop over a whole array does at each of its places. Most numbers are rounded by
// `plain` or `capped`: a sum, a mask, and a test whether they fit, without a branch. The rest goes by two
// tables, which are filled once for a whole array: a number's exponent says its place, and the place says what
// is added and what is kept. What the tables leave out is for the single rounding of the crate rounding. The
// contracts cite the definitions in specs/; start with specs/Lib.antt. Every function here answers for all
// inputs.
#![tactic(auto)]

mod derived;
mod quick;
mod rows;
mod rules;
mod stretches;

pub use derived::limits_of;
pub use quick::{capped, plain};
pub use rows::{by_row, fill_rows};
pub use rules::{fill_places, place_by};
pub use stretches::stretch_end;

// Between which magnitude patterns a number is rounded without a branch, and by what.
#[derive(Clone, Copy)]
pub struct Limits {
    // how many digits are cut
    pub cut: u64,
    // the least that fits, which is the smallest normal number
    pub least: u64,
    // the most that fits `plain`
    pub most: u64,
    // T is this far below the sign bit, and this far below infinity
    pub room: u64,
    pub gap: u64,
}

// What a number is rounded to, and whether that holds: it does where the top bit of `unfit` is not set. It is no Option,
// since a loop gathers these bits by OR, and tests them once for a whole stretch.
#[derive(Clone, Copy)]
pub struct Swept {
    pub answer: u64,
    pub unfit: u64,
}
