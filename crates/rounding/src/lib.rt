// Rounding one binary64 pattern to a target format, in the nine modes of document 01. `round_one` is
// the whole call, with its refusals; a loop over many patterns calls `prepare` once and `round_by`
// for each. The contracts cite the definitions in specs/; start with specs/Lib.antt. Every callable
// function answers for all inputs.
#![tactic(auto)]

mod calls;
mod derived;

pub use calls::{prepare, round_by, round_one};
