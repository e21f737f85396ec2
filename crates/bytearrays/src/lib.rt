// Whole arrays lent as bytes, eight to a word and the low byte first: rounded, packed and unpacked. Each call
// refuses lengths that are no whole number of words, and is otherwise the call on words. The contracts cite
// the definitions in specs/; start with specs/Lib.antt. Every callable function answers for all inputs,
// arrays of any lengths among them.
#![tactic(auto)]

mod decisions;
mod packing;
mod round;

pub use packing::{pack_bytes, unpack_bytes};
pub use round::round_bytes;
