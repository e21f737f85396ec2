// Whole arrays: rounded here, and packed and unpacked by the crate codearrays, whose calls are handed out
// too. A call decides first, by its numbers and the lengths of its arrays, and writes only where nothing
// is refused. The contracts cite the definitions in specs/; start with specs/Lib.antt. Every callable
// function answers for all inputs, arrays of any lengths among them.
#![tactic(auto)]

mod calls;
mod decisions;
mod inputs;
mod looking;
mod loops;
mod sweeping;

pub use calls::round_array;
pub use codearrays::{pack_array, unpack_array};
pub use decisions::{decide, uses_word};
pub use reports::{Refused, Report};
