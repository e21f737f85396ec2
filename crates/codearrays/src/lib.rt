// Whole arrays packed to a format's own codes, and unpacked: arrays of words, and words among bytes. A call
// decides first, by its format and the lengths of its arrays; then it looks through the words for the lowest
// that is refused; and only where there is none it writes. The contracts cite the definitions in specs/;
// start with specs/Lib.antt. Every callable function answers for all inputs, arrays of any lengths among
// them.
#![tactic(auto)]

mod calls;
mod converting;
mod decisions;

pub use calls::{pack_array, unpack_array};
pub use decisions::codes_refusal;
