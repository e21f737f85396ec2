// One binary64 pattern to a format's own code, and back. `pack_one` and `unpack_one` are the whole
// calls, with their refusals; a loop over many calls `lay_out` of the crate layouts once, and `pack_by`
// or `unpack_by` of the crate bylayout for each. The contracts cite the definitions in specs/; start
// with specs/Lib.antt. Every callable function answers for all inputs.
#![tactic(auto)]

mod calls;

pub use calls::{pack_one, unpack_one};
