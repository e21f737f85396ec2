// One binary64 pattern packed to a code, and one code unpacked, by the numbers of a layout, which are worked
// out once for a format by `lay_out` of the crate layouts. The contracts cite the definitions in specs/;
// start with specs/Lib.antt. Every callable function answers for all inputs, and for layouts of any
// numbers; what the answers mean for the layout of a format is said in the crate codes.
#![tactic(auto)]

mod packing;
mod unpacking;

pub use packing::pack_by;
pub use unpacking::unpack_by;
