// A job text run: read, rounded, and answered into a lent buffer. The contracts cite the definitions in
// specs/; start with specs/Lib.antt. The one callable function answers for all texts and all buffers.
#![tactic(auto)]

mod answers;
mod page;
mod runs;

pub use runs::run_job;
