// What a program in C calls, as include/wharfgrain.h declares it: a known format, and whole arrays rounded,
// packed and unpacked, lent as 64-bit words or as bytes. The functions hand on what they are given, the
// format as three numbers, and answer what the crates below answer; the crate host_c exports them. The
// contracts cite the definitions in specs/; start with specs/Lib.antt. Every function answers for all
// inputs, arrays of any lengths among them.
#![tactic(auto)]

mod formats;
mod on_bytes;
mod on_words;

pub use formats::wharfgrain_known;
pub use on_bytes::{wharfgrain_pack_bytes, wharfgrain_round_bytes, wharfgrain_unpack_bytes};
pub use on_words::{wharfgrain_pack, wharfgrain_round, wharfgrain_unpack};

// A known format as C has it: number 0 and the format, or number 11 and zeros.
#[repr(C)]
#[derive(Clone, Copy)]
pub struct KnownFormat {
    pub number: u64,
    pub p: u64,
    pub emax: u64,
    pub sub: u64,
}
