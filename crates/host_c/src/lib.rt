// The static library that a program in C links: what include/wharfgrain.h declares, a known format and
// whole arrays rounded, packed and unpacked. Each entry point hands on what it is given to the function of
// its name in the crate host, and promises in the same words what that one promises; start with the crate
// host's specs/Lib.antt. Every function answers for all inputs, arrays of any lengths among them.
#![tactic(auto)]

mod formats;
mod on_bytes;
mod on_words;
