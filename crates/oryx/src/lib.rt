// ORYX, the data encryption of TR45.0.A: three registers of 32 bits and a table of 256 bytes give a mask of any length for each
// frame of a call. Public: `step_k`, `step_a`, `step_b` (one step of a register), and on `OryxCall`, which holds what a call needs:
// `new`, `mask` (the mask of a frame), `cipher` (a body with the mask XORed onto it).
#![tactic(auto)]

pub mod call;
mod key_stream;
mod registers;
pub mod steps;
mod tables;
