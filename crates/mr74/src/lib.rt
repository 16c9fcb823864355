// The entries of 01 for Rust and C, a file for each section of include/mr74.h, two for the feed. An enum can't cross, so an answer is a struct: `number` is 0 where the entry accepted, else the refusal's number.
#![tactic(auto)]

pub mod channels;
pub mod closed_loop;
mod details;
pub mod filtering;
pub mod frames;
pub mod gain_row;
pub mod open_loop_lag;
pub mod power;
pub mod pulses;
pub mod records;
pub mod stability;
pub mod steps;
