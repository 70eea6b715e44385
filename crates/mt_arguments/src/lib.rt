//! The arguments of a program, and what it says of wrong ones, or of its socket. Both programs use this.
#![tactic(auto)]

pub mod connecting;
pub mod program;
pub mod socket;
