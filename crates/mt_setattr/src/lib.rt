//! Changes of the attributes and of the propagation of mounts, of one mount or of a whole subtree.
//!
//! [`change`] has what is to be changed, as the words of a line say it, and [`setting`] changes it. [`laws`] has
//! what every such change keeps.
#![tactic(auto)]

pub mod change;
pub mod laws;
pub mod setting;
