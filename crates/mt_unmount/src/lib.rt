//! Unmounting and detaching, and what they take away elsewhere.
//!
//! [`unmounting`] and [`detaching`] have the commands. Each finds the mounts that go ([`gone`]), a detach among its
//! candidates by what holds them back ([`holding`]), and [`taking`] takes them away. [`laws`] has what both keep.
#![tactic(auto)]

pub mod detaching;
mod gone;
mod holding;
pub mod laws;
mod taking;
pub mod unmounting;
