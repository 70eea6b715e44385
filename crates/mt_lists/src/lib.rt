//! Rows with an ID and a number each, and for each number the list of the IDs that have it.
//!
//! A [`Lists`](lists::Lists) finds the number of an ID, the first ID of a number and the next ID of
//! the same number, each without a scan. It is meant to be kept beside a table whose items have a
//! key and may have a number, such as mounts with their parents, and to answer what a scan of that
//! table would find (`specs/Numbered.antt`).
//!
//! Each ID stands at a place, with the places of the IDs before and after it in its list: a *tie* ([`ties`]). In a
//! [`Lists`](lists::Lists) these are [`entries`] of a table, found by ID. [`slot_lists`] has such lists for a table
//! whose items lie in slots, as those of a slab do: each ID stands in the slot of its item ([`slots`]), and what comes
//! before and after it is found there, without a look-up. Both have the ends of each list in a table by number
//! ([`tops`]), and one way for an ID to come and go ([`tying`]).
//!
//! A [`log`] has the IDs that were changed, and [`earlier`] a value as it was, which only proofs read.
#![tactic(auto)]

pub mod earlier;
mod entries;
pub mod lists;
pub mod log;
pub mod slot_lists;
mod slots;
mod ties;
mod tops;
mod tying;
