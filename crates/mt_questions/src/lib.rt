//! Questions about tables of mounts, asked under the names that people call namespaces by.
//!
//! - [`table`] has the tables of namespaces and their names, [`seeing`] the rows of all of them, or the [`misfit`]; [`naming`] says
//!   which of them a word names.
//! - [`reach`] answers where a mount made at a path comes, by the [`fate`] of each mount: the [`copies`] that come, and the
//!   [`remedy`] of each mount that shows the directory and gets nothing. [`reach_text`] tells it in lines, and [`reach_json`] as JSON.
//! - [`origin`] answers where a mount comes from and what takes it away, [`holders`] which mounts pin a filesystem or a directory;
//!   [`origin_text`] and [`holders_text`] tell it in lines, and [`origin_json`] as JSON.
#![tactic(auto)]

mod apart_json;
mod apart_text;
pub mod copies;
mod copy_json;
mod copy_text;
pub mod fate;
pub mod holders;
pub mod holders_text;
mod json_values;
pub mod misfit;
pub mod naming;
pub mod origin;
pub mod origin_json;
pub mod origin_text;
pub mod reach;
pub mod reach_json;
pub mod reach_text;
pub mod remedy;
pub mod seeing;
pub mod table;
mod untold_json;
mod untold_text;
mod why_text;
mod wording;

pub use mt_skel::fault;
