//! What lines would change in the namespaces of tables.
#![tactic(auto)]

mod abridged;
mod along;
pub mod asked;
pub mod difference;
pub mod elsewhere;
pub mod foretelling;
pub mod gathered;
mod json;
pub mod known_space;
mod line_told;
mod lines;
mod naming;
pub mod numbers;
mod provide;
mod reasons;
pub mod scene;
mod script;
mod sources;
mod space;
pub mod steps;
mod table_row;
mod taken;
pub mod told;
pub mod trial;
pub mod trying;
mod unmounts;
mod unsure;
mod walking;
mod words;

pub use mt_skel::fault;
