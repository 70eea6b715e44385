//! Text for a terminal: strangers' bytes as it is given them, and how many cells they take.
//!
//! [`terminal`] makes a text of them, [`message`] writes them into a message, and [`json`] into a text of JSON.
#![tactic(auto)]

pub mod json;
pub mod message;
pub mod terminal;
