//! What a client shows, as text: pictures of tables of mounts, and what posts tell.
//!
//! [`drawing`] draws tables as trees or as a graph, or writes them as JSON. [`children`] finds the rows below each row,
//! [`forest`] puts the rows of a table in the order of a tree, and [`trees`] writes them so, each behind what leads to it
//! ([`leads`]), in the columns of [`columns`]. [`graph`] writes a text for Graphviz: the mounts, with their [`labels`], and
//! [`edges`], of which those of peer groups are in [`groups`], in the colours of [`palette`], which [`legend`] tells.
//! [`objects`] writes tables as JSON, of the [`members`] of each mount. [`laws`] has what is true of all trees. [`part`] is
//! the part of a table that a path leads to, and [`spaces`] has the lines of a list of namespaces.
//!
//! [`telling`] tells posts: [`wording`] in words, a line for each mount, for people who watch a namespace, and
//! [`events`] as JSON, for their programs. [`field`] has what of a mount is not as it was. [`stamp`] adds a time, and
//! writes a refusal as JSON.
//!
//! [`propagation`] is the word of pictures and posts for how a mount propagates, and [`named`] has the names of namespaces.
//!
//! A page plays a session: it is a template ([`page_template`]) in which the data of the session stand ([`page_data`]), the
//! tables that were there before, and what each line did. [`page_session`] reads what a session has beside the lines that
//! are sent: comments, of which some tell names of namespaces ([`page_name`]), and lines that a page has no use for.
#![tactic(auto)]

mod children;
mod columns;
pub mod drawing;
mod edges;
mod events;
pub mod field;
mod forest;
mod graph;
mod groups;
mod labels;
pub mod laws;
mod leads;
mod legend;
mod members;
pub mod named;
pub mod objects;
pub mod page_data;
pub mod page_name;
pub mod page_session;
pub mod page_template;
mod page_text;
mod palette;
pub mod part;
mod propagation;
pub mod spaces;
pub mod stamp;
pub mod telling;
mod trees;
pub mod wording;
