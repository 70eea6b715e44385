//! A world of the rows that tables of mount namespaces tell, without a history.
//!
//! A table is what `/proc/pid/mountinfo` has of one namespace. [`made`] makes a [`World`](mt_propagate::world::World) of
//! the rows of such tables, with their own IDs and peer groups: each mount and each state is tested before it is made, so
//! that the world is well-formed whatever the tables say, and a row that does not fit is left out for a [`misfit`].
//!
//! [`row`] is a row of a table. [`put`] adds the mount of one row, over [`directory`], [`fit`] and [`leaf`]; [`grown`] adds
//! those of all rows, each after its parent, in an [`order`] that is good for that. [`joined`] then gives mounts their
//! peer groups and masters, and [`hidden`] makes a mount for each master that no row is in. [`locked`] locks what came with a
//! copy into another user namespace.
#![tactic(auto)]

pub mod directory;
pub mod fit;
pub mod grown;
pub mod hidden;
pub mod joined;
pub mod leaf;
pub mod locked;
pub mod made;
pub mod misfit;
mod order;
pub mod put;
pub mod row;
