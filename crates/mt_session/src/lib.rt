//! Sessions of the mount server: lines in, answers out.
//!
//! A session reads lines ([`line`]), makes requests of them ([`request`]), does these, and sends the text of the
//! answers ([`text`], [`stream`]): one loop for all sessions, whoever answers ([`answering`]). A plain session does its
//! requests on a floor of its own ([`session`]); [`serving`] is all that it does from its first line to its end. A session
//! in a thread of its own does them at a desk that others share ([`shared_session`]), answers by [`shared_answer`], and is
//! served by [`shared_serving`]; [`bell`] and [`turns`] are where it waits, [`doorkeeper`] hears that it has stopped the
//! desk, and at a [`gate`] a test can hold it. [`laws`] has what is true of every list of lines.
//!
//! The mount server on a socket is one thread for each connection, round one desk under a lock. [`server`] accepts
//! connections, one a round ([`accepting`]), and gives each a session of its own, or turns it away ([`parting`]);
//! [`running_server`] has what the sessions share, and wakes that loop once one of them has stopped the desk;
//! [`connections`] has those that are open, a [`register`] under a lock, so that a stop reaches them. A session reads by
//! [`patient`], so that it ends once it is idle behind a stop, and writes by [`patient_writer`], so that it ends for a
//! client that does not read. Where the system has no descriptor left, [`spare_descriptor`] has one, by which the next
//! client is told so.
#![tactic(auto)]

pub mod accepting;
pub mod answering;
pub mod bell;
mod connections;
pub mod doorkeeper;
pub mod gate;
pub mod laws;
mod parting;
mod patient;
mod patient_writer;
mod queries;
pub mod register;
mod running_server;
pub mod server;
pub mod serving;
pub mod session;
pub mod shared_answer;
mod shared_follow;
pub mod shared_serving;
pub mod shared_session;
mod spare_descriptor;
pub mod text;
pub mod turns;
mod wants;

pub use mt_floor::{event, floor, watch};
pub use mt_lines::{line, memory, stream};
pub use mt_requests::request;
