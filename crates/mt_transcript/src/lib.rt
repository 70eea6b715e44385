//! Transcripts: sessions with their answers, as text, which are played again.
//!
//! [`lines::transcript_lines`] says of each line of a text what it is, and [`misplaced::misplaced_in`] which line does not
//! stand where it may. [`queue::queue_in`] is what the arguments say of the session's queue, and [`room::room_in`] what
//! they say of the server's room. [`sent::bytes_sent`] is what an input line sends, and [`told::answer_told`] the answer
//! that the lines below it tell.
#![tactic(auto)]

pub mod lines;
pub mod misplaced;
pub mod queue;
pub mod room;
pub mod sent;
pub mod told;
