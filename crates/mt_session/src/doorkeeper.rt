//! Who hears at once that a session has stopped the desk.

use std::sync::Wait;

/// Who lets nobody in any more once a session has stopped the desk.
pub trait Doorkeeper {
    /// A request has stopped the desk, which is not held, and the answer was not sent: one that nobody reads may never
    /// go out.
    fn close<R: Wait>(&self, rt: &R);
}

/// There is no door to keep: nothing is done.
#[derive(Clone, Copy)]
pub struct NoDoor;

impl Doorkeeper for NoDoor {
    fn close<R: Wait>(&self, _rt: &R) {}
}
