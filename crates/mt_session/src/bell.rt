//! Where sessions wait: for their turn at the desk, and at the bell until there may be more posts.

use crate::turns::Turns;
use std::sync::{Condvar, CondvarTimeouts, Mutex, Wait};
use std::time::{Clock, Duration};

/// How long a session rests at most, in milliseconds.
const MOST_REST: u64 = 100;

/// Wakes those that rest. Nothing is claimed of it: who rests looks again after 100 milliseconds at
/// most, rung or not.
#[derive(Drop)]
pub struct Bell {
    rung: Mutex<u64>,
    changed: Condvar,
    turns: Turns,
}

impl Bell {
    /// A bell at which nobody rests.
    pub fn new() -> Bell {
        Bell {
            rung: Mutex::new(0),
            changed: Condvar::new(),
            turns: Turns::new(),
        }
    }

    /// The turns at the desk whose sessions rest here.
    pub fn turns(&self) -> &Turns {
        &self.turns
    }

    /// Wakes all that rest.
    pub fn ring<R: Wait>(&self, rt: &R) {
        let mut rung = self.rung.lock(rt);
        *rung = rung.wrapping_add(1);
        self.changed.notify_all();
    }

    /// Rests until the bell rings, 100 milliseconds at most.
    pub fn rest<R: Wait + Clock>(&self, rt: &R) {
        let rung = self.rung.lock(rt);
        let _ = self
            .changed
            .wait_timeout(rt, rung, Duration::from_millis(MOST_REST));
    }
}
