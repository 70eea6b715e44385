//! Turns at the desk: who waits longest goes first.

use std::sync::{Condvar, Mutex, Wait};

/// How many turns were asked for, and how many have ended.
#[derive(Clone, Copy)]
struct Count {
    asked: u64,
    ended: u64,
}

/// Those that want the desk, in the order in which they came. A lock alone lets whoever has just held it take it again
/// before all that wait. Nothing is claimed of it.
#[derive(Drop)]
pub struct Turns {
    count: Mutex<Count>,
    ended: Condvar,
}

impl Turns {
    /// Nobody has asked for a turn.
    pub fn new() -> Turns {
        Turns {
            count: Mutex::new(Count { asked: 0, ended: 0 }),
            ended: Condvar::new(),
        }
    }

    /// Asks for a turn, and waits until all that were asked for before it have ended. [`Turns::end`] ends it.
    pub fn begin<R: Wait>(&self, rt: &R) {
        let mut count = self.count.lock(rt);
        let mine = count.asked;
        count.asked = mine.wrapping_add(1);
        'waiting: for _look in rt.forever() {
            if count.ended == mine {
                return;
            }
            count = self.ended.wait(rt, count);
        }
    }

    /// Ends the turn that has begun.
    pub fn end<R: Wait>(&self, rt: &R) {
        let mut count = self.count.lock(rt);
        count.ended = count.ended.wrapping_add(1);
        drop(count);
        self.ended.notify_all();
    }
}
