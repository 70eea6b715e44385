//! A descriptor in reserve, so that a client for which the system has none is told so.
use crate::parting::turn_away_now;
use mt_skel::fault::Fault;
use std::os::unix::net::{UnixListener, UnixStream};

/// A descriptor that an accept may have where the system has no other.
#[derive(Drop)]
pub(crate) struct Spare<'a> {
    listener: &'a UnixListener,
    /// The listener a second time, while the descriptor is kept.
    kept: Option<UnixListener>,
}

impl<'a> Spare<'a> {
    /// Keeps a descriptor, if there is one.
    pub(crate) fn new(listener: &'a UnixListener) -> Spare<'a> {
        Spare {
            listener,
            kept: listener.try_clone().ok(),
        }
    }

    /// Gives the descriptor up, to the next accept.
    pub(crate) fn give_up(&mut self) {
        self.kept = None;
    }

    /// Lets a connection in, if there is a descriptor to keep beside it; else its client reads `no NoMemory` and the
    /// end, and the descriptor of its connection is kept.
    pub(crate) fn admit(&mut self, stream: UnixStream) -> Option<UnixStream> {
        if self.is_kept() {
            return Some(stream);
        }
        turn_away_now(&stream, Fault::NoMemory);
        drop(stream);
        self.is_kept();
        None
    }

    /// Keeps a descriptor where none is kept and there is one. Whether one is kept.
    fn is_kept(&mut self) -> bool {
        if self.kept.is_none() {
            self.kept = self.listener.try_clone().ok();
        }
        self.kept.is_some()
    }
}
