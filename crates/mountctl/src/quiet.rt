//! An output that takes everything and keeps nothing.

use mt_lines::stream::{Output, StreamFault};

/// Where answers go that nobody wants to see.
pub(crate) struct Quiet;

impl Drop for Quiet {
    fn drop(self) {
        let Quiet = self;
    }
}

impl Output for Quiet {
    ghost use Rattle.std.specs.Prelude.{[], None, false};

    ghost counts = { false };

    ghost contents = { λ q. None };

    ghost failed = { λ q. 0 };

    ghost faults = { λ q. [] };

    /// Takes all the bytes.
    fn write(&mut self, bytes: &[u8]) -> Result<usize, StreamFault> {
        Ok(bytes.len())
    }
}
