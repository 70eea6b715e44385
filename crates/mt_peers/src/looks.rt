//! A count of the mounts that were looked at.
ghost use Rattle.std.specs.Prelude.{◌≡◌, ◌+◌, ◌<◌, ◌^◌};

use std::marker::Model;

/// How many times a mount was looked at in a list of members or of slaves. A search that counts its
/// looks says in its contract what it costs.
#[derive(Drop)]
pub struct Looks {
    count: u64,
}

impl Model for Looks {
    ghost use Rattle.std.specs.Prelude.{ℕ};

    ghost Value = { ℕ };

    ghost view = { λ l. l.count };
}

impl Looks {
    /// No looks.
    pub fn new() -> Self
        ensures { result ≡ 0 }
    {
        Looks { count: 0 }
    }

    /// How many looks were counted.
    pub fn count(&self) -> u64
        ensures { result ≡ self.now }
    {
        self.count
    }

    /// Counts a look. At most `u64::MAX` can be counted.
    pub fn look(&mut self)
        requires few { self.old + 1 < 2 ^ 64 }
        ensures { self.new ≡ self.old + 1 }
    {
        self.count += 1;
    }
}
