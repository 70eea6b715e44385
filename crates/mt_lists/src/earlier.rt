//! Earlier values.
ghost use Rattle.std.specs.Prelude.{◌≡◌, [], ◌∷◌};

use http_server::Log;

/// A value as it was at some moment, only for contracts: it has no bytes, and nothing is done at run time.
///
/// It is a history that only proofs read, with this one value in it, and not a snapshot of std: whether a type may go
/// to another thread is derived from its fields, and a snapshot offers no such proof.
#[derive(Drop)]
pub struct Earlier<T> {
    /// The value that was.
    pub seen: Log<T, ()>,
}

impl<T> Earlier<T> {
    /// This value as it is now.
    pub fn of(x: &T) -> Self
        ensures { result.seen.items ≡ (x.now, record {}) ∷ [] }
    {
        Earlier {
            seen: Log::new().and(x, &()),
        }
    }
}
