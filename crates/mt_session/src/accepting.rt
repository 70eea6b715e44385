//! One round of a server: a connection is accepted, or it is over.
ghost use Rattle.std.specs.Prelude.{◌≡◌, ◌↔◌, ◌+◌, ◌<◌, ◌≤◌, ℕ, Bool, List, ◌∷◌, IsTrue, false};
ghost use Rattle.mt_session.specs.Accepting.{failures_after, failures_with, is_over, most_failures};

use std::io;
use std::os::unix::net::UnixStream;

/// How many failed accepts in succession end a server.
const MOST_FAILURES: u32 = 1_000;

/// Where connections come from.
///
/// An implementation says of its type whether it `counts` its accepts. Where it does, `asked` is how
/// many there were, and `failures` how many failed since the last one that did not.
pub trait Door {
    ghost counts: { Bool };

    ghost asked: { Self → ℕ };

    ghost failures: { Self → ℕ };

    /// Waits for the next connection.
    fn accept(&mut self) -> io::Result<UnixStream>
        ensures asked { IsTrue counts → asked self.new ≡ asked self.old + 1 }
        ensures counted { IsTrue counts → failures self.new ≡ failures_after (failures self.old) result };
}

/// What says that a server is over.
///
/// An implementation says of its type whether it `notes` what it has said. Where it does, `looks` is what it has
/// answered, the latest first.
pub trait Lookout {
    ghost notes: { Bool };

    ghost looks: { Self → List Bool };

    /// Whether the server is over, so that nobody is let in any more.
    fn is_over(&mut self) -> bool
        ensures { IsTrue notes → looks self.new ≡ result ∷ looks self.old };
}

/// How a round of a server ends.
#[derive(Drop)]
pub enum Round {
    /// The server is over.
    Over,
    /// A connection was accepted.
    Arrived(UnixStream),
    /// An accept failed.
    Missed,
    /// An accept failed, and as many in succession have now as end a server.
    GivesUp,
}

/// One round of a server: waits for a connection of the door, and then asks the lookout whether the server is over.
///
/// It is `Over` exactly where the lookout says so, and what has come by then is let go. Else a connection has `Arrived`,
/// and `failures`, how many accepts in succession have failed, is 0; or the accept has failed, which is counted. That is
/// `GivesUp` exactly where it was the 1,000th in succession, and `Missed` before. No round comes after one that gives up.
pub fn accept_one<D, L>(door: &mut D, lookout: &mut L, failures: &mut u32) -> Round
where
    D: Door,
    L: Lookout,
    requires { failures.old < most_failures }
    ensures asked { IsTrue D.counts → D.asked door.new ≡ D.asked door.old + 1 }
    ensures looked { IsTrue L.notes → L.looks lookout.new ≡ is_over result ∷ L.looks lookout.old }
    ensures failures { failures.new ≡ failures_with result failures.old }
    ensures counted { IsTrue D.counts → D.failures door.old ≡ failures.old → is_over result ≡ false → failures.new ≡ D.failures door.new }
    ensures bound { IsTrue D.counts → D.failures door.new ≤ D.failures door.old + 1 }
    ensures gives_up { (result ≡ Round.GivesUp) ↔ (failures.new ≡ most_failures) }
    ensures within { failures.new ≤ most_failures }
{
    let arrived = door.accept();
    if lookout.is_over() {
        return Round::Over;
    }
    match arrived {
        Ok(stream) => {
            *failures = 0;
            Round::Arrived(stream)
        }
        Err(_) => {
            *failures += 1;
            if *failures == MOST_FAILURES {
                Round::GivesUp
            } else {
                Round::Missed
            }
        }
    }
}
