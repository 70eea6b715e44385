//! Who has a session, and rounds at a door that lets nobody through.
ghost use Rattle.std.specs.Prelude.{◌<◌};
ghost use Rattle.mt_session.specs.Accepting.{most_failures};

use mt_session::accepting::{Door, Lookout, Round, accept_one};
use mt_session::register::Register;
use mt_skel::fault::Fault;
use std::io;
use std::io::ErrorKind;
use std::os::unix::net::UnixStream;
use std::test::Fail;

/// A door at which each accept fails.
#[derive(Drop)]
struct Closed;

impl Door for Closed {
    ghost use Rattle.std.specs.Prelude.{false};

    ghost counts = { false };

    ghost asked = { λ d. 0 };

    ghost failures = { λ d. 0 };

    fn accept(&mut self) -> io::Result<UnixStream> {
        Err(io::Error::from(ErrorKind::Other))
    }
}

/// A lookout that always says the same.
#[derive(Drop)]
struct Fixed {
    over: bool,
}

impl Lookout for Fixed {
    ghost use Rattle.std.specs.Prelude.{[], false};

    ghost notes = { false };

    ghost looks = { λ f. [] };

    fn is_over(&mut self) -> bool {
        self.over
    }
}

#[test]
fn sessions_are_numbered_and_no_more_than_may_be(rt: HostRuntime) -> Result<(), Fail> {
    let mut register: Register<u8> = Register::new(rt.alloc(), 2)?;
    assert_eq!(rt; register.enter(b'a'), Ok(1));
    assert_eq!(rt; register.enter(b'b'), Ok(2));
    assert_eq!(rt; register.enter(b'c'), Err(Fault::TooMany));
    assert_eq!(rt; register.leave(1), Some(b'a'));
    assert_eq!(rt; register.leave(1), None);
    assert_eq!(rt; register.enter(b'd'), Ok(3));
    assert_eq!(rt; register.entries().len(), 2);
    Ok(())
}

/// How a round ends at a closed door after this many accepts in succession have failed, and how many have failed
/// afterwards.
fn round(over: bool, before: u32) -> (Round, u32)
    requires { before < most_failures }
{
    let mut failures = before;
    let round = accept_one(&mut Closed, &mut Fixed { over }, &mut failures);
    (round, failures)
}

#[test]
fn the_last_of_many_failures_gives_up(rt: HostRuntime) -> Result<(), Fail> {
    assert!(rt; matches!(round(false, 998), (Round::Missed, 999)));
    assert!(rt; matches!(round(false, 999), (Round::GivesUp, 1_000)));
    assert!(rt; matches!(round(true, 999), (Round::Over, 999)));
    Ok(())
}
