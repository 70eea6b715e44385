//! Two sessions in threads of their own, and the one history that both are in.
ghost use Rattle.std.specs.Prelude.{◌≡◌, IfOk};
ghost use Rattle.mt_examples.specs.Histories.{WasServed, AreInHistory};

use mt_desk::desk::{Desk, DeskWitness};
use mt_desk::lines::{Host, Lines, Naming};
use mt_lines::line::LineReader;
use mt_lines::memory::{Portions, Sink};
use mt_session::bell::Bell;
use mt_session::doorkeeper::NoDoor;
use mt_session::gate::OpenGate;
use mt_session::serving::LINE_LIMIT;
use mt_session::shared_answer::Shared;
use mt_session::shared_serving::serve_shared;
use mt_session::shared_session::SharedSession;
use mt_skel::fault::Fault;
use std::alloc::Global;
use std::marker::Brand;
use std::sync::{Mutex, Wait};
use std::test::Fail;
use std::thread::{Threads, join};
use std::time::Clock;

/// Two filesystems.
const TWO: &[u8] = b"mkfs a tmpfs none
mkfs b tmpfs none
";

/// Another one, and a table of a namespace that is not there.
const ONE: &[u8] = b"mkfs c tmpfs none
show 1
";

/// A session that is let in and served these lines: what it has seen of the history then.
fn session<J: Naming, R: Wait + Clock>(
    rt: &R,
    alloc: Global,
    desk: &Mutex<Desk<J>>,
    host: &Host<J>,
    bell: &Bell,
    lines: &[u8],
) -> Result<DeskWitness<J>, Fault>
    ensures { IfOk result (λ v. WasServed lines.now v) }
{
    let witness = desk.lock(rt).admit(host);
    let mut session = SharedSession::new(alloc, witness);
    let mut sink = Sink::new(alloc, 4_096, 4_096)?;
    let mut reader = LineReader::new(alloc, Portions::new(lines, 4_096), LINE_LIMIT)?;
    let shared = Shared {
        rt,
        desk,
        bell,
        gate: &OpenGate,
        doorkeeper: &NoDoor,
        number: 1,
        alloc,
    };
    let _end = serve_shared(shared, &mut session, &mut reader, &mut sink);
    Ok(session.into_witness())
}

/// Two sessions in threads of their own, and the desk once both have ended. Both are in its one history.
fn two_sessions<J: Naming + Send + Sync, R: Threads + Wait + Clock + Sync>(
    rt: &R,
    alloc: Global,
    desk: Desk<J>,
    host: &Host<J>,
    first: &[u8],
    second: &[u8],
) -> Result<Desk<J>, Fault>
    ensures { IfOk result (λ d. AreInHistory first.now second.now d.log) }
{
    let shared = Mutex::new(desk);
    let lock = &shared;
    let bell = Bell::new();
    let bell = &bell;
    let (one, other) = join(
        rt,
        move || -> Result<DeskWitness<J>, Fault>
            ensures { IfOk result (λ v. WasServed first.entry.now v) }
        { session(rt, alloc, lock, host, bell, first) },
        move || -> Result<DeskWitness<J>, Fault>
            ensures { IfOk result (λ v. WasServed second.entry.now v) }
        { session(rt, alloc, lock, host, bell, second) },
    );
    let mut one = one?;
    let mut other = other?;
    let mut desk = shared.into_inner();
    desk.tell_apart(&mut one, &mut other);
    desk.look(&mut one);
    desk.look(&mut other);
    Ok(desk)
}

/// How many commands two sessions have left in the journal.
fn count_on<J: Naming + Send + Sync, R: Threads + Wait + Clock + Sync>(
    rt: &R,
    alloc: Global,
    lines: Lines,
) -> Result<usize, Fault>
    requires lines { lines.lines ≡ J.lines }
    requires history { lines.history ≡ J.history }
{
    let host: Host<J> = lines.host();
    let desk = two_sessions(rt, alloc, Desk::new(lines), &host, TWO, ONE)?;
    Ok(desk.book().journal().len())
}

/// The same on lines for one post each.
fn count<R: Threads + Wait + Clock + Sync>(rt: &R, alloc: Global) -> Result<usize, Fault> {
    let lines = Lines::new(alloc, 1)?;
    count_on::<Brand, R>(rt, alloc, lines)
}

#[test]
fn two_sessions_are_in_one_history(rt: HostRuntime) -> Result<(), Fail> {
    assert!(rt; count(&rt, rt.alloc())? == 3);
    Ok(())
}
