//! What a session in a thread of its own leaves at its desk.
ghost use Rattle.std.specs.Prelude.{◌≡◌};

use crate::desks::all_watchers;
use mt_desk::desk::Desk;
use mt_desk::lines::{Host, Lines, Naming};
use mt_lines::line::LineReader;
use mt_lines::memory::{Portions, Sink};
use mt_lines::stream::Cut;
use mt_session::bell::Bell;
use mt_session::doorkeeper::NoDoor;
use mt_session::gate::OpenGate;
use mt_session::serving::{End, LINE_LIMIT};
use mt_session::shared_answer::Shared;
use mt_session::shared_serving::serve_shared;
use mt_session::shared_session::SharedSession;
use mt_skel::fault::Fault;
use std::alloc::Global;
use std::marker::Brand;
use std::sync::{Mutex, Wait};
use std::test::Fail;
use std::time::Clock;

/// A watcher whose session goes on to a table.
const WATCHES: &[u8] = b"mkfs a tmpfs none
newns a
watch 1
show 1
";

/// What is answered up to the watcher and what it finds.
const BEGUN: &[u8] = b"ok 1
ok 1
ok 2
space 1 1 1
1 1 0:1 / / rw,relatime - tmpfs none rw
";

/// Whether a session whose writer fails after the answer to `watch` is cut there, and has closed its watcher:
/// afterwards as many may begin as there may be at all.
fn leaves_no_watcher<J: Naming, R: Wait + Clock>(
    rt: &R,
    alloc: Global,
    lines: Lines,
) -> Result<bool, Fault>
    requires lines { lines.lines ≡ J.lines }
    requires history { lines.history ≡ J.history }
{
    let host: Host<J> = lines.host();
    let desk: Mutex<Desk<J>> = Mutex::new(Desk::new(lines));
    let witness = desk.lock(rt).admit(&host);
    let mut session = SharedSession::new(alloc, witness);
    let bell = Bell::new();
    let mut sink = Sink::new(alloc, 4_096, BEGUN.len())?;
    let mut lines = LineReader::new(alloc, Portions::new(WATCHES, 4_096), LINE_LIMIT)?;
    let shared = Shared {
        rt,
        desk: &desk,
        bell: &bell,
        gate: &OpenGate,
        doorkeeper: &NoDoor,
        number: 1,
        alloc,
    };
    let end = serve_shared(shared, &mut session, &mut lines, &mut sink);
    let watchers = all_watchers(alloc, &mut desk.lock(rt))?;
    let cut = end == End::Cut(Cut { sent: 0 });
    Ok(cut && sink.bytes() == BEGUN && watchers.len() == 64)
}

/// The same on lines for one post each.
fn leave_no_watcher<R: Wait + Clock>(rt: &R, alloc: Global) -> Result<bool, Fault> {
    let lines = Lines::new(alloc, 1)?;
    leaves_no_watcher::<Brand, R>(rt, alloc, lines)
}

#[test]
fn a_session_that_is_cut_leaves_no_watcher(rt: HostRuntime) -> Result<(), Fail> {
    assert!(rt; leave_no_watcher(&rt, rt.alloc())?);
    Ok(())
}
