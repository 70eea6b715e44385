//! Sessions of a server that a gate holds, or notes: posts are taken while the desk is held, and a mirror runs beside
//! others.
use crate::sockets::{
    Ended, LINE_LIMIT, Plan, ROOM, are_done, connected, is_done, listening, served, stops,
};
use mt_client::mirror::mirror;
use mt_lines::line::LineReader;
use mt_lines::memory::Sink;
use mt_lines::stream::{Reading, Writing};
use mt_session::gate::Gate;
use mt_skel::fault::Fault;
use std::alloc::Global;
use std::net::{Net, TcpListener, TcpStream};
use std::os::unix::net::UnixStream;
use std::rt::Files;
use std::sync::{Mutex, Wait};
use std::test::Fail;
use std::thread::Threads;
use std::time::Clock;
use std::{fs, io, thread};

/// How often a thread looks for another before it gives up.
const MOST_LOOKS: u64 = 100_000_000;

/// A server with four sessions at most.
const FOUR: Plan = Plan {
    sessions: 4,
    fails: false,
    stopped: false,
};

/// How far a test has come. Its threads wait for each other's stages.
#[derive(Clone, Copy, PartialEq, Eq)]
enum Stage {
    /// Nothing was done.
    Begun,
    /// There is a namespace to watch.
    Prepared,
    /// It is watched.
    Watched,
    /// Its first command was done.
    Changed,
    /// Its second command was done, and the desk is held.
    Held,
    /// Posts were taken in the meantime.
    Taken,
    /// The desk was released for that.
    Released,
}

/// How far a test has come, for all its threads.
#[derive(Drop)]
struct Stages {
    now: Mutex<Stage>,
}

impl Stages {
    /// The stages of a test that begins.
    fn new() -> Stages {
        Stages {
            now: Mutex::new(Stage::Begun),
        }
    }

    /// Whether the test has come this far, and no further.
    fn are_at<R: Wait>(&self, rt: &R, stage: Stage) -> bool {
        *self.now.lock(rt) == stage
    }

    /// Goes from one stage to another: whether the test was at the first.
    fn go<R: Wait>(&self, rt: &R, from: Stage, to: Stage) -> bool {
        let mut now = self.now.lock(rt);
        let come = *now == from;
        if come {
            *now = to;
        }
        come
    }

    /// Waits for a stage: whether it came.
    fn reach<R: Wait>(&self, rt: &R, stage: Stage) -> bool {
        'looks: for _look in 0..MOST_LOOKS {
            if self.are_at(rt, stage) {
                return true;
            }
            thread::yield_now();
        }
        false
    }

    /// Waits for a stage and goes on to another: whether it came.
    fn follow<R: Wait>(&self, rt: &R, from: Stage, to: Stage) -> bool {
        self.reach(rt, from) && self.go(rt, from, to)
    }
}

/// Holds the desk for session 1's second command until session 2 has taken posts.
#[derive(Drop)]
struct HoldsDesk {
    stages: Stages,
}

impl Gate for HoldsDesk {
    fn in_lock<R: Wait>(&self, rt: &R, session: u64) {
        if session != 1 || self.stages.go(rt, Stage::Watched, Stage::Changed) {
            return;
        }
        if self.stages.go(rt, Stage::Changed, Stage::Held) {
            let _ = self.stages.follow(rt, Stage::Taken, Stage::Released);
        }
    }

    fn before_answer<R: Wait>(&self, _rt: &R, _session: u64) {}

    fn taken<R: Wait>(&self, rt: &R, session: u64) {
        if session == 2 {
            let _ = self.stages.go(rt, Stage::Held, Stage::Taken);
        }
    }
}

/// A filesystem that is the root of namespace 1, and one to mount there.
const START: &[u8] = b"mkfs a tmpfs none
mkfs d ext4 /dev/x
mkdir a /m
newns a";

/// What is answered.
const STARTED: &[u8] = b"ok 1\nok 2\nok\nok 1\n";

/// Two commands, each of which changes the table of namespace 1 when it comes after the other.
const TURNS: &[u8] = b"setattr 1 / set=ro
setattr 1 / clr=ro";

/// What a watcher of namespace 1 finds, and then takes while the desk is held.
const TAKEN: &[u8] = b"ok 2
space 1 1 1
1 1 0:1 / / rw,relatime - tmpfs none rw
ok 2
event 1 2 1
= 1 1 0:1 / / ro,relatime - tmpfs none rw
";

/// Whether a watcher takes a post while the desk is held.
fn takes<R: Wait>(
    rt: &R,
    alloc: Global,
    stream: &UnixStream,
    stages: &Stages,
) -> Result<bool, Fault> {
    let mut lines = LineReader::new(alloc, Reading::new(stream), LINE_LIMIT)?;
    let mut answers = Sink::new(alloc, ROOM, ROOM)?;
    if !is_done(alloc, &mut lines, stream, b"watch 1", &mut answers)
        || !stages.go(rt, Stage::Begun, Stage::Watched)
        || !stages.reach(rt, Stage::Held)
    {
        return Ok(false);
    }
    let done = is_done(alloc, &mut lines, stream, b"take 1", &mut answers);
    Ok(done && answers.bytes() == TAKEN)
}

/// Whether a session, once there is a watcher, does a command, and then one for which the desk is held.
fn changes<R: Wait>(
    rt: &R,
    alloc: Global,
    stream: &UnixStream,
    stages: &Stages,
) -> Result<bool, Fault> {
    if !stages.reach(rt, Stage::Watched) {
        return Ok(false);
    }
    are_done(alloc, stream, TURNS, b"ok\nok\n")
}

/// Whether session 2 takes a post while session 1 holds the desk.
fn take_beside<R>(rt: &R, alloc: Global, path: &String, stages: &Stages) -> io::Result<bool>
where
    R: Threads + Wait + Net<Listener = TcpListener, Stream = TcpStream> + Sync,
{
    let one = connected(rt, path)?;
    let other = connected(rt, path)?;
    let third = connected(rt, path)?;
    if !are_done(alloc, &third, START, STARTED).unwrap_or(false) {
        return Ok(false);
    }
    let (changed, taken) = thread::join(
        rt,
        || changes(rt, alloc, &one, stages).unwrap_or(false),
        || takes(rt, alloc, &other, stages).unwrap_or(false),
    );
    Ok(changed && taken)
}

/// The same, and whether the server then stops.
fn take_and_stop<R>(rt: &R, alloc: Global, path: &String, gate: &HoldsDesk) -> bool
where
    R: Threads + Wait + Net<Listener = TcpListener, Stream = TcpStream> + Sync,
{
    let taken = take_beside(rt, alloc, path, &gate.stages).unwrap_or(false);
    stops(rt, alloc, path) && taken
}

/// Whether posts are taken while the desk is held, and the server then ends.
fn is_taken_beside<R>(rt: &R, alloc: Global, path: &String) -> io::Result<bool>
where
    R: Threads + Wait + Clock + Files + Net<Listener = TcpListener, Stream = TcpStream> + Sync,
{
    let listener = listening(rt, path)?;
    let gate = HoldsDesk {
        stages: Stages::new(),
    };
    let (ended, taken) = thread::join(
        rt,
        || served(rt, alloc, path, &listener, FOUR, &gate),
        || take_and_stop(rt, alloc, path, &gate),
    );
    fs::remove_file(rt, path.as_str())?;
    Ok(taken && ended == Ended::Stopped && gate.stages.are_at(rt, Stage::Released))
}

#[test]
fn posts_are_taken_while_the_desk_is_held(rt: HostRuntime) -> Result<(), Fail> {
    let path = String::from_str(rt.alloc(), "held-desk")?;
    let taken = is_taken_beside(&rt, rt.alloc(), &path)?;
    assert!(rt; taken);
    Ok(())
}

/// Notes that session 2's first request was done.
#[derive(Drop)]
struct NotesWatch {
    stages: Stages,
}

impl Gate for NotesWatch {
    fn in_lock<R: Wait>(&self, _rt: &R, _session: u64) {}

    fn before_answer<R: Wait>(&self, rt: &R, session: u64) {
        if session == 2 {
            let _ = self.stages.go(rt, Stage::Prepared, Stage::Watched);
        }
    }

    fn taken<R: Wait>(&self, _rt: &R, _session: u64) {}
}

/// Two namespaces, of which the second is a slave of the first, with a mount in it.
const SLAVE: &[u8] = b"mkfs a tmpfs none
mkfs d ext4 /dev/x
mkdir a /m
newns a
setattr 1 / prop=shared
copyns 1
setattr 2 / prop=slave
mount 2 d /m";

/// What is answered.
const SLAVE_MADE: &[u8] = b"ok 1\nok 2\nok\nok 1\nok\nok 2\nok\nok 3\n";

/// Two commands, of which the second undoes the first, with a post for namespace 2 each.
const MOUNTS: &[u8] = b"mount 1 d /m
umount 1 /m";

/// What a mirror of namespace 2 prints after a mount and an unmount in namespace 1.
const MIRRORED: &[u8] = b"ok 2 5
2 2 0:1 / / rw,relatime master:1 - tmpfs none rw
3 2 0:2 / /m rw,relatime - ext4 /dev/x rw
";

/// Whether a mirror of namespace 2 prints its table after two posts.
fn mirrors(alloc: Global, stream: &UnixStream) -> Result<bool, Fault> {
    let mut lines = LineReader::new(alloc, Reading::new(stream), LINE_LIMIT)?;
    let mut table = Sink::new(alloc, ROOM, ROOM)?;
    let mut writer = Writing::new(stream);
    let told = mirror(alloc, &mut lines, &mut writer, 2, 2, &mut table);
    Ok(told == Ok(true) && table.bytes() == MIRRORED)
}

/// Whether a session, once namespace 2 is watched, mounts in namespace 1 and unmounts.
fn mounts<R: Wait>(
    rt: &R,
    alloc: Global,
    stream: &UnixStream,
    stages: &Stages,
) -> Result<bool, Fault> {
    if !stages.reach(rt, Stage::Watched) {
        return Ok(false);
    }
    are_done(alloc, stream, MOUNTS, b"ok 4\nok\n")
}

/// Whether a mirror of namespace 2 follows what session 1 does.
fn mirror_beside<R>(rt: &R, alloc: Global, path: &String, stages: &Stages) -> io::Result<bool>
where
    R: Threads + Wait + Net<Listener = TcpListener, Stream = TcpStream> + Sync,
{
    let one = connected(rt, path)?;
    if !are_done(alloc, &one, SLAVE, SLAVE_MADE).unwrap_or(false)
        || !stages.go(rt, Stage::Begun, Stage::Prepared)
    {
        return Ok(false);
    }
    let other = connected(rt, path)?;
    let (mirrored, mounted) = thread::join(
        rt,
        || mirrors(alloc, &other).unwrap_or(false),
        || mounts(rt, alloc, &one, stages).unwrap_or(false),
    );
    Ok(mirrored && mounted)
}

/// The same, and whether the server then stops.
fn mirror_and_stop<R>(rt: &R, alloc: Global, path: &String, gate: &NotesWatch) -> bool
where
    R: Threads + Wait + Net<Listener = TcpListener, Stream = TcpStream> + Sync,
{
    let mirrored = mirror_beside(rt, alloc, path, &gate.stages).unwrap_or(false);
    stops(rt, alloc, path) && mirrored
}

/// Whether a mirror follows what another session does, and the server then ends.
fn is_mirrored_beside<R>(rt: &R, alloc: Global, path: &String) -> io::Result<bool>
where
    R: Threads + Wait + Clock + Files + Net<Listener = TcpListener, Stream = TcpStream> + Sync,
{
    let listener = listening(rt, path)?;
    let gate = NotesWatch {
        stages: Stages::new(),
    };
    let (ended, mirrored) = thread::join(
        rt,
        || served(rt, alloc, path, &listener, FOUR, &gate),
        || mirror_and_stop(rt, alloc, path, &gate),
    );
    fs::remove_file(rt, path.as_str())?;
    Ok(mirrored && ended == Ended::Stopped && gate.stages.are_at(rt, Stage::Watched))
}

#[test]
fn a_mirror_follows_beside_others(rt: HostRuntime) -> Result<(), Fail> {
    let path = String::from_str(rt.alloc(), "mirror-beside")?;
    let mirrored = is_mirrored_beside(&rt, rt.alloc(), &path)?;
    assert!(rt; mirrored);
    Ok(())
}
