//! `mountd`: the mount server, for sessions on a Unix socket, or for one on standard input and output.
#![tactic(auto)]

mod descriptors;
mod listening;
mod lock;
mod looks;
mod room;
mod socket;

use crate::listening::{ListenFault, Paths};
use clap::{Arg, ArgAction, Command, Error, value_parser};
use mt_arguments::program::{OUT_OF_MEMORY, Program, VERSION, WRITE_FAULT, read_arguments};
use mt_protocol::help::lines;
use mt_session::floor::Floor;
use mt_session::line::{LineReader, ReadFault};
use mt_session::serving::{End, LINE_LIMIT, serve_plain};
use mt_session::stream::{Reading, Writing};
use room::{FIRST_ROOM, give_floor_room};
use socket::{Limits, MOST_POSTS, Served, serve_socket};
use std::alloc::Global;
use std::io;
use std::process::ExitCode;

/// The name of the socket that stands for standard input and output.
const STANDARD: &str = "-";

/// The name that the program goes by in its messages.
const NAME: &str = "mountd";

/// The program, as it speaks of itself.
const PROGRAM: Program = Program {
    name: NAME,
    failed: 1,
};

/// What is said if a server cannot listen. The path and the reason come after it.
const NOT_LISTENING: &str = "cannot listen";

/// How many posts the queue of a watcher holds, if the arguments do not say; or as many as there may be namespaces, if those
/// are more: so many one command makes.
const QUEUE: usize = 256;

/// How many namespaces there may be, where the room is 1.
const SPACES: usize = 64;

/// How many sessions there may be at once, if the arguments do not say.
const SESSIONS: usize = 32;

/// What the arguments ask for.
#[derive(Drop)]
struct Options {
    /// The path of the socket, or [`STANDARD`].
    socket: String,
    /// Whether a socket that a killed server has left at the path is replaced.
    replaces: bool,
    /// The limits of the server.
    limits: Limits,
}

/// The option that says how much room the server has.
fn room_option<'a>(alloc: Global) -> Arg<'a> {
    Arg::new(alloc, "room")
        .long("room")
        .value_name("N")
        .help(
            "For how many times 256 filesystems, 16384 directories, 64 namespaces and 4096 mounts there is room, from 1 to 256",
        )
        .value_parser(value_parser!(u16).range(1..=256))
        .default_value("1")
}

/// The option that says how long queues are.
fn queue_option<'a>(alloc: Global) -> Arg<'a> {
    Arg::new(alloc, "queue")
        .long("queue")
        .value_name("N")
        .help(
            "How many posts the queue of a watcher holds, from 1 to 16384; without it 256, or 64 times the room if that is more",
        )
        .value_parser(value_parser!(u16).range(1..=16384))
}

/// What the program takes: a socket or `-`, whether a stale socket is replaced, how much room the server has, how long
/// queues are, how many sessions there may be, and how long one may be idle. `usage` stands behind its help.
fn parser<'a>(alloc: Global, usage: &'a str) -> Result<Command<'a>, Error> {
    let socket = Arg::new(alloc, "SOCKET")
        .help("The socket to listen on, or - for one session on standard input and output")
        .required(true)
        .action(ArgAction::Set);
    let replace = Arg::new(alloc, "replace")
        .long("replace")
        .help("Take the place of a socket at which nobody listens, which a killed server has left")
        .action(ArgAction::SetTrue);
    let sessions = Arg::new(alloc, "sessions")
        .long("sessions")
        .value_name("N")
        .help("How many sessions there may be at once, from 1 to 32")
        .value_parser(value_parser!(u16).range(1..=32))
        .default_value("32");
    let idle = Arg::new(alloc, "idle")
        .long("idle")
        .value_name("SECONDS")
        .help(
            "After how many seconds a session ends that sends nothing and follows nothing, or reads nothing; 0: never",
        )
        .value_parser(value_parser!(u16).range(0..=65535))
        .default_value("0");
    let command = Command::new(alloc, NAME)
        .version(VERSION)
        .arg(socket)?
        .after_help(usage)
        .arg(replace)?
        .arg(room_option(alloc))?
        .arg(queue_option(alloc))?
        .arg(sessions)?
        .arg(idle)?;
    Ok(command)
}

/// Reads the arguments.
fn read_options(alloc: Global, words: &[&str]) -> Result<Options, Error> {
    let usage = lines(alloc)?;
    let matches = parser(alloc, usage.as_str())?.try_get_matches_from(words)?;
    let socket = matches.get_str("SOCKET").unwrap_or(STANDARD);
    let room = matches.get_one::<usize>("room").unwrap_or(FIRST_ROOM);
    Ok(Options {
        socket: String::from_str(alloc, socket)?,
        replaces: matches.get_flag("replace"),
        limits: Limits {
            room,
            queue: matches
                .get_one::<usize>("queue")
                .unwrap_or(QUEUE.max(SPACES.saturating_mul(room))),
            sessions: matches.get_one::<usize>("sessions").unwrap_or(SESSIONS),
            idle: matches.get_one::<u64>("idle").unwrap_or(0),
        },
    })
}

/// What is said on standard error of the end of a session, if that is a fault.
fn complaint(end: End) -> Option<&'static str> {
    match end {
        End::Quit | End::Stop | End::Input => None,
        End::Read(ReadFault::NoMemory) | End::Memory => Some(OUT_OF_MEMORY),
        End::Read(_) => Some("read fault"),
        End::Cut(_) => Some(WRITE_FAULT),
        End::Spent => Some("too many lines"),
    }
}

/// Serves one session on standard input and output.
fn serve_standard(rt: &HostRuntime, limits: Limits) -> ExitCode {
    let reader = Reading::new(rt.reader());
    let Ok(mut lines) = LineReader::new(rt.alloc(), reader, LINE_LIMIT) else {
        return PROGRAM.fail(rt, OUT_OF_MEMORY);
    };
    let mut writer = Writing::new(io::writer(rt));
    let mut floor = Floor::new(rt.alloc(), limits.queue.clamp(1, MOST_POSTS));
    if give_floor_room(&mut floor, limits.room).is_err() {
        return PROGRAM.fail(rt, OUT_OF_MEMORY);
    }
    let end = serve_plain(rt.alloc(), &mut lines, &mut writer, &mut floor);
    match (complaint(end), writer.end()) {
        (None, Ok(())) => ExitCode::SUCCESS,
        (None, Err(_)) => PROGRAM.fail(rt, WRITE_FAULT),
        (Some(why), _) => PROGRAM.fail(rt, why),
    }
}

/// Says why a server cannot listen.
fn tell_fault(rt: &HostRuntime, paths: &Paths, fault: ListenFault) -> ExitCode {
    match fault {
        ListenFault::Socket(fault) => PROGRAM.fail_at(
            rt,
            NOT_LISTENING,
            paths.socket.as_str(),
            fault,
        ),
        ListenFault::Lock(fault) => PROGRAM.fail_at(rt, NOT_LISTENING, paths.lock.as_str(), fault),
        ListenFault::Unserved => PROGRAM.fail_at(
            rt,
            NOT_LISTENING,
            paths.socket.as_str(),
            "nobody listens there; --replace takes it",
        ),
        ListenFault::FewDescriptors => PROGRAM.fail(rt, "cannot listen: too few descriptors"),
    }
}

/// Says how a server has ended, if that is a fault.
fn tell(rt: &HostRuntime, paths: &Paths, served: Served) -> ExitCode {
    match served {
        Served::Stopped => ExitCode::SUCCESS,
        Served::NotListening(fault) => tell_fault(rt, paths, fault),
        Served::NotAccepting => PROGRAM.fail(rt, "cannot accept"),
        Served::NoMemory => PROGRAM.fail(rt, OUT_OF_MEMORY),
    }
}

/// What the arguments ask for, or the status with which the program ends at once.
fn find_options(rt: &HostRuntime) -> io::Result<Result<Options, ExitCode>> {
    let arguments = read_arguments(rt)?;
    let words = PROGRAM.words(rt.alloc(), arguments.as_slice())?;
    match read_options(rt.alloc(), words.as_slice()) {
        Ok(options) => Ok(Ok(options)),
        Err(error) => Ok(Err(PROGRAM.explain(rt, &error))),
    }
}

fn main(rt: HostRuntime) -> ExitCode {
    let options = match find_options(&rt) {
        Ok(Ok(options)) => options,
        Ok(Err(status)) => return status,
        Err(error) => return PROGRAM.explain_unread(&rt, &error),
    };
    if options.socket.as_str() == STANDARD {
        return serve_standard(&rt, options.limits);
    }
    let Options {
        socket,
        replaces,
        limits,
    } = options;
    let Ok(paths) = Paths::new(rt.alloc(), socket) else {
        return PROGRAM.fail(&rt, OUT_OF_MEMORY);
    };
    let served = serve_socket(&rt, rt.alloc(), &paths, replaces, limits);
    tell(&rt, &paths, served)
}
