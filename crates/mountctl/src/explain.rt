//! `explain`: what a refusal says and what Linux says in its place, or which refusals stand behind an error of Linux.

use crate::PROGRAM;
use crate::fault::Fault;
use crate::messages::NAME;
use crate::task::WordFault;
use mt_help::nearest::nearest_explained;
use mt_protocol::errno::Errno;
use mt_protocol::refusal::{Case, InLinux, REFUSALS, refusal_named, refusal_row};
use mt_skel::fault::Fault as Refusal;
use mt_terminal::message::Shown;
use std::io;
use std::io::Print;
use std::process::ExitCode;

/// Prints in which cases Linux has an error in the place of a refusal, in one line.
fn print_cases<O: Print>(out: &O, cases: &[Case]) -> io::Result<()> {
    let mut separator = "In Linux it is ";
    for case in cases {
        print!(out; "{separator}{}, of {}", case.errno.name(), case.calls)?;
        separator = "; ";
    }
    println!(out; ".")
}

/// Prints what a refusal says, what Linux says in its place, what to look at, and what changes that.
fn print_refusal<O: Print>(out: &O, refusal: Refusal) -> io::Result<()> {
    let row = refusal_row(refusal);
    println!(out; "{}: {}", Shown(refusal.name()), row.sentence)?;
    match row.linux {
        InLinux::Errors(cases) => print_cases(out, cases)?,
        InLinux::Nothing(why) => println!(out; "Linux has none such: {why}.")?,
    }
    println!(out; "Look at {}.", row.look)?;
    println!(out; "To change that: {}.", row.change)
}

/// Prints a refusal in whose place Linux has an error, if it has this one: with its calls, and what to do.
fn print_behind<O: Print>(out: &O, errno: Errno, refusal: Refusal) -> io::Result<()> {
    let row = refusal_row(refusal);
    let InLinux::Errors(cases) = row.linux else {
        return Ok(());
    };
    for case in cases {
        if case.errno == errno {
            println!(out; "  {}: {}", Shown(refusal.name()), row.sentence)?;
            println!(out; "      of {}", case.calls)?;
            println!(out; "      look at {}", row.look)?;
            println!(out; "      to change that: {}", row.change)?;
        }
    }
    Ok(())
}

/// Prints an error of Linux: the refusals in whose place it stands, each with its calls and what to do, and what else it may be.
fn print_errno<O: Print>(out: &O, errno: Errno) -> io::Result<()> {
    println!(out;
        "{} ({}): {}.",
        errno.name(),
        errno.number(),
        errno.sentence()
    )?;
    for refusal in REFUSALS {
        print_behind(out, errno, refusal)?;
    }
    for line in errno.in_linux_alone() {
        println!(out; "  in Linux alone: {line}")?;
    }
    Ok(())
}

/// What a word is to be explained as.
#[derive(Clone, Copy)]
enum Explained {
    /// A refusal of the server.
    Refusal(Refusal),
    /// An error of Linux.
    Errno(Errno),
}

/// What a word names: a refusal, or an error of Linux in letters of any case or by its number.
fn explained_by(word: &str) -> Option<Explained> {
    match refusal_named(word.as_bytes()) {
        Some(refusal) => Some(Explained::Refusal(refusal)),
        None => Some(Explained::Errno(Errno::of(word.as_bytes())?)),
    }
}

/// Says that a word is neither a refusal nor an error, and which is nearest, if one is near.
fn refuse_word(rt: &HostRuntime, word: &str) -> ExitCode {
    let shown = Shown(word.as_bytes());
    match nearest_explained(rt.alloc(), word.as_bytes()) {
        Ok(Some(nearest)) => {
            let nearest = Shown(nearest);
            let _ = eprintln!(rt;
                "{NAME}: {shown}: neither a refusal nor an errno; the nearest is {nearest}"
            );
            ExitCode::from(2)
        }
        Ok(None) => {
            let _ = eprintln!(rt; "{NAME}: {shown}: neither a refusal nor an errno");
            ExitCode::from(2)
        }
        Err(_) => PROGRAM.fail(rt, Fault::NoMemory.message()),
    }
}

/// Prints what a refusal says or what an error of Linux stands for, or says what is wrong with the words.
pub(crate) fn explain(rt: &HostRuntime, words: &[&str]) -> ExitCode {
    let [word] = words else {
        return PROGRAM.refuse(rt, WordFault::Explain.message());
    };
    let printed = match explained_by(word) {
        Some(Explained::Refusal(refusal)) => print_refusal(rt, refusal),
        Some(Explained::Errno(errno)) => print_errno(rt, errno),
        None => return refuse_word(rt, word),
    };
    match printed {
        Ok(()) => ExitCode::SUCCESS,
        Err(_) => PROGRAM.fail(rt, Fault::Output.message()),
    }
}
