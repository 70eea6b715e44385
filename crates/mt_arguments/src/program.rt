//! A program that reads its arguments, and says what is wrong.
ghost use Rattle.std.specs.Prelude.{◌≡◌, ◌∷◌, map, drop, string_bytes, IfOk};

use clap::Error;
use clap::error::ErrorKind;
use mt_terminal::message::Shown;
use std::alloc::{AllocError, AllocGlobal, Global};
use std::env::Env;
use std::fmt::Display;
use std::io::{Eprint, Print};
use std::process::ExitCode;
use std::{env, io};

/// The usual status of a run whose arguments are wrong.
const FAULTY: u8 = 2;

/// The version of both programs, which are made together.
pub const VERSION: &str = "0.1.0";

/// What is said if there is no memory.
pub const OUT_OF_MEMORY: &str = "out of memory";

/// What is said if the output takes nothing.
pub const WRITE_FAULT: &str = "write fault";

/// A program, by the name in its messages and the status of its runs that fail.
#[derive(Clone, Copy)]
pub struct Program {
    /// The name.
    pub name: &'static str,
    /// The status of a run that fails for another reason than its arguments.
    pub failed: u8,
}

impl Program {
    /// Says on standard error why a run fails, and answers its status.
    pub fn fail<R: Eprint>(self, rt: &R, why: &str) -> ExitCode {
        let _ = eprintln!(rt; "{}: {why}", self.name);
        ExitCode::from(self.failed)
    }

    /// Says on standard error why a run fails, at which path, written for a terminal, and for what reason, and answers
    /// its status.
    pub fn fail_at<R: Eprint, D: Display + Drop>(
        self,
        rt: &R,
        why: &str,
        path: &str,
        reason: D,
    ) -> ExitCode {
        let path = Shown(path.as_bytes());
        let _ = eprintln!(rt; "{}: {why}: {path}: {reason}", self.name);
        ExitCode::from(self.failed)
    }

    /// Says on standard error what is wrong with the arguments, and answers the status 2.
    pub fn refuse<R: Eprint>(self, rt: &R, why: &str) -> ExitCode {
        let _ = eprintln!(rt; "{}: {why}", self.name);
        ExitCode::from(FAULTY)
    }

    /// Prints what the parser of the arguments says, and answers the status: its help or the version go to standard
    /// output, with status 0 if they are printed, and its complaints to standard error, with status 2.
    pub fn explain<R: Print + Eprint>(self, rt: &R, error: &Error) -> ExitCode {
        match error.kind() {
            ErrorKind::DisplayHelp | ErrorKind::DisplayVersion => match print!(rt; "{error}") {
                Ok(()) => ExitCode::SUCCESS,
                Err(_) => self.fail(rt, WRITE_FAULT),
            },
            ErrorKind::OutOfMemory => self.fail(rt, OUT_OF_MEMORY),
            _ => {
                let _ = eprint!(rt; "{error}");
                ExitCode::from(FAULTY)
            }
        }
    }

    /// Says why the arguments could not be read, and answers the status: there was no memory for them, or one is not
    /// text.
    pub fn explain_unread<R: Eprint>(self, rt: &R, error: &io::Error) -> ExitCode {
        match error.kind() {
            io::ErrorKind::OutOfMemory => self.fail(rt, OUT_OF_MEMORY),
            _ => self.refuse(rt, "an argument is not UTF-8"),
        }
    }

    /// The words that the parser of the arguments takes: the program's name in the place of the path by which it was
    /// called, and then the arguments.
    pub fn words<'a>(
        self,
        alloc: Global,
        arguments: &'a [String],
    ) -> Result<Vec<&'a str>, AllocError>
        ensures { IfOk result (λ words. map (λ word. word.now) words.items ≡ self.name.now ∷ map string_bytes (drop 1 arguments.now)) }
    {
        let mut words = Vec::new(alloc);
        words.push(self.name)?;
        let Some((_, behind)) = arguments.split_first() else {
            return Ok(words);
        };
        'behind: for argument in behind {
            words.push(argument.as_str())?;
        }
        Ok(words)
    }
}

/// The arguments of this run, of which the first is the path by which the program was called. Fails as `OutOfMemory`,
/// and if one of them is not UTF-8.
pub fn read_arguments<R: Env + AllocGlobal>(rt: &R) -> io::Result<Vec<String>> {
    let mut arguments = Vec::new(rt.alloc());
    for argument in env::args(rt)? {
        arguments.push(argument)?;
    }
    Ok(arguments)
}
