//! What is wrong with a line.

use crate::command::Tool;
use crate::word::Word;
use mt_terminal::message::Shown;
use std::fmt;
use std::fmt::{Display, Formatter};

/// What is wrong with a line. Words are as the line has them.
#[derive(Drop)]
pub enum Slip<'a> {
    /// The line has no words.
    Empty,
    /// No line begins with this word.
    Unknown { word: Word<'a> },
    /// A line that begins with this word changes nothing.
    NoChange { word: Word<'a> },
    /// The program has no such option here.
    NoOption { tool: Tool, word: Word<'a> },
    /// The last option of the line wants a value.
    NoValue { tool: Tool },
    /// The option takes no value.
    NoneTaken { tool: Tool, word: Word<'a> },
    /// The word is no path from the root.
    NotRooted { word: Word<'a> },
    /// The path goes through `.` or `..`.
    Dots { word: Word<'a> },
    /// The line has no target.
    NoTarget { tool: Tool },
    /// The line has a target or a source alone.
    Alone { word: Word<'a> },
    /// There is a word too many.
    Many { tool: Tool },
    /// One path of two is missing.
    OnePath { tool: Tool },
    /// The line wants what stands in fstab(5), or all mounts.
    Fstab { tool: Tool },
    /// A remount without `bind`, which changes the filesystem for all its mounts.
    WholeRemount,
    /// A line asks for two of bind, rbind and move.
    TwoChanges,
    /// A line asks for propagation twice.
    TwoPropagations,
    /// The word is no kind of propagation of a new namespace.
    NoKind { word: Word<'a> },
    /// `nsenter` without a process.
    NoProcess,
    /// `nsenter` or `unshare` that is of no mount namespace.
    NoMounts { tool: Tool },
    /// `nsenter` without a line.
    NoLine,
}

/// A word, as a terminal is given it.
fn shown<'a>(word: &Word<'a>) -> Shown<'a> {
    Shown(word.bytes())
}

impl<'a> Slip<'a> {
    /// Writes what is wrong with an option, or with a path.
    fn write_word<W: fmt::Write>(&self, f: &mut Formatter<W>) -> fmt::Result {
        match self {
            Slip::NoOption { tool, word } => {
                write!(f, "{} has no {} here", tool.name(), shown(word))
            }
            Slip::NoneTaken { tool, word } => {
                write!(f, "{}: {} takes no value", shown(word), tool.name())
            }
            Slip::NotRooted { word } => write!(
                f,
                "{} is no path from the root: a path begins with /",
                shown(word)
            ),
            Slip::Dots { word } => { write!(f, "{} has . or ..: write the path out", shown(word)) }
            Slip::Alone { word } => write!(
                f,
                "mount {} alone: no fstab is read; name the source too",
                shown(word)
            ),
            Slip::NoKind { word } => write!(
                f,
                "{}: --propagation takes private, shared, slave or unchanged",
                shown(word)
            ),
            _ => self.write_program(f),
        }
    }

    /// Writes what is wrong with a line of a program.
    fn write_program<W: fmt::Write>(&self, f: &mut Formatter<W>) -> fmt::Result {
        match self {
            Slip::NoValue { tool } => write!(
                f,
                "{}: a value is missing after the last option",
                tool.name()
            ),
            Slip::NoTarget { tool } => {
                write!(f, "{} without a target changes nothing", tool.name())
            }
            Slip::Many { tool } => write!(
                f,
                "{} has too many words: name one target a line",
                tool.name()
            ),
            Slip::OnePath { tool } => write!(f, "{} takes two paths here", tool.name()),
            Slip::Fstab { tool } => write!(
                f,
                "{}: no fstab is read; name source and target of one mount",
                tool.name()
            ),
            Slip::NoMounts { tool } => write!(
                f,
                "{} is of a mount namespace with -m alone",
                tool.name()
            ),
            Slip::WholeRemount => {
                f.write_str(
                    "mount -o remount without bind changes the filesystem itself, for all its mounts; -o remount,bind,.. changes this mount",
                )
            }
            Slip::TwoChanges => f.write_str("bind, rbind and move are three lines"),
            Slip::TwoPropagations => {
                f.write_str("a line makes a mount one thing; the next one is a line of its own")
            }
            Slip::NoProcess => f.write_str("nsenter takes -t and a process"),
            _ => f.write_str("nsenter takes a command after its options"),
        }
    }
}

impl<'a> Display for Slip<'a> {
    fn fmt<W: fmt::Write>(&self, f: &mut Formatter<W>) -> fmt::Result {
        match self {
            Slip::Empty => f.write_str("the line has no words"),
            Slip::Unknown { word } => write!(f, "no line begins with {}", shown(word)),
            Slip::NoChange { word } => write!(f, "{} changes nothing", shown(word)),
            _ => self.write_word(f),
        }
    }
}
