//! What is wrong with a line that is refused as `BadLine`.

use mt_terminal::message::Shown;
use std::fmt;
use std::fmt::{Display, Formatter};

/// What `set=` takes.
const SET_WORDS: &str =
    "ro, nosuid, nodev, noexec, nosymfollow, nodiratime, relatime, noatime and strictatime";

/// What `clr=` takes.
const CLR_WORDS: &str = "ro, nosuid, nodev, noexec, nosymfollow, nodiratime and atime";

/// What is wrong with a line that is refused as `BadLine`. Words are as the line has them, with their escapes.
#[derive(Clone, Copy)]
pub enum Reason<'a> {
    /// It is empty.
    Empty,
    /// A word is empty.
    EmptyWord,
    /// Its first word is no command. This one is nearest to it.
    Unknown {
        word: &'a [u8],
        nearest: Option<&'static [u8]>,
    },
    /// It has too few words, or too many.
    Count {
        usage: &'static [u8],
    },
    /// A word should be the number of a namespace.
    Number {
        word: &'a [u8],
    },
    /// A word should be the number of a namespace, or `all`.
    Scope {
        word: &'a [u8],
    },
    /// A count, or the number of a command, is not within its bounds.
    Range {
        word: &'a [u8],
        most: u64,
    },
    /// A word has a zero byte.
    Zero {
        word: &'a [u8],
    },
    /// A word has a backslash that begins no escape.
    Escape {
        word: &'a [u8],
    },
    /// Another word stands where `less` may stand.
    Less {
        word: &'a [u8],
    },
    /// Another word stands where `lock` may stand.
    Lock {
        word: &'a [u8],
    },
    /// Another word stands where `rec` may stand.
    Recursive {
        word: &'a [u8],
    },
    /// Another word stands where `set=` may stand.
    NoAttributes {
        word: &'a [u8],
    },
    /// A word is no option of `setattr`.
    NoOption {
        word: &'a [u8],
    },
    /// A word in the list of `set=`, or the whole list where it is empty, is no attribute that can be set.
    SetWord {
        word: &'a [u8],
    },
    /// A word in the list of `clr=`, or the whole list where it is empty, is no attribute that can be cleared.
    ClrWord {
        word: &'a [u8],
    },
    /// The word of `prop=` is no kind of propagation.
    Propagation {
        word: &'a [u8],
    },
    /// An option of `setattr` is there twice.
    Twice,
}

impl<'a> Reason<'a> {
    /// Writes what is wrong with an option.
    fn write_option<W: fmt::Write>(&self, f: &mut Formatter<W>) -> fmt::Result {
        match self {
            Reason::NoOption { word } => {
                write!(
                    f,
                    "{}: the options are rec, set=, clr= and prop=",
                    Shown(*word)
                )
            }
            Reason::SetWord { word: [] } => {
                write!(f, "an empty word: set= takes {SET_WORDS}, joined by commas")
            }
            Reason::SetWord { word } => {
                write!(
                    f,
                    "{}: set= takes {SET_WORDS}, joined by commas",
                    Shown(*word)
                )
            }
            Reason::ClrWord { word: [] } => {
                write!(f, "an empty word: clr= takes {CLR_WORDS}, joined by commas")
            }
            Reason::ClrWord { word } => {
                write!(
                    f,
                    "{}: clr= takes {CLR_WORDS}, joined by commas",
                    Shown(*word)
                )
            }
            Reason::Propagation { word } => write!(
                f,
                "{}: prop= takes shared, private, slave or unbindable",
                Shown(*word)
            ),
            _ => f.write_str("an option is there twice"),
        }
    }

    /// Writes what is wrong with a word.
    fn write_word<W: fmt::Write>(&self, f: &mut Formatter<W>) -> fmt::Result {
        match self {
            Reason::Number { word } => write!(
                f,
                "{}: NS is a number, digits without a leading zero, below 18446744073709551616",
                Shown(*word)
            ),
            Reason::Scope { word } => write!(
                f,
                "{}: NS is all, or a number, digits without a leading zero, below 18446744073709551616",
                Shown(*word)
            ),
            Reason::Range {
                word,
                most: u64::MAX,
            } => write!(
                f,
                "{}: FROM is a number from 1 on, below 18446744073709551616",
                Shown(*word)
            ),
            Reason::Range { word, most } => {
                write!(f, "{}: K is a number from 1 to {most}", Shown(*word))
            }
            Reason::Zero { word } => write!(f, "{}: a byte is zero", Shown(*word)),
            Reason::Escape { word } => write!(
                f,
                "{}: a backslash begins none of \\040, \\011, \\012 and \\134",
                Shown(*word)
            ),
            Reason::Less { word } => { write!(f, "{}: only less may stand there", Shown(*word)) }
            Reason::Lock { word } => { write!(f, "{}: only lock may stand there", Shown(*word)) }
            Reason::Recursive { word } => {
                write!(f, "{}: only rec may stand there", Shown(*word))
            }
            Reason::NoAttributes { word } => {
                write!(f, "{}: only set= with words may stand there", Shown(*word))
            }
            _ => self.write_option(f),
        }
    }
}

impl<'a> Display for Reason<'a> {
    fn fmt<W: fmt::Write>(&self, f: &mut Formatter<W>) -> fmt::Result {
        match self {
            Reason::Empty => f.write_str("the line is empty"),
            Reason::EmptyWord => {
                f.write_str(
                    "a word is empty: one space stands between two words, and none at an end",
                )
            }
            Reason::Unknown {
                word,
                nearest: Some(nearest),
            } => write!(
                f,
                "{}: no line begins so; the nearest is {}",
                Shown(*word),
                Shown(*nearest)
            ),
            Reason::Unknown {
                word,
                nearest: None,
            } => { write!(f, "{}: no line begins so", Shown(*word)) }
            Reason::Count { usage } => {
                write!(f, "too few words, or too many: {}", Shown(*usage))
            }
            _ => self.write_word(f),
        }
    }
}
