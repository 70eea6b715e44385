//! A word of a line, as it is written.
ghost use Rattle.std.specs.Prelude.{◌≡◌, nat_eq, codes};
ghost use Rattle.std.specs.List.{list_any, starts_with};
ghost use Rattle.mt_lines.specs.Words.{pieces};
ghost use Rattle.mt_forms.specs.Written.{is_dots, base_name};

use mt_lines::words::Pieces;
use std::marker::Model;

/// A word of a line, as it is written.
#[derive(Drop)]
pub struct Word<'a> {
    bytes: &'a [u8],
}

impl<'a> Model for Word<'a> {
    ghost use Rattle.std.specs.Prelude.{ℕ, List};

    ghost Value = { List ℕ };

    ghost view = { λ w. w.bytes.now };
}

impl<'a> Word<'a> {
    /// The word of these bytes.
    pub fn new(bytes: &'a [u8]) -> Word<'a>
        ensures { result ≡ bytes.entry.now }
    {
        Word { bytes }
    }

    /// Its bytes.
    pub fn bytes(&self) -> &'a [u8]
        ensures { result.now ≡ self.entry.now }
    {
        self.bytes
    }
}

/// Whether a word begins with a slash, as each path from the root does.
pub fn is_rooted(word: &[u8]) -> bool
    ensures { result ≡ starts_with nat_eq word.now (codes "/") }
{
    word.starts_with(b"/")
}

/// Whether a name of a path is `.` or `..`.
fn is_dots(name: &[u8]) -> bool
    ensures { result ≡ is_dots name.now }
{
    name == b".".as_slice() || name == b"..".as_slice()
}

/// Whether a path goes through `.` or `..`.
pub(crate) fn has_dots(path: &[u8]) -> bool
    ensures { result ≡ list_any is_dots (pieces 47 path.now) }
{
    Pieces::new(b'/', path).any(|name| is_dots(name))
}

/// The name of a program, without the directories before it.
pub(crate) fn base_name(tool: &[u8]) -> &[u8]
    ensures { result.now ≡ base_name tool.now }
{
    let mut names = Pieces::new(b'/', tool);
    let mut last: &[u8] = &[];
    'names: while let Some(name) = names.next() {
        last = name;
    }
    last
}
