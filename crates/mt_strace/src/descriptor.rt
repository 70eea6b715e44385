//! Descriptors of files, as strace has them with the paths that they lead to.
ghost use Rattle.std.specs.Prelude.{◌≡◌};
ghost use Rattle.std.specs.Option.{option_map};
ghost use Rattle.mt_strace.specs.Descriptors.{number_of, path_behind_angle, descriptor_of};

use crate::cut::{cut_at, stripped, stripped_end};
use crate::excerpt::Excerpt;
use mt_lines::words::number;

/// The number of a descriptor.
#[derive(Clone, Copy, PartialEq, Eq, Debug)]
pub enum DescriptorNumber {
    /// `AT_FDCWD`: the current directory stands for the descriptor.
    CurrentDirectory,
    /// One that may be open.
    Open(u64),
    /// One below 0, which is never open.
    Negative,
}

/// A descriptor of a file.
#[derive(Drop)]
pub struct Descriptor<'a> {
    /// Its number.
    pub number: DescriptorNumber,
    /// The path that it leads to, with escapes as in strings, or another name in its place, as `pipe:[5]`. `None` if strace
    /// does not tell it.
    pub path: Option<Excerpt<'a>>,
    /// Whether its file was deleted.
    pub is_deleted: bool,
}

/// The number of a descriptor.
fn number_of(text: &[u8]) -> Option<DescriptorNumber>
    ensures { result ≡ number_of text.now }
{
    if text == b"AT_FDCWD".as_slice() {
        return Some(DescriptorNumber::CurrentDirectory);
    }
    if let Some(digits) = stripped(b"-", text) {
        let _number = number(digits)?;
        return Some(DescriptorNumber::Negative);
    }
    Some(DescriptorNumber::Open(number(text)?))
}

/// The path behind `<`, and whether its file was deleted.
fn path_behind_angle(behind: &[u8]) -> Option<(&[u8], bool)>
    ensures { option_map (λ (path, is_deleted). (path.now, is_deleted)) result ≡ path_behind_angle behind.now }
{
    if let Some(path) = stripped_end(b">(deleted)", behind) {
        return Some((path, true));
    }
    let path = stripped_end(b">", behind)?;
    Some((path, false))
}

/// The descriptor that an argument is. `None` if it is none.
pub fn read_descriptor<'a>(argument: &'a [u8]) -> Option<Descriptor<'a>>
    ensures { result ≡ descriptor_of argument.entry.now }
{
    let Some((front, behind)) = cut_at(b'<', argument) else {
        return Some(Descriptor {
            number: number_of(argument)?,
            path: None,
            is_deleted: false,
        });
    };
    let number = number_of(front)?;
    let (path, is_deleted) = path_behind_angle(behind)?;
    Some(Descriptor {
        number,
        path: Some(Excerpt::new(path)),
        is_deleted,
    })
}
