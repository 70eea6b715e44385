//! The options of mounts, as words of a `setattr` line.
ghost use Rattle.std.specs.Prelude.{◌≡◌, map, IfOk, OnOk};
ghost use Rattle.std.specs.List.{list_all};
ghost use Rattle.std.specs.Option.{option_map};
ghost use Rattle.mt_lines.specs.Words.{pieces};
ghost use Rattle.mt_import.specs.Options.{has_option, is_known, has_both, are_known, times_of, before_set, with_set, with_flags, with_times, with_kind, options_text};

use crate::writer::{Done, Text};
use mt_lines::words::Pieces;
use std::alloc::Global;

/// The word of `setattr` for a propagation, if it is set.
pub(crate) type Kind = Option<&'static [u8]>;

/// The options that are set by themselves.
const FLAGS: [&[u8]; 6] = [
    b"ro",
    b"nosuid",
    b"nodev",
    b"noexec",
    b"nodiratime",
    b"nosymfollow",
];

/// Whether a word is among options.
#[tactic(auto, unfolding(crate::specs::Options::has_option))]
fn has_option(options: &[u8], word: &[u8]) -> bool
    ensures { result ≡ has_option options.now word.now }
{
    Pieces::new(b',', options).any(|option| option == word)
}

/// Whether a mount here can have an option.
fn is_known(option: &[u8]) -> bool
    ensures { result ≡ is_known option.now }
{
    option == b"rw".as_slice()
        || option == b"ro".as_slice()
        || option == b"nosuid".as_slice()
        || option == b"nodev".as_slice()
        || option == b"noexec".as_slice()
        || option == b"noatime".as_slice()
        || option == b"nodiratime".as_slice()
        || option == b"relatime".as_slice()
        || option == b"nosymfollow".as_slice()
}

/// Whether a mount here can have each of these options.
fn has_only_known(options: &[u8]) -> bool
    ensures { result ≡ list_all is_known (pieces 44 options.now) }
{
    Pieces::new(b',', options).all(|option| is_known(option))
}

/// Whether both of two words are among options.
fn has_both(options: &[u8], first: &[u8], second: &[u8]) -> bool
    ensures { result ≡ has_both options.now first.now second.now }
{
    has_option(options, first) && has_option(options, second)
}

/// Whether a mount here can have all these options.
#[tactic(auto, unfolding(crate::specs::Options::are_known))]
pub(crate) fn are_known(options: &[u8]) -> bool
    ensures { result ≡ are_known options.now }
{
    has_only_known(options)
        && !has_both(options, b"rw", b"ro")
        && !has_both(options, b"noatime", b"relatime")
}

/// The word of `set=` for the access times of these options, if they are not those of a new mount.
fn times_of(options: &[u8]) -> Option<&'static [u8]>
    ensures { option_map (λ word. word.now) result ≡ times_of options.now }
{
    if has_option(options, b"noatime") {
        return Some(b"noatime");
    }
    if has_option(options, b"relatime") {
        return None;
    }
    Some(b"strictatime")
}

/// What stands before a word of `set=`.
fn before_set(text: &[u8]) -> &'static [u8]
    ensures { result.now ≡ before_set text.now }
{
    if text.is_empty() { b" set=" } else { b"," }
}

/// Appends a word to those of `set=`.
fn push_set(text: &mut Vec<u8>, word: &[u8]) -> Done
    ensures { OnOk result (text.new.items ≡ with_set text.old.items word.now) }
{
    let before = before_set(text.as_slice());
    text.extend_from_slice(before)?;
    text.extend_from_slice(word)?;
    Ok(())
}

/// Appends those of these flags to the words of `set=` that are among options.
fn push_flags(text: &mut Vec<u8>, options: &[u8], flags: &[&[u8]]) -> Done
    ensures { OnOk result (text.new.items ≡ with_flags options.now text.old.items (map (λ flag. flag.now) flags.now)) }
{
    'flags: for flag in flags {
        if has_option(options, flag) {
            push_set(text, flag)?;
        }
    }
    Ok(())
}

/// Appends the access times of options, if they are not those of a new mount.
fn push_times(text: &mut Vec<u8>, options: &[u8]) -> Done
    ensures { OnOk result (text.new.items ≡ with_times (times_of options.now) text.old.items) }
{
    let Some(times) = times_of(options) else {
        return Ok(());
    };
    push_set(text, times)?;
    text.extend_from_slice(b" clr=atime")?;
    Ok(())
}

/// Appends a word after a space, if there is one.
fn push_kind(text: &mut Vec<u8>, kind: Kind) -> Done
    ensures { OnOk result (text.new.items ≡ with_kind (option_map (λ word. word.now) kind.entry) text.old.items) }
{
    let Some(kind) = kind else {
        return Ok(());
    };
    text.extend_from_slice(b" ")?;
    text.extend_from_slice(kind)?;
    Ok(())
}

/// The words after a path in a `setattr` line, each preceded by a space: those for the options of a row, none if they
/// are those of a new mount, and one for its propagation.
pub(crate) fn options_of(alloc: Global, options: &[u8], kind: Kind) -> Text
    ensures { IfOk result (λ text. text.items ≡ options_text options.now (option_map (λ word. word.now) kind.entry)) }
{
    let mut text = Vec::new(alloc);
    push_flags(&mut text, options, FLAGS.as_slice())?;
    push_times(&mut text, options)?;
    push_kind(&mut text, kind)?;
    Ok(text)
}
