//! Paths as a mountinfo has them, each name with its escapes. The path of a root is empty here: then a path and one
//! below it are joined by writing one after the other.
ghost use Rattle.std.specs.Prelude.{◌≡◌, nat_le, ◌&&◌, ◌==◌, not, false, length};
ghost use Rattle.std.specs.List.{list_all};
ghost use Rattle.std.specs.Option.{option_copied, option_map_or};
ghost use Rattle.mt_skel.specs.Escapes.{unescaped};
ghost use Rattle.mt_lines.specs.Words.{pieces};
ghost use Rattle.mt_import.specs.Paths.{below_root, path_word, name_count, says_name, can_be_named, is_script_name, has_script_name, names_behind, path_behind};

use mt_lines::words::Pieces;
use mt_skel::escape::unescaped_len;

/// The directory on which the script puts what it takes away again.
pub(crate) const STAGE: &[u8] = b"/.import";

/// A second one.
pub(crate) const SECOND: &[u8] = b"/.import2";

/// The most names of a directory, so that one may stand below them.
pub(crate) const MOST_NAMES: usize = 31;

/// The most bytes of a path, so that two names of the script may stand below it.
pub(crate) const MOST_BYTES: usize = 4_000;

/// A path without its slash, if that is all it is.
pub(crate) fn below_root(word: &[u8]) -> &[u8]
    ensures { result.now ≡ below_root word.now }
{
    if word == b"/".as_slice() {
        &word[1..]
    } else {
        word
    }
}

/// How many names a path has.
pub(crate) fn names(path: &[u8]) -> usize
    ensures { result ≡ name_count path.now }
{
    path.iter().filter(|byte| **byte == b'/').count()
}

/// Whether a piece between slashes stands for 1 to 255 bytes.
fn has_right_length(piece: &[u8]) -> bool
    ensures { result ≡ option_map_or (λ bytes. nat_le 1 (length bytes) && nat_le (length bytes) 255) (unescaped piece.now) false }
{
    match unescaped_len(piece) {
        Some(length) => 1 <= length && length <= 255,
        None => false,
    }
}

/// Whether no byte is zero.
fn has_no_zero(piece: &[u8]) -> bool
    ensures { result ≡ list_all (λ b. not (b == 0)) piece.now }
{
    piece.iter().all(|byte| *byte != 0)
}

/// Whether a piece between slashes is a name.
fn says_name(piece: &[u8]) -> bool
    ensures { result ≡ says_name piece.now }
{
    has_right_length(piece)
        && has_no_zero(piece)
        && piece != b".".as_slice()
        && piece != b"..".as_slice()
}

/// Whether each piece between the slashes of a text is a name.
fn has_only_names(text: &[u8]) -> bool
    ensures { result ≡ list_all says_name (pieces 47 text.now) }
{
    Pieces::new(b'/', text).all(|piece| says_name(piece))
}

/// Whether a path, which is empty for the root, is one that the script can name, and what it needs below it.
#[tactic(auto, unfolding(crate::specs::Paths::can_be_named))]
pub(crate) fn can_be_named(path: &[u8]) -> bool
    ensures { result ≡ can_be_named path.now }
{
    let Some((first, text)) = path.split_first() else {
        return true;
    };
    *first == b'/' && path.len() <= MOST_BYTES && has_only_names(text)
}

/// Whether a name of a path is one that the script uses.
#[tactic(auto, unfolding(crate::specs::Paths::has_script_name))]
pub(crate) fn has_script_name(path: &[u8]) -> bool
    ensures { result ≡ has_script_name path.now }
{
    Pieces::new(b'/', path).any(|piece| is_script_name(piece))
}

/// Whether a name is one that the script uses.
fn is_script_name(piece: &[u8]) -> bool
    ensures { result ≡ is_script_name piece.now }
{
    piece == b".import".as_slice() || piece == b".import2".as_slice()
}

/// What comes after a path in one below it, or `None` if that is not below.
#[tactic(auto, unfolding(crate::specs::Paths::path_behind))]
pub(crate) fn path_behind<'a>(path: &'a [u8], above: &[u8]) -> Option<&'a [u8]>
    ensures { option_copied result ≡ path_behind path.now above.now }
{
    if !path.starts_with(above) {
        return None;
    }
    names_behind(&path[above.len()..])
}

/// What comes after a path, if it is nothing or begins with a slash.
fn names_behind(rest: &[u8]) -> Option<&[u8]>
    ensures { option_copied result ≡ names_behind rest.now }
{
    match rest {
        [] => Some(rest),
        [b'/', ..] => Some(rest),
        _ => None,
    }
}

/// A path as a word; only a slash for the root.
pub(crate) fn path_word(path: &[u8]) -> &[u8]
    ensures { result.now ≡ path_word path.now }
{
    if path.is_empty() { b"/" } else { path }
}
