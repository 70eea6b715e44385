//! What stands in the text of a call outside of strings, paths of descriptors, comments and brackets.
ghost use Rattle.std.specs.Prelude.{◌≡◌, ◌+◌, ◌<◌, ◌≤◌, ◌^◌, ◌∷◌, [], length, take, drop, MatchOption};
ghost use Rattle.std.specs.Option.{option_map};
ghost use Rattle.mt_strace.specs.Outside.{scan_start, is_opening, is_closing, after_bare, after_comment, after_asterisk, after_string, after_path, scan_after, is_loose, is_outside, pieces_outside, cut_outside};

/// In what a byte stands.
#[derive(Clone, Copy, PartialEq, Eq, Debug)]
enum Within {
    /// In nothing but brackets.
    Brackets,
    /// The same, behind a slash, which may begin a comment.
    Slash,
    /// In a comment.
    Comment,
    /// In a comment, behind an asterisk, with which it may end.
    Asterisk,
    /// In a string.
    String,
    /// In a string, behind a backslash.
    Backslash,
    /// In the path of a descriptor.
    Path,
}

/// What the bytes before one say of it.
#[derive(Clone, Copy, PartialEq, Eq, Debug)]
struct Scan {
    within: Within,
    /// How many brackets are open.
    depth: u64,
}

/// What stands before a text: nothing.
fn scan_start() -> Scan
    ensures { result ≡ scan_start }
{
    Scan {
        within: Within::Brackets,
        depth: 0,
    }
}

/// Whether a byte opens brackets.
fn is_opening(byte: u8) -> bool
    ensures { result ≡ is_opening byte }
{
    byte == b'(' || byte == b'[' || byte == b'{'
}

/// Whether a byte closes brackets.
fn is_closing(byte: u8) -> bool
    ensures { result ≡ is_closing byte }
{
    byte == b')' || byte == b']' || byte == b'}'
}

/// In what the byte after one of a comment stands.
fn after_comment(byte: u8) -> Within
    ensures { result ≡ after_comment byte }
{
    if byte == b'*' {
        Within::Asterisk
    } else {
        Within::Comment
    }
}

/// In what the byte after one behind an asterisk of a comment stands.
fn after_asterisk(byte: u8) -> Within
    ensures { result ≡ after_asterisk byte }
{
    if byte == b'/' {
        Within::Brackets
    } else {
        after_comment(byte)
    }
}

/// In what the byte after one of a string stands.
fn after_string(byte: u8) -> Within
    ensures { result ≡ after_string byte }
{
    if byte == b'"' {
        Within::Brackets
    } else if byte == b'\\' {
        Within::Backslash
    } else {
        Within::String
    }
}

/// In what the byte after one of a path stands.
fn after_path(byte: u8) -> Within
    ensures { result ≡ after_path byte }
{
    if byte == b'>' {
        Within::Brackets
    } else {
        Within::Path
    }
}

/// Whether nothing but brackets is open here.
fn is_loose(within: Within) -> bool
    ensures { result ≡ is_loose within }
{
    match within {
        Within::Brackets => true,
        Within::Slash => true,
        Within::Comment => false,
        Within::Asterisk => false,
        Within::String => false,
        Within::Backslash => false,
        Within::Path => false,
    }
}

/// What a byte in nothing but brackets says of the next one.
fn after_bare(depth: u64, byte: u8) -> Scan
    requires room { depth + 1 < 2 ^ 64 }
    ensures scan { result ≡ after_bare depth byte }
    ensures bound { result.depth ≤ depth + 1 }
{
    let (within, depth) = match byte {
        b'"' => (Within::String, depth),
        b'<' => (Within::Path, depth),
        b'/' => (Within::Slash, depth),
        _ if is_opening(byte) => (Within::Brackets, depth + 1),
        _ if is_closing(byte) => (Within::Brackets, depth.saturating_sub(1)),
        _ => (Within::Brackets, depth),
    };
    Scan { within, depth }
}

impl Scan {
    /// The same, with the next byte in something else.
    fn with(self, within: Within) -> Scan
        ensures { result ≡ record { within = within; depth = self.depth } }
    {
        Scan { within, ..self }
    }

    /// What the bytes up to this one say of the next.
    fn after(self, byte: u8) -> Scan
        requires room { self.depth + 1 < 2 ^ 64 }
        ensures scan { result ≡ scan_after self byte }
        ensures bound { result.depth ≤ self.depth + 1 }
    {
        match self.within {
            Within::Brackets => after_bare(self.depth, byte),
            Within::Slash => {
                if byte == b'*' {
                    self.with(Within::Comment)
                } else {
                    after_bare(self.depth, byte)
                }
            }
            Within::Comment => self.with(after_comment(byte)),
            Within::Asterisk => self.with(after_asterisk(byte)),
            Within::String => self.with(after_string(byte)),
            Within::Backslash => self.with(Within::String),
            Within::Path => self.with(after_path(byte)),
        }
    }

    /// Whether the next byte stands in nothing at all.
    fn is_outside(self) -> bool
        ensures { result ≡ is_outside self }
    {
        is_loose(self.within) && self.depth == 0
    }
}

/// The place of the first of a byte that stands outside.
#[tactic(auto, using(crate::proofs::OutsideLaws::one_passed, crate::proofs::OutsideLaws::one_cut, crate::proofs::OutsideLaws::none_cut))]
pub(crate) fn first_outside(separator: u8, text: &[u8]) -> Option<usize>
    ensures { MatchOption result (pieces_outside separator text.now ≡ text.now ∷ [])
        (λ k. (k < length text.now)
        × (pieces_outside separator text.now ≡ take k text.now ∷ pieces_outside separator (drop (k + 1) text.now))) }
{
    let mut scan = scan_start();
    for (i, byte) in text.iter().enumerate() {
        if *byte == separator && scan.is_outside() {
            return Some(i);
        }
        scan = scan.after(*byte);
    }
    None
}

/// A text cut at the first of a byte that stands outside: what stands before it and behind it. `None` if there is none.
#[tactic(auto, using(crate::proofs::OutsideLaws::cut_at_place, crate::proofs::OutsideLaws::cut_nowhere))]
pub(crate) fn cut_outside(separator: u8, text: &[u8]) -> Option<(&[u8], &[u8])>
    ensures { option_map (λ (front, behind). (front.now, behind.now)) result ≡ cut_outside separator text.now }
{
    let end = first_outside(separator, text)?;
    Some((&text[..end], &text[end + 1..]))
}
