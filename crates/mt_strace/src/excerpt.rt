//! A part of a line, as it stands there.
ghost use Rattle.std.specs.Prelude.{◌≡◌};

use std::marker::Model;

/// A part of a line, as it stands there.
#[derive(Drop)]
pub struct Excerpt<'a> {
    bytes: &'a [u8],
}

impl<'a> Model for Excerpt<'a> {
    ghost use Rattle.std.specs.Prelude.{ℕ, List};

    ghost Value = { List ℕ };

    ghost view = { λ e. e.bytes.now };
}

impl<'a> Excerpt<'a> {
    /// The part of these bytes.
    pub fn new(bytes: &'a [u8]) -> Excerpt<'a>
        ensures { result ≡ bytes.entry.now }
    {
        Excerpt { bytes }
    }

    /// Its bytes.
    pub fn bytes(&self) -> &'a [u8]
        ensures { result.now ≡ self.entry.now }
    {
        self.bytes
    }
}
