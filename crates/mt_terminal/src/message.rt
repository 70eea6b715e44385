//! Strangers' bytes in a message.

use crate::terminal::is_obeyed;
use bstr::decode_utf8;
use std::fmt;
use std::fmt::{Display, Formatter, Write};

/// Bytes as a message shows them, which is as a terminal is given them.
#[derive(Clone, Copy)]
pub struct Shown<'a>(pub &'a [u8]);

/// Writes bytes in hexadecimal digits.
fn write_hexes<W: fmt::Write>(f: &mut Formatter<W>, bytes: &[u8]) -> fmt::Result {
    for byte in bytes {
        write!(f, "\\x{byte:02x}")?;
    }
    Ok(())
}

impl<'a> Display for Shown<'a> {
    #[tactic(auto, using(crate::proofs::SizeLaws::size_within))]
    fn fmt<W: fmt::Write>(&self, f: &mut Formatter<W>) -> fmt::Result {
        let Shown(bytes) = self;
        let mut rest = *bytes;
        'bytes: for _byte in *bytes {
            let (character, size) = decode_utf8(rest);
            let (piece, behind) = rest.split_at(size);
            match character {
                Some(character) if !is_obeyed(character) => f.write_char(character)?,
                _ => write_hexes(f, piece)?,
            }
            rest = behind;
        }
        Ok(())
    }
}
