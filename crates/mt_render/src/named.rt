//! Names of namespaces.
ghost use Rattle.std.specs.Prelude.{◌≡◌, ◌++◌, OnOk};
ghost use Rattle.mt_terminal.specs.Terminal.{terminal_text};
ghost use Rattle.mt_render.specs.Named.{name_in, name_words};

use mt_mounts::mount::SpaceId;
use mt_skel::escape::push_escaped;
use mt_terminal::terminal::terminal_text;
use std::alloc::AllocError;

/// A name that a namespace goes by.
#[derive(Clone, Copy)]
pub struct SpaceName<'a> {
    /// The number of the namespace.
    pub space: SpaceId,
    /// The name.
    pub name: &'a [u8],
}

/// The first name of a namespace among these, or an empty one. Takes no memory.
pub fn name_in<'a>(names: &[SpaceName<'a>], space: SpaceId) -> &'a [u8]
    ensures { result.now ≡ name_in names.now space }
{
    'names: for name in names {
        if name.space == space {
            return name.name;
        }
    }
    &[]
}

/// Appends the name of a namespace in parentheses, but for one that is empty.
pub(crate) fn push_name_words(text: &mut Vec<u8>, name: &[u8]) -> Result<(), AllocError>
    ensures { OnOk result (text.new.items ≡ text.old.items ++ name_words name.now) }
{
    match name {
        [] => Ok(()),
        [_, ..] => {
            text.extend_from_slice(b" (")?;
            push_escaped(text, name)?;
            text.extend_from_slice(b")")
        }
    }
}

/// Appends the same as a terminal is given it.
pub(crate) fn push_shown_name(text: &mut Vec<u8>, name: &[u8]) -> Result<(), AllocError>
    ensures { OnOk result (text.new.items ≡ text.old.items ++ terminal_text (name_words name.now)) }
{
    let alloc = *text.allocator();
    let mut words = Vec::new(alloc);
    push_name_words(&mut words, name)?;
    text.extend_from_slice(&terminal_text(alloc, &words)?)
}
