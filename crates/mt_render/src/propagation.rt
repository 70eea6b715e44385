//! How a mount propagates, in a word.
ghost use Rattle.std.specs.Prelude.{◌≡◌, ◌++◌, OnOk};
ghost use Rattle.mt_render.specs.Propagation.{propagation};

use mt_info::print::push_tag_list;
use mt_info::row::Row;
use std::alloc::AllocError;

/// Appends how a mount propagates: its optional fields, joined by commas, or `private` where it has none.
pub(crate) fn push_propagation(text: &mut Vec<u8>, row: &Row) -> Result<(), AllocError>
    ensures { OnOk result (text.new.items ≡ text.old.items ++ propagation row.now) }
{
    let start = text.len();
    push_tag_list(text, row)?;
    if text.len() == start {
        text.extend_from_slice(b"private")?;
    }
    Ok(())
}
