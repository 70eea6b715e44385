//! Changes of mounts, of which those that are alike stand in one line.
ghost use Rattle.std.specs.Prelude.{◌≡◌, ◌++◌, [], count_by, OnOk};
ghost use Rattle.mt_what_if.specs.Abridged.{is_like, more_line, one_of, abridged_from};

use mt_info::print::push_number;
use mt_render::wording::push_shown;
use std::alloc::AllocError;
use std::marker::Model;

/// How many changes that are alike are told one by one, where there are not more.
const MOST_ALIKE: usize = 5;

/// How many of more changes that are alike are told before the others are counted.
const FIRST_ALIKE: usize = 2;

/// A change of a mount.
#[derive(Drop)]
pub(crate) struct Told {
    /// What changed, without the mount: those of which this is the same are alike.
    pub(crate) change: Vec<u8>,
    /// The line that tells it.
    pub(crate) line: Vec<u8>,
}

impl Model for Told {
    ghost use Rattle.mt_what_if.specs.Abridged.{ToldChange};

    ghost Value = { ToldChange };

    ghost view = { λ t. record { change = t.change.items; line = t.line.items } };
}

/// Whether two changes are alike.
fn is_like(change: &[u8], other: &Told) -> bool
    ensures { result ≡ is_like change.now other.now }
{
    change == other.change.as_slice()
}

/// How many changes are alike with one.
fn count_alike(change: &[u8], all: &[Told]) -> usize
    ensures { result ≡ count_by (is_like change.now) all.now }
{
    all.iter().filter(|other| is_like(change, other)).count()
}

/// Appends how many more changes there are that are alike.
fn push_more(text: &mut Vec<u8>, count: usize, change: &[u8]) -> Result<(), AllocError>
    ensures { OnOk result (text.new.items ≡ text.old.items ++ more_line count change.now) }
{
    let mut line = Vec::new(*text.allocator());
    line.extend_from_slice(b"    ~ ")?;
    push_number(&mut line, count as u64)?;
    line.extend_from_slice(b" more: ")?;
    line.extend_from_slice(change)?;
    push_shown(text, &line)
}

/// Appends a change: its line, or that of all that are alike with the first ones, or nothing where that was told.
fn push_one(
    text: &mut Vec<u8>,
    all: &[Told],
    earlier: &[Told],
    told: &Told,
) -> Result<(), AllocError>
    ensures { OnOk result (text.new.items ≡ text.old.items ++ one_of all.now earlier.now told.now) }
{
    let count = count_alike(&told.change, all);
    let before = count_alike(&told.change, earlier);
    if count <= MOST_ALIKE || before < FIRST_ALIKE {
        text.extend_from_slice(&told.line)?;
    } else if before == FIRST_ALIKE {
        push_more(text, count - FIRST_ALIKE, &told.change)?;
    }
    Ok(())
}

/// Appends changes. Of more than five that are alike the first two have lines of their own, and the others one.
pub(crate) fn push_abridged(text: &mut Vec<u8>, all: &[Told]) -> Result<(), AllocError>
    ensures { OnOk result (text.new.items ≡ text.old.items ++ abridged_from all.now [] all.now) }
{
    'all: for (place, told) in all.iter().enumerate() {
        push_one(text, all, &all[..place], told)?;
    }
    Ok(())
}
