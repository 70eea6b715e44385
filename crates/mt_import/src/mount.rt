//! A mount of a table: where it stands among the others, or why it cannot be made there.

ghost use Rattle.std.specs.Prelude.{◌≡◌, Some, IfOk, IfErr};
ghost use Rattle.mt_import.specs.Paths.{is_too_deep};
ghost use Rattle.mt_import.specs.Placing.{why_pathless, stack_on, level_on, base_on, why_no_root, why_none_on, IsRootMount, IsPlacedOn};

use crate::host_mount::HostMount;
use crate::path::{
    MOST_BYTES, MOST_NAMES, below_root, can_be_named, has_script_name, names, path_behind,
};
use crate::reason::{Reason, Why};
use crate::writer::{Allocated, one_behind};
use std::alloc::Global;

/// The most mounts that stand on the root of a root mount, one on the other.
const MOST_AT_ROOT: usize = 32;

/// A mount that a script makes, unless it is left out.
#[derive(Drop)]
pub(crate) struct Mount<'a> {
    /// What its line tells.
    pub(crate) row: &'a HostMount,
    /// The number of its row among those of its table, counted from 0.
    pub(crate) number: usize,
    /// Which mount it stands on, counted in the order; the root mount's is its own.
    pub(crate) above: usize,
    /// The path of the directory that it shows.
    pub(crate) root: &'a [u8],
    /// The path of the directory where it stands, in the filesystem of the mount that it stands on.
    pub(crate) place: Vec<u8>,
    /// Which mount is the lowest of the stack that it is in: its own number, unless it stands on the root of another.
    pub(crate) lowest: usize,
    /// The names from the mount point of what the lowest mount of its stack stands on down to its
    /// own mount point.
    pub(crate) names: &'a [u8],
    /// How many stacks it stands on, one on the other; none if it is the root mount, or in the stack of the root mount.
    pub(crate) level: usize,
    /// Which mount at the root place of the namespace it stands on, or is: the root mount is 0.
    pub(crate) base: usize,
}

impl<'a> Mount<'a> {
    /// Whether it stands on the root of what it stands on, elsewhere than at the root of the namespace.
    pub(crate) fn stands_on_root(&self, lower: &Mount<'_>) -> bool {
        self.level > 0 && self.place.as_slice() == lower.root
    }
}

/// The mount that a row tells, or why it is left out.
pub(crate) type Placed<'a> = Result<Mount<'a>, Reason>;

/// Whether a directory of a filesystem is too deep, or its path too long.
fn is_too_deep(path: &[u8]) -> bool
    ensures { result ≡ is_too_deep path.now }
{
    names(path) > MOST_NAMES || path.len() > MOST_BYTES
}

/// Why the paths that a row tells cannot be those of a mount, if they cannot.
fn why_pathless(root: &[u8], point: &[u8]) -> Why
    ensures { result ≡ why_pathless root.now point.now }
{
    if !can_be_named(root) || !can_be_named(point) {
        return Some(Reason::NoDirectory);
    }
    if has_script_name(root) || has_script_name(point) {
        return Some(Reason::ScriptName);
    }
    if is_too_deep(root) {
        return Some(Reason::TooDeep);
    }
    None
}

/// The root mount that a row tells, which stands at `/`.
pub(crate) fn root_mount<'a>(alloc: Global, row: &'a HostMount, number: usize) -> Placed<'a>
    ensures place { IfOk result (λ mount. IsRootMount row.now mount) }
    ensures why { IfErr result (λ why. why_no_root row.now ≡ Some why) }
    ensures on { IfOk result (λ mount. (mount.row.now ≡ row.now) × (mount.number ≡ number) × (mount.above ≡ 0)) }
{
    if row.point.as_slice() != b"/".as_slice() {
        return Err(Reason::NoRootMount);
    }
    let root = below_root(row.root.as_slice());
    if let Some(why) = why_pathless(root, b"") {
        return Err(why);
    }
    Ok(Mount {
        row,
        number,
        above: 0,
        root,
        place: Vec::new(alloc),
        lowest: 0,
        names: b"",
        level: 0,
        base: 0,
    })
}

/// Of a mount at these names on another one, as the next of a number in the order: the lowest of its stack, the names from what
/// that stands on to its place, and its level.
fn stack_on<'a>(parent: &Mount<'a>, names: &'a [u8], here: usize) -> (usize, &'a [u8], usize)
    ensures stack { (result.0, result.1.now) ≡ stack_on parent.now names.now here }
    ensures level { result.2 ≡ level_on parent.now names.now }
{
    if names.is_empty() {
        return (parent.lowest, parent.names, parent.level);
    }
    (here, names, parent.level.saturating_add(1))
}

/// How many a mount of a level stands on at the root of the namespace, if they may be this many.
fn base_on(parent: &Mount<'_>, level: usize) -> Option<usize>
    ensures { result ≡ base_on parent.now level }
{
    if level > 0 {
        Some(parent.base)
    } else if parent.base < MOST_AT_ROOT {
        Some(parent.base + 1)
    } else {
        None
    }
}

/// The mount that a row tells on its parent, which is the one of a number in the order, as the next one of these numbers in
/// the order and among the rows.
pub(crate) fn mount_on<'a>(
    alloc: Global,
    row: &'a HostMount,
    number: usize,
    here: usize,
    parent: &Mount<'a>,
    above: usize,
) -> Allocated<Placed<'a>>
    ensures place { IfOk result (λ placed. IfOk placed (λ mount. IsPlacedOn parent.now row.now here mount)) }
    ensures why { IfOk result (λ placed. IfErr placed (λ why. why_none_on parent.now row.now ≡ Some why)) }
    ensures on { IfOk result (λ placed. IfOk placed (λ mount. (mount.row.now ≡ row.now) × (mount.number ≡ number) × (mount.above ≡ above))) }
{
    let (root, point) = (row.root.as_slice(), row.point.as_slice());
    let (root, point) = (below_root(root), below_root(point));
    if let Some(why) = why_pathless(root, point) {
        return Ok(Err(why));
    }
    let lower = parent.row;
    if lower.id != row.parent {
        return Ok(Err(Reason::NoParent));
    }
    let Some(names) = path_behind(point, below_root(lower.point.as_slice())) else {
        return Ok(Err(Reason::Elsewhere));
    };
    let place = one_behind(alloc, parent.root, names)?;
    if is_too_deep(place.as_slice()) {
        return Ok(Err(Reason::TooDeep));
    }
    let (lowest, names, level) = stack_on(parent, names, here);
    let Some(base) = base_on(parent, level) else {
        return Ok(Err(Reason::TooManyAtRoot));
    };
    Ok(Ok(Mount {
        row,
        number,
        above,
        root,
        place,
        lowest,
        names,
        level,
        base,
    }))
}
