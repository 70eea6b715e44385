//! The mounts of a table in the order in which they are made: what one stands on comes before it, and what another one hides is
//! made before that.
ghost use Rattle.std.specs.Prelude.{◌≡◌, [], IfOk, OnOk};
ghost use Rattle.mt_import.specs.Tree.{is_waiting, IsNextMount, IsMakingOrder};

use crate::host_mount::HostMount;
use crate::host_space::HostSpace;
use crate::mount::{Mount, Placed, mount_on, root_mount};
use crate::path::{below_root, names};
use crate::reason::{Reason, Why};
use crate::writer::{Allocated, Done};
use std::alloc::Global;
use std::collections::{BTreeMap, BTreeSet};
use std::marker::Model;

/// The mounts of a table.
#[derive(Drop)]
pub(crate) struct Tree<'a> {
    /// The number of the table, from 1.
    pub(crate) table: usize,
    /// What is told of its namespace.
    told: &'a HostSpace,
    /// The mounts, each after the one that it stands on.
    mounts: Vec<Mount<'a>>,
    /// Why rows have no mount: those for which this is `None` have one.
    pub(crate) left: Vec<Why>,
    /// Where mounts stand: on which mount, and at which path.
    places: BTreeSet<(usize, &'a [u8])>,
}

impl<'a> Model for Tree<'a> {
    ghost use Rattle.mt_import.specs.Tree.{TreeView, IsMakingOrder};

    ghost Value = { TreeView };

    ghost view = { λ t. record { table = t.table; told = t.told.now; mounts = t.mounts.items; left = t.left.items } };

    ghost invariant = { λ t. IsMakingOrder t.told.now.rows t.mounts.items t.left.items };
}

/// Whether the turn of a row has not come: it is in a ring, if it never does.
fn is_waiting(left: &[Why], number: usize) -> bool
    ensures { result ≡ is_waiting left.now number }
{
    matches!(left.get(number), Some(Some(Reason::Ring)))
}

/// Whether the place of a row on the mount of a number is free, which is the next one's then. That of the first mount is.
fn is_free<'a>(
    places: &mut BTreeSet<(usize, &'a [u8])>,
    here: usize,
    above: usize,
    row: &'a HostMount,
) -> Allocated<bool> {
    Ok(here == 0 || places.insert((above, below_root(row.point.as_slice())))?)
}

impl<'a> Tree<'a> {
    /// No mounts yet, for the rows of the table of a number, which are left out for a reason if their turn never comes.
    pub(crate) fn new(
        alloc: Global,
        table: usize,
        told: &'a HostSpace,
        why: Reason,
    ) -> Allocated<Tree<'a>>
        ensures told { IfOk result (λ tree. tree.told ≡ told.now) }
        ensures numbered { IfOk result (λ tree. tree.table ≡ table) }
        ensures bare { IfOk result (λ tree. tree.mounts ≡ []) }
    {
        let left = vec![in alloc; Some(why); told.rows.len()]?;
        Ok(Tree {
            table,
            told,
            mounts: Vec::new(alloc),
            left,
            places: BTreeSet::new(alloc),
        })
    }

    /// The rows of the table.
    pub(crate) fn rows(&self) -> &'a [HostMount]
        ensures { result.now ≡ self.now.told.rows }
    {
        let told = self.told;
        told.rows.as_slice()
    }

    /// Whether the namespace of the table is foreign.
    pub(crate) fn is_foreign(&self) -> bool
        ensures { result ≡ self.now.told.is_foreign }
    {
        let told = self.told;
        told.is_foreign
    }

    /// The mounts, each after the one that it stands on.
    pub(crate) fn mounts(&self) -> &[Mount<'a>]
        ensures mounts { result.now ≡ self.now.mounts }
        ensures kept { IsMakingOrder self.now.told.rows self.now.mounts self.now.left }
    {
        self.mounts.as_slice()
    }

    /// Leaves out a row whose turn has not come; does nothing if it has.
    fn leave_out(&mut self, number: usize, why: Reason)
        ensures { self.new.told ≡ self.old.told }
    {
        if is_waiting(self.left.as_slice(), number) {
            self.left[number] = Some(why);
        }
    }

    /// The mount of the row of a number, on the mount of a number, or as the root mount if it is the first; or why it is left
    /// out.
    fn placed(&self, number: usize, above: usize) -> Allocated<Placed<'a>>
        ensures { IfOk result (λ placed. IfOk placed (λ mount. IsNextMount self.now.told.rows self.now.mounts number mount)) }
    {
        let (alloc, here) = (*self.mounts.allocator(), self.mounts.len());
        let Some(row) = self.rows().get(number) else {
            return Ok(Err(Reason::Ring));
        };
        if here == 0 {
            let placed = root_mount(alloc, row, number);
            return Ok(placed);
        }
        let Some(parent) = self.mounts.get(above) else {
            return Ok(Err(Reason::NoParent));
        };
        let placed = mount_on(alloc, row, number, here, parent, above)?;
        Ok(placed)
    }

    /// Adds the mount of the row of a number, on the mount of a number, or as the root mount if it is the first; or says why it is
    /// left out.
    fn place(&mut self, number: usize, on: On) -> Allocated<Why>
        ensures { OnOk result (self.new.told ≡ self.old.told) }
    {
        let above = match on {
            Ok(above) => above,
            Err(why) => return Ok(Some(why)),
        };
        let mount = match self.placed(number, above)? {
            Ok(mount) => mount,
            Err(why) => return Ok(Some(why)),
        };
        let row = mount.row;
        if !is_waiting(self.left.as_slice(), number) {
            return Ok(Some(Reason::SecondLine));
        }
        let here = self.mounts.len();
        if !is_free(&mut self.places, here, above, row)? {
            return Ok(Some(Reason::SamePlace));
        }
        self.mounts.push(mount)?;
        self.left[number] = None;
        Ok(None)
    }

    /// Takes the turn of a row, unless it has come before: its mount is added, or it is left out. Then those that stand
    /// on it wait for their turns, the last one first.
    fn take(&mut self, next: Waiting, below: &[Below], waiting: &mut Vec<Waiting>) -> Done
        ensures { OnOk result (self.new.told ≡ self.old.told) }
    {
        let (here, rows, number) = (self.mounts.len(), self.rows(), next.number);
        let Some(row) = rows.get(number) else {
            return Ok(());
        };
        if !is_waiting(self.left.as_slice(), number) {
            return Ok(());
        }
        let Some(why) = self.place(number, next.on)? else {
            return wait_for(waiting, below_of(below, row), Ok(here));
        };
        self.leave_out(number, why);
        wait_for(waiting, below_of(below, row), Err(Reason::ParentLeftOut))
    }

    /// Takes the turns of the rows that wait, the last one first, and of those that stand on these.
    fn grow(&mut self, below: &[Below], waiting: &mut Vec<Waiting>) -> Done
        ensures { OnOk result (self.new.told ≡ self.old.told) }
    {
        'turns: for _step in 0..=self.rows().len() {
            let Some(next) = waiting.pop() else {
                return Ok(());
            };
            self.take(next, below, waiting)?;
        }
        Ok(())
    }
}

/// The mount of the tree that a row stands on, of any number if it is the root mount's; or why the row is left out.
type On = Result<usize, Reason>;

/// A row that waits for its turn.
#[derive(Clone, Copy)]
struct Waiting {
    /// Which row it is.
    number: usize,
    /// What it stands on.
    on: On,
}

/// A row that stands on another.
#[derive(Clone, Copy)]
struct Below {
    /// The number of the mount that it stands on.
    parent: u64,
    /// How many names lead to its mount point.
    names: usize,
    /// Which row it is.
    number: usize,
    /// Why it is left out in any case, if it is.
    left: Why,
}

/// Rows that are left out in any case, each by the number of its table and its own number, and why: they take no place
/// from another row.
pub(crate) type Refused = BTreeMap<(usize, usize), Reason>;

/// Of the rows that stand on others, those that stand on this one.
fn below_of<'b>(below: &'b [Below], row: &HostMount) -> &'b [Below] {
    let id = row.id;
    let start = below.partition_point(|other| other.parent < id);
    let behind = &below[start..];
    let end = behind.partition_point(|other| other.parent <= id);
    &behind[..end]
}

/// Makes these rows wait for their turns, the last one first.
fn wait_for(waiting: &mut Vec<Waiting>, rows: &[Below], on: On) -> Done {
    for row in rows {
        let number = row.number;
        let on = match row.left {
            Some(why) => on.and(Err(why)),
            None => on,
        };
        waiting.push(Waiting { number, on })?;
    }
    Ok(())
}

/// The numbers of the mounts that rows tell. Rows whose mount was told before are left out.
fn ids_of(tree: &mut Tree<'_>) -> Allocated<BTreeSet<u64>>
    ensures { OnOk result (tree.new.told ≡ tree.old.told) }
{
    let (mut ids, rows) = (BTreeSet::new(*tree.mounts.allocator()), tree.rows());
    'rows: for (number, row) in rows.iter().enumerate() {
        if !ids.insert(row.id)? {
            tree.leave_out(number, Reason::SecondLine);
        }
    }
    Ok(ids)
}

/// Whether a row stands on none of the others.
fn is_top(ids: &BTreeSet<u64>, row: &HostMount) -> bool {
    row.parent == row.id || !ids.contains(&row.parent)
}

/// Which row is the root mount, if one is.
fn root_of(ids: &BTreeSet<u64>, rows: &[HostMount]) -> Option<usize> {
    rows.iter().position(|row| is_top(ids, row) && row.point.as_slice() == b"/".as_slice())
}

/// The rows that stand on others, by the numbers of these, and by how many names lead to where they stand. Those that
/// stand on none wait to be left out, except for that of the root mount; and all of them wait for that if there is
/// none.
fn sorted(
    tree: &Tree<'_>,
    ids: &BTreeSet<u64>,
    root: Option<usize>,
    refused: &Refused,
    waiting: &mut Vec<Waiting>,
) -> Allocated<Vec<Below>> {
    let mut below = Vec::new(*tree.mounts.allocator());
    let why = if root.is_some() {
        Reason::NoParent
    } else {
        Reason::NoRootMount
    };
    for (number, row) in tree.rows().iter().enumerate() {
        if root == Some(number) || !is_waiting(tree.left.as_slice(), number) {
            continue;
        }
        if root.is_none() || is_top(ids, row) {
            waiting.push(Waiting {
                number,
                on: Err(why),
            })?;
            continue;
        }
        let names = names(below_root(row.point.as_slice()));
        below.push(Below {
            parent: row.parent,
            names,
            number,
            left: refused.get(&(tree.table, number)).copied(),
        })?;
    }
    below.sort_unstable_by_key(|row| (row.parent, row.names, row.number));
    Ok(below)
}

/// The mounts that the rows of the table of a number tell, each with its place, and why the others have none: all are
/// left out if a table before it tells the same, and so are those that are refused.
pub(crate) fn tree_of<'a>(
    alloc: Global,
    table: usize,
    told: &'a HostSpace,
    is_told: bool,
    refused: &Refused,
) -> Allocated<Tree<'a>>
    ensures { IfOk result (λ tree. tree.told ≡ told.now) }
{
    if is_told {
        return Tree::new(alloc, table, told, Reason::SameTable);
    }
    let mut tree = Tree::new(alloc, table, told, Reason::Ring)?;
    let ids = ids_of(&mut tree)?;
    let (root, mut waiting) = (root_of(&ids, told.rows.as_slice()), Vec::new(alloc));
    let below = sorted(&tree, &ids, root, refused, &mut waiting)?;
    if let Some(number) = root {
        waiting.push(Waiting { number, on: Ok(0) })?;
    }
    tree.grow(below.as_slice(), &mut waiting)?;
    Ok(tree)
}
