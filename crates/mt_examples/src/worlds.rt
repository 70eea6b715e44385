//! Worlds of rows, with their tables as lines.
ghost use Rattle.mt_propagate.specs.World.{world_view};
ghost use Rattle.mt_propagate.specs.WellFormed.{IsWellFormed};

use mt_info::print::push_row;
use mt_info::read::read_row;
use mt_info::row::Row;
use mt_info::table::table_of;
use mt_lines::words::Pieces;
use mt_skel::fault::Fault;
use mt_world::made::{Made, world_of};
use mt_world::misfit::Misfit;
use mt_world::row::TableRow;
use std::alloc::Global;

/// The rows of tables, each line behind the number of its table.
fn rows_of(alloc: Global, text: &[u8]) -> Result<Vec<TableRow>, Fault> {
    let mut rows = Vec::new(alloc);
    for line in Pieces::new(b'\n', text) {
        if let [space, b' ', line @ ..] = line {
            let row = read_row(alloc, line)?;
            rows.push(TableRow::of(alloc, u64::from(space.saturating_sub(b'0')), &row)?)?;
        }
    }
    Ok(rows)
}

/// The tables of these namespaces as lines, each behind the number of its namespace.
fn tables_text(alloc: Global, made: &Made, spaces: &[u8]) -> Result<Vec<u8>, Fault>
    requires { IsWellFormed (world_view made.now.world) }
{
    let mut text = Vec::new(alloc);
    for space in spaces {
        let table = table_of(&made.world, u64::from(*space))?;
        push_rows(&mut text, *space, table.rows())?;
    }
    Ok(text)
}

/// Appends rows as lines, each behind the number of their namespace.
fn push_rows(text: &mut Vec<u8>, space: u8, rows: &[Row]) -> Result<(), Fault> {
    for row in rows {
        text.push(space.saturating_add(b'0'))?;
        text.push(b' ')?;
        push_row(text, row)?;
        text.push(b'\n')?;
    }
    Ok(())
}

/// Whether the world of tables has these tables.
fn makes(alloc: Global, text: &[u8], spaces: &[u8], tables: &[u8]) -> Result<bool, Fault> {
    let rows = rows_of(alloc, text)?;
    let made = world_of(alloc, rows.as_slice(), 1)?;
    let there = tables_text(alloc, &made, spaces)?;
    Ok(there.as_slice() == tables)
}

/// Whether the world of tables leaves rows out for these reasons, and has mounts private for the others.
fn leaves(
    alloc: Global,
    text: &[u8],
    left: &[Option<Misfit>],
    private: &[Option<Misfit>],
) -> Result<bool, Fault> {
    let rows = rows_of(alloc, text)?;
    let made = world_of(alloc, rows.as_slice(), 1)?;
    Ok(made.left.as_slice() == left && made.private.as_slice() == private)
}

const HOST: &[u8] = b"\
1 29 29 0:1 / / rw,relatime shared:1 - ext4 /dev/sda2 rw
1 31 29 0:2 / /proc rw,nosuid,nodev,noexec,relatime shared:12 - proc proc rw
1 35 29 0:3 / /run rw,nosuid,nodev shared:5 - tmpfs tmpfs rw
1 40 29 0:4 / /home rw,relatime shared:30 - ext4 /dev/sda3 rw
1 51 29 0:1 /media /media rw,relatime unbindable - ext4 /dev/sda2 rw
2 600 600 0:5 / / rw,relatime - overlay overlay rw
2 601 600 0:4 /ann /home ro,relatime master:30 - ext4 /dev/sda3 rw
2 602 600 0:1 /media /media rw,relatime shared:40 master:1 - ext4 /dev/sda2 rw
2 603 602 0:6 / /media/usb rw,relatime - vfat /dev/sdb1 rw
2 604 603 0:7 / /media/usb rw,noatime,nosymfollow - tmpfs tmpfs rw
";

/// Tables that fit are the tables of their world, with all numbers.
#[test]
fn tables_that_fit_are_kept(rt: HostRuntime) -> Result<(), Fault> {
    assert!(&rt; makes(rt.alloc(), HOST, b"\x01\x02", HOST)?);
    Ok(())
}

/// The order of rows does not matter.
#[test]
fn rows_stand_in_any_order(rt: HostRuntime) -> Result<(), Fault> {
    let turned = b"\
2 4 5 0:1 /b /a/c rw,relatime master:2 - ext4 d rw
1 1 2 0:1 /x /a rw,relatime shared:3 master:2 - ext4 d rw
2 5 6 0:1 /e /a rw,relatime shared:2 - ext4 d rw
1 2 2 0:1 / / rw,relatime - ext4 d rw
2 6 6 0:1 / / rw,relatime master:3 - ext4 d rw
";
    let sorted = b"\
1 1 2 0:1 /x /a rw,relatime shared:3 master:2 - ext4 d rw
1 2 2 0:1 / / rw,relatime - ext4 d rw
2 4 5 0:1 /b /a/c rw,relatime master:2 - ext4 d rw
2 5 6 0:1 /e /a rw,relatime shared:2 - ext4 d rw
2 6 6 0:1 / / rw,relatime master:3 propagate_from:2 - ext4 d rw
";
    assert!(&rt; makes(rt.alloc(), turned, b"\x01\x02", sorted)?);
    Ok(())
}

/// Each row that does not fit has its reason, and the others are kept.
#[test]
fn rows_that_do_not_fit_are_left_out(rt: HostRuntime) -> Result<(), Fault> {
    let text = b"\
1 1 1 0:1 / / rw,relatime - ext4 d rw
1 2 1 0:1 /a /a rw,relatime - ext4 d rw
1 2 1 0:1 /a /b rw,relatime - ext4 d rw
1 3 9 0:1 / /c rw,relatime - ext4 d rw
1 4 2 0:1 / /c rw,relatime - ext4 d rw
1 5 1 0:1 / /a rw,relatime - ext4 d rw
1 6 7 0:1 / /e rw,relatime - ext4 d rw
1 7 6 0:1 / /e rw,relatime - ext4 d rw
1 8 8 0:1 / / rw,relatime - ext4 d rw
1 0 1 0:1 / /z rw,relatime - ext4 d rw
2 10 10 0:1 / /z rw,relatime - ext4 d rw
2 11 10 0:1 / /z rw,relatime - ext4 d rw
1 12 2 0:1 /1/2/3/4/5/6/7/8/9/10/11/12/13/14/15/16/17/18/19/20/21/22/23/24/25/26/27/28/29/30/31/32/33 /a/b rw,relatime - ext4 d rw
";
    let left = [
        None,
        None,
        Some(Misfit::SameId),
        Some(Misfit::NoParent),
        Some(Misfit::Elsewhere),
        Some(Misfit::SamePlace),
        Some(Misfit::NoParent),
        Some(Misfit::NoParent),
        Some(Misfit::SecondRoot),
        Some(Misfit::NoNumber),
        Some(Misfit::NoParent),
        Some(Misfit::NoParent),
        Some(Misfit::TooDeep),
    ];
    let private = [
        None, None, None, None, None, None, None, None, None, None, None, None, None,
    ];
    assert!(&rt; leaves(rt.alloc(), text, left.as_slice(), private.as_slice())?);
    let kept = b"\
1 1 1 0:1 / / rw,relatime - ext4 d rw
1 2 1 0:1 /a /a rw,relatime - ext4 d rw
";
    assert!(&rt; makes(rt.alloc(), text, b"\x01", kept)?);
    Ok(())
}

/// A mount of which the state does not fit is private, and a master that no row is in has a mount in a namespace behind the others.
#[test]
fn states_that_do_not_fit_are_private(rt: HostRuntime) -> Result<(), Fault> {
    let text = b"\
1 1 1 0:1 / / rw,relatime shared:1 master:50 - ext4 d rw
1 2 1 0:2 / /a rw,relatime shared:2 master:3 - tmpfs e rw
1 3 1 0:2 / /b rw,relatime shared:3 master:2 - tmpfs e rw
1 4 1 0:2 / /c rw,relatime master:1 - tmpfs e rw
1 5 1 0:2 / /d rw,relatime shared:1 master:50 - tmpfs e rw
1 6 1 0:1 / /e rw,relatime shared:1 - ext4 d rw
1 7 1 0:1 / /f rw,relatime shared:1 master:50 unbindable - ext4 d rw
1 8 1 0:2 / /g rw,relatime master:60 - tmpfs e rw
";
    let left = [None, None, None, None, None, None, None, None];
    let private = [
        None,
        Some(Misfit::NoMaster),
        Some(Misfit::NoMaster),
        Some(Misfit::OtherFilesystem),
        Some(Misfit::OtherFilesystem),
        Some(Misfit::OtherMaster),
        Some(Misfit::Unbindable),
        None,
    ];
    assert!(&rt; leaves(rt.alloc(), text, left.as_slice(), private.as_slice())?);
    let tables = b"\
1 1 1 0:1 / / rw,relatime shared:1 master:50 - ext4 d rw
1 2 1 0:2 / /a rw,relatime - tmpfs e rw
1 3 1 0:2 / /b rw,relatime - tmpfs e rw
1 4 1 0:2 / /c rw,relatime - tmpfs e rw
1 5 1 0:2 / /d rw,relatime - tmpfs e rw
1 6 1 0:1 / /e rw,relatime - ext4 d rw
1 7 1 0:1 / /f rw,relatime - ext4 d rw
1 8 1 0:2 / /g rw,relatime master:60 - tmpfs e rw
2 9 9 0:1 / / rw,relatime shared:50 - ext4 d rw
2 10 9 0:2 / / rw,relatime shared:60 - tmpfs e rw
";
    assert!(&rt; makes(rt.alloc(), text, b"\x01\x02", tables)?);
    Ok(())
}
