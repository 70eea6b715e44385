//! What no session asks for: texts one by one and read back, a row by its mount, and the change from one table to another.
ghost use Rattle.mt_propagate.specs.World.{world_view};
ghost use Rattle.mt_propagate.specs.WellFormed.{IsWellFormed};

use crate::fixture::commands_of;
use crate::receivers::do_all;
use mt_events::change::change;
use mt_events::mirror::Mirror;
use mt_events::post::Post;
use mt_events::print::print_post;
use mt_events::read::read_post;
use mt_info::print::print_row;
use mt_info::read::read_row;
use mt_info::table::{row_of, table_of};
use mt_propagate::world::World;
use mt_skel::escape::{escape, unescape};
use mt_skel::fault::Fault;
use std::alloc::Global;
use std::test::Fail;

/// Commands that make a namespace of four mounts, and what leads to another table.
const MADE: &[u8] = b"mkfs a tmpfs none
mkfs d ext4 /dev/x
mkdir a /m\\040n
mkdir d /s
newns a
setattr 1 / prop=shared
mount 1 d /m\\040n
bind 1 /m\\040n/s /m\\040n
copyns 1";

const CHANGED: &[u8] = b"umount 1 /m\\040n
setattr 1 / set=ro,noexec
mount 1 d /m\\040n/s";

/// The lines of the first table.
const LINES: [&[u8]; 3] = [
    b"1 1 0:1 / / rw,relatime shared:1 - tmpfs none rw",
    b"2 1 0:2 / /m\\040n rw,relatime shared:2 - ext4 /dev/x rw",
    b"3 2 0:2 /s /m\\040n rw,relatime shared:2 - ext4 /dev/x rw",
];

/// The post from the first table to the other.
const POST: &[u8] = b"event 1 1 3
- 3
= 1 1 0:1 / / ro,noexec,relatime shared:1 - tmpfs none rw
= 7 2 0:2 / /m\\040n/s rw,relatime shared:3 - ext4 /dev/x rw
";

/// Bytes, and how they are written in a line.
const ESCAPED: [(&[u8], &[u8]); 3] = [
    (b" a\t/\n\\b", b"\\040a\\011/\\012\\134b"),
    (b"plain", b"plain"),
    (b"", b""),
];

/// The world that these commands make of another.
fn done(alloc: Global, world: &mut World, lines: &[u8]) -> Result<(), Fault>
    requires well_formed { IsWellFormed (world_view world.old) }
    ensures kept { IsWellFormed (world_view world.new) }
{
    let commands = commands_of(alloc, lines)?;
    do_all(world, &commands)
}

#[test]
fn bytes_are_escaped_and_read_back(rt: HostRuntime) -> Result<(), Fail> {
    for (bytes, text) in ESCAPED {
        let escaped = escape(rt.alloc(), bytes)?;
        let back = unescape(rt.alloc(), text)?;
        assert!(rt;
            escaped.as_slice() == text && back.as_slice() == bytes,
            "{bytes:?}"
        );
    }
    assert!(rt; matches!(unescape(rt.alloc(), b"\\041"), Err(Fault::BadLine)));
    Ok(())
}

#[test]
fn rows_are_printed_and_read_back(rt: HostRuntime) -> Result<(), Fail> {
    let alloc = rt.alloc();
    let mut world = World::new(alloc);
    done(alloc, &mut world, MADE)?;
    let table = table_of(&world, 1)?;
    assert_eq!(rt; table.rows().len(), LINES.len());
    for (row, line) in table.rows().iter().zip(LINES) {
        let text = print_row(alloc, row)?;
        let back = read_row(alloc, line)?;
        if world.forest.get(row.id).is_none() {
            return Err(Fail::from(Fault::NoEntry));
        }
        let alone = row_of(&world, row.id)?;
        assert!(rt;
            text.as_slice() == line && back.same(row) && alone.same(row),
            "{line:?}"
        );
    }
    Ok(())
}

#[test]
fn a_change_leads_to_the_other_table(rt: HostRuntime) -> Result<(), Fail> {
    let alloc = rt.alloc();
    let mut world = World::new(alloc);
    done(alloc, &mut world, MADE)?;
    let before = table_of(&world, 1)?;
    done(alloc, &mut world, CHANGED)?;
    let after = table_of(&world, 1)?;
    assert!(rt; change(alloc, &after, &after)?.is_none());
    let Some(delta) = change(alloc, &before, &after)? else {
        return Err(Fail::from(Fault::BadLine));
    };
    let Some(post) = Post::new(1, 1, delta.gone, delta.rows) else {
        return Err(Fail::from(Fault::BadLine));
    };
    let text = print_post(alloc, &post)?;
    assert!(rt; text.as_slice() == POST, "{text:?}");
    let mut mirror = Mirror::new(1, 0, before);
    mirror.apply(&read_post(alloc, POST)?)?;
    assert!(rt; mirror.table().same(&after) && mirror.number() == 1);
    Ok(())
}
