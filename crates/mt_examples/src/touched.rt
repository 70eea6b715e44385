//! The mounts that a command touched.

use crate::fixture::commands_of;
use crate::receivers::{do_all, do_one};
use mt_mounts::mount::MountId;
use mt_propagate::touched::touched;
use mt_propagate::world::World;
use mt_skel::fault::Fault;
use std::alloc::Global;
use std::test::Fail;

/// Does these commands, and answers the mounts that the last of them touched.
fn touched_last(alloc: Global, lines: &[u8]) -> Result<Vec<MountId>, Fault> {
    let commands = commands_of(alloc, lines)?;
    let mut world = World::new(alloc);
    if commands.is_empty() {
        return Ok(Vec::new(alloc));
    }
    let last = commands.len() - 1;
    do_all(&mut world, &commands[..last])?;
    let before = world.copy()?;
    world.begin();
    do_one(&mut world, &commands[last])?;
    touched(&before, &world)
}

/// Whether the last of these commands touched these mounts. A mount that moves has its state given again, and so
/// have those that go with it.
fn touches(alloc: Global, lines: &[u8], expected: &[MountId]) -> Result<bool, Fault> {
    let ids = touched_last(alloc, lines)?;
    Ok(ids.as_slice() == expected)
}

#[test]
fn a_command_touches_what_it_changes(rt: HostRuntime) -> Result<(), Fail> {
    let cases: [(&[u8], &[MountId]); 12] = [
        (b"mkfs a tmpfs none\nnewns a", &[1]),
        (
            b"mkfs a tmpfs none\nnewns a\nmkdir a /m\nmount 1 a /m\nmount 1 a /m",
            &[3],
        ),
        (
            b"mkfs a tmpfs none\nnewns a\nsetattr 1 / prop=shared\ncopyns 1\nmkdir a /m\nmount 1 a /m",
            &[3, 4],
        ),
        (
            b"mkfs a tmpfs none\nnewns a\nsetattr 1 / prop=shared\ncopyns 1\nmkdir a /m\nmount 1 a /m\numount 2 /m",
            &[3, 4],
        ),
        (
            b"mkfs a tmpfs none\nnewns a\nsetattr 1 / prop=shared\ncopyns 1\ncopyns 1\nsetattr 1 / prop=slave",
            &[1],
        ),
        (
            b"mkfs a tmpfs none\nnewns a\nmkdir a /m\nmkdir a /n\nmount 1 a /m\nmount 1 a /m/n\nmove 1 /m /n",
            &[2, 3],
        ),
        (
            b"mkfs a tmpfs none\nnewns a\nmkdir a /m\nmount 1 a /m\nsetattr 1 / rec set=ro",
            &[1, 2],
        ),
        (b"mkfs a tmpfs none\nnewns a\nmkdir a /m\nmount 1 a /n", &[]),
        // A group is no longer seen in namespace 1, where a mount below it stays; one in namespace 2 sees it as before.
        (
            b"mkfs h tmpfs none\nmkfs a ext4 /dev/x\nmkdir h /w\nmkdir h /v\nmkdir h /f\nnewns h\nmount 1 a /w\nsetattr 1 /w prop=shared\nbind 1 /w /v\nsetattr 1 /v prop=slave\nsetattr 1 /v prop=shared\nbind 1 /v /f\nsetattr 1 /f prop=slave\ncopyns 1\numount 1 /v",
            &[3, 4],
        ),
        // A group that has a mount in namespace 1 gets another one there: those below it stay as they are.
        (
            b"mkfs h tmpfs none\nmkfs a ext4 /dev/x\nmkdir h /w\nmkdir h /v\nmkdir h /x\nnewns h\nmount 1 a /w\nsetattr 1 /w prop=shared\nbind 1 /w /v\nsetattr 1 /v prop=slave\nbind 1 /w /x",
            &[4],
        ),
        (
            b"mkfs a tmpfs none\nnewns a\nsetattr 1 / prop=shared\nopentree 1 /",
            &[2],
        ),
        // A tree brings a group into namespace 1, where a mount below it stays and tells no other one any more.
        (
            b"mkfs h tmpfs none\nmkfs a ext4 /dev/x\nmkdir h /w\nmkdir h /v\nmkdir h /f\nnewns h\nmount 1 a /w\nsetattr 1 /w prop=shared\nopentree 1 /w\nsetattr 2 / prop=slave\nsetattr 2 / prop=shared\nopentree 2 /\nsetattr 3 / prop=slave\nmovetree 3 1 /f\nmovetree 2 1 /v",
            &[3, 4],
        ),
    ];
    for (lines, expected) in cases {
        let touched = touches(rt.alloc(), lines, expected)?;
        assert!(rt; touched);
    }
    Ok(())
}
