//! What a line of a mountinfo tells of a mount.

use std::marker::Model;

/// A line of a mountinfo, as proc_pid_mountinfo(5) has it: words as they are there, numbers read.
#[derive(Drop)]
pub struct HostMount {
    /// The line itself, without its line end.
    pub line: Vec<u8>,
    /// The number of the mount.
    pub id: u64,
    /// The number of the mount that it stands on.
    pub parent: u64,
    /// The device: major and minor number, with a colon between them.
    pub device: Vec<u8>,
    /// The directory of the filesystem that the mount shows.
    pub root: Vec<u8>,
    /// Where the mount stands, from the root of the process down.
    pub point: Vec<u8>,
    /// The options of the mount, with commas between them.
    pub options: Vec<u8>,
    /// The number of the peer group, if the mount is shared.
    pub shared: Option<u64>,
    /// The number of the master group, if the mount is a slave.
    pub master: Option<u64>,
    /// The nearest group above the master that has a visible mount.
    pub via: Option<u64>,
    /// Whether the mount cannot be bound.
    pub unbindable: bool,
    /// The type of the filesystem.
    pub kind: Vec<u8>,
    /// The source of the filesystem.
    pub source: Vec<u8>,
}

impl Model for HostMount {
    ghost use Rattle.mt_import.specs.Reading.{ToldMount};

    ghost Value = { ToldMount };

    ghost view = { λ r. record {
      line = r.line.items;
      id = r.id;
      parent = r.parent;
      device = r.device.items;
      root = r.root.items;
      point = r.point.items;
      options = r.options.items;
      shared = r.shared;
      master = r.master;
      via = r.via;
      unbindable = r.unbindable;
      kind = r.kind.items;
      source = r.source.items;
    } };
}
