//! Why it is not known what a call asks.

/// Why it is not known what a call asks.
#[derive(Clone, Copy, PartialEq, Eq, Debug)]
pub enum Unknown {
    /// Its arguments are not those of the call.
    Arguments,
    /// A flag has no name, or none that is known.
    Flag,
    /// It maps user and group IDs, which is not followed (mount_setattr(2), MOUNT_ATTR_IDMAP).
    MappedIds,
    /// It mounts beneath another mount, which is not followed (move_mount(2), MOVE_MOUNT_BENEATH).
    Beneath,
    /// It gives a mount the peer group of another one, which is not followed (move_mount(2), MOVE_MOUNT_SET_GROUP).
    Group,
}

impl Unknown {
    /// The same in words, to come after "not played: ".
    pub fn text(self) -> &'static str {
        match self {
            Unknown::Arguments => "its arguments are not those of the call",
            Unknown::Flag => "a flag that is not known",
            Unknown::MappedIds => "mapped IDs are not followed",
            Unknown::Beneath => "a mount beneath another one is not followed",
            Unknown::Group => "a peer group that is given is not followed",
        }
    }
}
