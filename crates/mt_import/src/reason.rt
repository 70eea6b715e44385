//! Why a mount of a mountinfo is not made.
ghost use Rattle.std.specs.Prelude.{◌≡◌};
ghost use Rattle.mt_import.specs.Script.{reason_text};

/// Why a mount is left out.
#[derive(Clone, Copy)]
pub(crate) enum Reason {
    SameTable,
    SecondLine,
    NoRootMount,
    NoParent,
    ParentLeftOut,
    Ring,
    /// Its root or its mount point is not a path of names, or too long.
    NoDirectory,
    Elsewhere,
    AtRoot,
    /// It is the 33rd or a later one of those that stand on the root of the root mount, one on the other.
    TooManyAtRoot,
    /// It has peers, and the paths of what comes to them while it is brought to the root of the namespace would be too long.
    LongAtRoot,
    ScriptName,
    /// The path of the directory that it shows, or of that on which it stands, has too many names, or too many bytes.
    TooDeep,
    /// A row tells another device or master of a group, or a group would be above itself; the group from which it
    /// receives by way of its master is not the nearest above that has a member among the rows of its table; or it is
    /// unbindable.
    NoSuchGroups,
    TooLow,
    SamePlace,
    /// Or for what comes with it while it is made.
    NoRoom,
    /// A line of the script would not be one that the server reads, or what is planned is not what the tables tell.
    Unmade,
}

/// Why something is left out, if it is.
pub(crate) type Why = Option<Reason>;

impl Reason {
    /// What a comment says.
    pub(crate) fn text(self) -> &'static [u8]
        ensures { result.now ≡ reason_text self }
    {
        match self {
            Reason::SameTable => b"its table is told before",
            Reason::SecondLine => b"a line before it tells its mount",
            Reason::NoRootMount => b"there is no root mount",
            Reason::NoParent => b"it stands on no other",
            Reason::ParentLeftOut => b"what it stands on is left out",
            Reason::Ring => b"its parents go round in a ring",
            Reason::NoDirectory => b"its root or mount point is no directory",
            Reason::Elsewhere => b"it stands elsewhere than below its parent",
            Reason::AtRoot =>
                b"it stands on the root of one that has peers at the root of the namespace",
            Reason::TooManyAtRoot => b"too many stand below it at the root of the namespace",
            Reason::LongAtRoot =>
                b"its root is too long for one that has peers at the root of the namespace",
            Reason::ScriptName => b"its path has the name that the script uses",
            Reason::TooDeep => b"its directory is too deep",
            Reason::NoSuchGroups => b"its peer groups cannot be as it tells them",
            Reason::TooLow => b"too many groups are above its own",
            Reason::SamePlace => b"another mount stands in its place",
            Reason::NoRoom => b"the server has no room for it",
            Reason::Unmade => b"no script makes it",
        }
    }
}
