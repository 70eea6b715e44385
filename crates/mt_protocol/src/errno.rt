//! Errors of Linux, by their names and numbers.
ghost use Rattle.std.specs.Prelude.{◌≡◌};
ghost use Rattle.std.specs.List.{find};
ghost use Rattle.mt_protocol.specs.Errnos.{errno_name, errno_number, is_named, errno_of};

/// An error of a call about mounts (errno(3)).
#[derive(Clone, Copy, Debug, PartialEq, Eq)]
pub enum Errno {
    Eperm,
    Enoent,
    Enxio,
    Enomem,
    Eacces,
    Enotblk,
    Ebusy,
    Eexist,
    Enodev,
    Enotdir,
    Einval,
    Enospc,
    Erofs,
    Enametoolong,
    Eloop,
}

/// Every error of a call about mounts.
pub const ERRNOS: [Errno; 15] = [
    Errno::Eperm,
    Errno::Enoent,
    Errno::Enxio,
    Errno::Enomem,
    Errno::Eacces,
    Errno::Enotblk,
    Errno::Ebusy,
    Errno::Eexist,
    Errno::Enodev,
    Errno::Enotdir,
    Errno::Einval,
    Errno::Enospc,
    Errno::Erofs,
    Errno::Enametoolong,
    Errno::Eloop,
];

/// The first of these errors that a word names.
fn named_among(word: &[u8], errnos: &[Errno]) -> Option<Errno>
    ensures { result ≡ find (λ errno. is_named word.now errno) errnos.now }
{
    errnos.iter().copied().find(|errno| errno.is_named(word))
}

impl Errno {
    /// Its name.
    pub fn name(self) -> &'static str
        ensures { result.now ≡ errno_name self }
    {
        match self {
            Errno::Eperm => "EPERM",
            Errno::Enoent => "ENOENT",
            Errno::Enxio => "ENXIO",
            Errno::Enomem => "ENOMEM",
            Errno::Eacces => "EACCES",
            Errno::Enotblk => "ENOTBLK",
            Errno::Ebusy => "EBUSY",
            Errno::Eexist => "EEXIST",
            Errno::Enodev => "ENODEV",
            Errno::Enotdir => "ENOTDIR",
            Errno::Einval => "EINVAL",
            Errno::Enospc => "ENOSPC",
            Errno::Erofs => "EROFS",
            Errno::Enametoolong => "ENAMETOOLONG",
            Errno::Eloop => "ELOOP",
        }
    }

    /// Its number, as on x86-64 and arm64.
    pub fn number(self) -> &'static str
        ensures { result.now ≡ errno_number self }
    {
        match self {
            Errno::Eperm => "1",
            Errno::Enoent => "2",
            Errno::Enxio => "6",
            Errno::Enomem => "12",
            Errno::Eacces => "13",
            Errno::Enotblk => "15",
            Errno::Ebusy => "16",
            Errno::Eexist => "17",
            Errno::Enodev => "19",
            Errno::Enotdir => "20",
            Errno::Einval => "22",
            Errno::Enospc => "28",
            Errno::Erofs => "30",
            Errno::Enametoolong => "36",
            Errno::Eloop => "40",
        }
    }

    /// What strerror(3) says of it.
    pub fn sentence(self) -> &'static str {
        match self {
            Errno::Eperm => "Operation not permitted",
            Errno::Enoent => "No such file or directory",
            Errno::Enxio => "No such device or address",
            Errno::Enomem => "Cannot allocate memory",
            Errno::Eacces => "Permission denied",
            Errno::Enotblk => "Block device required",
            Errno::Ebusy => "Device or resource busy",
            Errno::Eexist => "File exists",
            Errno::Enodev => "No such device",
            Errno::Enotdir => "Not a directory",
            Errno::Einval => "Invalid argument",
            Errno::Enospc => "No space left on device",
            Errno::Erofs => "Read-only file system",
            Errno::Enametoolong => "File name too long",
            Errno::Eloop => "Too many levels of symbolic links",
        }
    }

    /// What it may be in Linux besides, which no refusal of a server stands for.
    pub fn in_linux_alone(self) -> &'static [&'static str] {
        match self {
            Errno::Eperm => &[
                "no CAP_SYS_ADMIN in the user namespace that owns the mount namespace",
                "a new proc or sysfs where locked mounts cover parts of those that are there",
            ],
            Errno::Ebusy => &[
                "an open file, a working directory or a swap file on it: fuser -vm PATH",
                "a filesystem that is mounted where it is the topmost mount already",
                "a remount with ro while files are open for writing",
            ],
            Errno::Einval => &[
                "a filesystem that cannot be read, or is of another type: dmesg says more",
                "the file of a mount namespace that would be bound into itself",
            ],
            Errno::Eacces => &["a device that is read-only, or a path that may not be searched"],
            Errno::Enodev => &["a type of filesystem that the kernel has not: /proc/filesystems"],
            Errno::Enotblk => &["a source that is no block device"],
            Errno::Enotdir => &["a file where a directory has to be, or the other way round"],
            Errno::Enoent => &["a source that is not there"],
            Errno::Eloop => &["too many symbolic links"],
            Errno::Enospc => &["more mounts in the namespace than /proc/sys/fs/mount-max"],
            Errno::Enxio => &["a device whose major number no driver has"],
            Errno::Erofs => &["a read-only device, without ro"],
            Errno::Enomem | Errno::Eexist | Errno::Enametoolong => &[],
        }
    }

    /// Whether a word is its name, in letters of any case, or its number.
    fn is_named(self, word: &[u8]) -> bool
        ensures { result ≡ is_named word.now self }
    {
        word.eq_ignore_ascii_case(self.name().as_bytes()) || word == self.number().as_bytes()
    }

    /// The error whose name a word is, in letters of any case, or whose number, if it is that of one.
    #[tactic(auto, unfolding(crate::specs::Errnos::errno_of))]
    pub fn of(word: &[u8]) -> Option<Errno>
        ensures { result ≡ errno_of word.now }
    {
        named_among(word, &ERRNOS)
    }
}
