//! Lines of mount(8) and its kin, and the lines of a session that they ask for.

use mt_forms::line::read_line;
use mt_forms::nearest::meant_by;
use mt_forms::operation::{Asked, Operation};
use mt_forms::script::{later_session_lines, session_lines};
use mt_forms::slip::Slip;
use mt_forms::split::{joined_words, split_line};
use mt_lines::words::Pieces;
use std::alloc::Global;
use std::test::Fail;

/// Lines, and what they ask for in namespace 1, in which a filesystem has its source for a name. A copied namespace is 3.
const FORMS: [(&[u8], &[u8]); 53] = [
    (b"mount --bind /a /b", b"bind 1 /a /b\n"),
    (b"mount -B /a /b", b"bind 1 /a /b\n"),
    (b"mount -o bind /a /b", b"bind 1 /a /b\n"),
    (b"mount --rbind /a /b", b"rbind 1 /a /b\n"),
    (b"mount -R /a /b", b"rbind 1 /a /b\n"),
    (b"mount --move /a /b", b"move 1 /a /b\n"),
    (b"mount -M -o ro /a /b", b"move 1 /a /b\n"),
    (
        b"mount --bind -o ro,nosuid /a /b",
        b"bind 1 /a /b\nsetattr 1 /b set=ro,nosuid clr=nodev,noexec,nosymfollow\n",
    ),
    (
        b"mount --bind -o noatime /a /b",
        b"bind 1 /a /b\nsetattr 1 /b set=noatime clr=ro,nosuid,nodev,noexec,nosymfollow,nodiratime,atime\n",
    ),
    (b"mount --bind -o rw,suid,diratime /a /b", b"bind 1 /a /b\n"),
    (b"mount --bind -o strictatime /a /b", b"bind 1 /a /b\n"),
    (
        b"mount --bind --make-private /a /b",
        b"bind 1 /a /b\nsetattr 1 /b prop=private\n",
    ),
    (b"mount --make-shared /a", b"setattr 1 /a prop=shared\n"),
    (b"mount --make-slave /a", b"setattr 1 /a prop=slave\n"),
    (b"mount --make-private /a", b"setattr 1 /a prop=private\n"),
    (
        b"mount --make-unbindable /a",
        b"setattr 1 /a prop=unbindable\n",
    ),
    (b"mount --make-rslave /", b"setattr 1 / rec prop=slave\n"),
    (b"mount -t tmpfs t /a", b"mount 1 t /a\n"),
    (
        b"mount -t tmpfs -o ro,nosuid,size=1m t /a",
        b"mount 1 t /a set=ro,nosuid\n",
    ),
    (
        b"mount -t tmpfs -o user,exec,noatime t /a",
        b"mount 1 t /a set=nosuid,nodev,noatime\n",
    ),
    (
        b"mount -rt tmpfs --source t --target /a",
        b"mount 1 t /a set=ro\n",
    ),
    (b"mount /dev/sda3 /a/", b"mount 1 /dev/sda3 /a\n"),
    (
        b"mount -t tmpfs --make-private t /a",
        b"mount 1 t /a\nsetattr 1 /a prop=private\n",
    ),
    (b"mount -N 2 -t tmpfs t /a", b"mount 2 t /a\n"),
    (b"mount -m --bind /a /b/new", b"bind 1 /a /b/new\n"),
    (
        b"mount --mkdir=0755 --bind /a //b//new",
        b"bind 1 /a /b/new\n",
    ),
    (
        b"mount --bind '/a b' \"/c\\\\d\"",
        b"bind 1 /a\\040b /c\\134d\n",
    ),
    (b"mount --bind -- /a /b", b"bind 1 /a /b\n"),
    (b"umount /home", b"umount 1 /home\n"),
    (b"umount -l /home", b"detach 1 /home\n"),
    (b"umount -R /home", b""),
    (b"umount -Rl /home", b""),
    (b"umount -A /home", b""),
    (b"umount usb", b""),
    (b"umount /dev/sda3", b"umount 1 /dev/sda3\n"),
    (b"umount -vf /home", b"umount 1 /home\n"),
    (b"umount -N 2 /home", b"umount 2 /home\n"),
    (b"pivot_root /a /a/old", b"pivot 1 /a /a/old\n"),
    (b"unshare -m", b"copyns 1\nsetattr 3 / rec prop=private\n"),
    (
        b"unshare -m --propagation slave",
        b"copyns 1\nsetattr 3 / rec prop=slave\n",
    ),
    (
        b"unshare --mount --propagation=unchanged sh -c -r -x",
        b"copyns 1\n",
    ),
    (
        b"unshare -Urm",
        b"copyns 1 less lock\nsetattr 3 / rec prop=private\n",
    ),
    (b"nsenter -t 2 -m umount -l /media", b"detach 2 /media\n"),
    (
        b"nsenter --mount=/proc/2/ns/mnt /bin/mount --make-shared /a",
        b"setattr /proc/2/ns/mnt /a prop=shared\n",
    ),
    (
        b"sudo mount --make-rshared /",
        b"setattr 1 / rec prop=shared\n",
    ),
    (
        b"setattr 1 / rec prop=slave",
        b"setattr 1 / rec prop=slave\n",
    ),
    (b"detach 1 /home", b"detach 1 /home\n"),
    (b"copyns 1 less", b"copyns 1 less\n"),
    (b"movetree 4 1 /mnt", b"movetree 4 1 /mnt\n"),
    (b"mount 1 usb /media/usb", b"mount 1 usb /media/usb\n"),
    (b"umount 1 /media/usb", b"umount 1 /media/usb\n"),
    (b"mkdir usb /a", b"mkdir usb /a\n"),
    (b"mkdir -p /a", b""),
];

/// Lines with a slip, and what is said of it.
const SLIPS: [(&[u8], &str); 27] = [
    (
        b"mont --bind /a /b",
        "no line begins with mont; the nearest is mount",
    ),
    (
        b"mount --bnd /a /b",
        "mount has no --bnd here; the nearest is bind",
    ),
    (b"mount -Bz /a /b", "mount has no -Bz here"),
    (b"xyzzy /a", "no line begins with xyzzy"),
    (b"show 1", "show changes nothing"),
    (
        b"mount /a",
        "mount /a alone: no fstab is read; name the source too",
    ),
    (
        b"mount -o rprivate /a",
        "mount /a alone: no fstab is read; name the source too",
    ),
    (
        b"mount tmpfs",
        "mount tmpfs alone: no fstab is read; name the source too",
    ),
    (
        b"mount -a",
        "mount: no fstab is read; name source and target of one mount",
    ),
    (b"mount", "mount without a target changes nothing"),
    (
        b"mount --bind a b",
        "a is no path from the root: a path begins with /",
    ),
    (
        b"mount --bind /a b",
        "b is no path from the root: a path begins with /",
    ),
    (
        b"mount --bind /a /b/../c",
        "/b/../c has . or ..: write the path out",
    ),
    (b"mount --bind /a", "mount takes two paths here"),
    (
        b"mount t /a /b",
        "mount has too many words: name one target a line",
    ),
    (
        b"mount -o remount,ro /a",
        "mount -o remount without bind changes the filesystem itself, for all its mounts; -o remount,bind,.. changes this mount",
    ),
    (
        b"mount --bind --move /a /b",
        "bind, rbind and move are three lines",
    ),
    (
        b"mount --make-shared --make-private /a",
        "a line makes a mount one thing; the next one is a line of its own",
    ),
    (b"mount --bind=1 /a /b", "--bind=1: mount takes no value"),
    (
        b"mount t /a -o",
        "mount: a value is missing after the last option",
    ),
    (
        b"umount -a",
        "umount: no fstab is read; name source and target of one mount",
    ),
    (
        b"umount /a /b",
        "umount has too many words: name one target a line",
    ),
    (
        b"unshare -n",
        "unshare is of a mount namespace with -m alone",
    ),
    (
        b"unshare -m --propagation up",
        "up: --propagation takes private, shared, slave or unchanged",
    ),
    (b"nsenter -m umount /a", "nsenter takes -t and a process"),
    (
        b"nsenter -t 2 umount /a",
        "nsenter is of a mount namespace with -m alone",
    ),
    (
        b"nsenter -t 2 -m",
        "nsenter takes a command after its options",
    ),
];

/// What remounts ask for, of a mount with options.
const REMOUNTS: [(&[u8], &[u8], &[u8]); 5] = [
    (
        b"mount -o remount,bind,ro,noexec /a",
        b"rw,nosuid,relatime",
        b"setattr 1 /a set=ro,nosuid,noexec,relatime clr=nodev,nosymfollow,nodiratime,atime\n",
    ),
    (
        b"mount -o remount,bind,rw,suid /a",
        b"ro,nosuid,nodev,noatime",
        b"setattr 1 /a set=nodev,noatime clr=ro,nosuid,noexec,nosymfollow,nodiratime,atime\n",
    ),
    (
        b"mount -o remount,bind,ro /a",
        b"rw",
        b"setattr 1 /a set=ro clr=nosuid,nodev,noexec,nosymfollow\n",
    ),
    (
        b"mount -o remount,bind,ro /a",
        b"rw,nodiratime",
        b"setattr 1 /a set=ro,nodiratime,relatime clr=nosuid,nodev,noexec,nosymfollow,atime\n",
    ),
    (
        b"mount -o remount,bind,relatime /a",
        b"rw,noatime",
        b"setattr 1 /a set=noatime clr=ro,nosuid,nodev,noexec,nosymfollow,nodiratime,atime\n",
    ),
];

/// The name of the filesystem of a form, which is its source here.
fn filesystem_of<'a>(operation: &Operation<'a>) -> &'a [u8] {
    match operation {
        Operation::Mount { source, .. } => source.bytes(),
        _ => b"",
    }
}

/// The lines that are asked for, in namespace 1 if the line names none.
fn script_in(alloc: Global, asked: &Asked<'_>, options: &[u8]) -> Result<Vec<u8>, Fail> {
    let space: &[u8] = match &asked.space {
        Some(space) => space.bytes(),
        None => b"1",
    };
    let filesystem = filesystem_of(&asked.operation);
    let mut script = session_lines(alloc, &asked.operation, space, filesystem, options)?;
    let later = later_session_lines(alloc, &asked.operation, b"3")?;
    script.extend_from_slice(later.as_slice())?;
    Ok(script)
}

/// What is said of a slip, with the word that was meant.
fn told(alloc: Global, slip: &Slip<'_>) -> Result<String, Fail> {
    let text = match meant_by(alloc, slip)? {
        Some(meant) => {
            let mut text = format!(in alloc; "{slip}; the nearest is ")?;
            for byte in meant {
                text.push(char::from(*byte))?;
            }
            text
        }
        None => format!(in alloc; "{slip}")?,
    };
    Ok(text)
}

/// Whether a line asks for this, of a mount with options.
fn becomes(alloc: Global, line: &[u8], options: &[u8], wanted: &[u8]) -> Result<bool, Fail> {
    let Some(words) = split_line(alloc, line)? else {
        return Ok(false);
    };
    match read_line(Pieces::new(0, words.as_slice())) {
        Ok(asked) => Ok(script_in(alloc, &asked, options)?.as_slice() == wanted),
        Err(_) => Ok(false),
    }
}

#[test]
fn forms_become_lines_of_a_session(rt: HostRuntime) -> Result<(), Fail> {
    for (line, wanted) in FORMS {
        assert!(rt; becomes(rt.alloc(), line, b"", wanted)?, "{line:?}");
    }
    Ok(())
}

#[test]
fn remounts_keep_what_is_not_named(rt: HostRuntime) -> Result<(), Fail> {
    for (line, options, wanted) in REMOUNTS {
        assert!(rt; becomes(rt.alloc(), line, options, wanted)?, "{line:?}");
    }
    Ok(())
}

#[test]
fn slips_are_told(rt: HostRuntime) -> Result<(), Fail> {
    let alloc = rt.alloc();
    for (line, wanted) in SLIPS {
        let words = split_line(alloc, line)?.unwrap_or(Vec::new(alloc));
        match read_line(Pieces::new(0, words.as_slice())) {
            Ok(_) => assert!(rt; false, "{line:?}"),
            Err(slip) => {
                let told = told(alloc, &slip)?;
                assert!(rt; told.as_str() == wanted, "{told}");
            }
        }
    }
    Ok(())
}

/// Whether a line is asked for with this first option of a filesystem, others after it, and by force.
fn is_told(
    alloc: Global,
    words: &[&str],
    foreign: Option<&[u8]>,
    has_more: bool,
    is_forced: bool,
) -> Result<bool, Fail> {
    let words = joined_words(alloc, words)?;
    match read_line(Pieces::new(0, words.as_slice())) {
        Ok(asked) => {
            let first = asked.foreign.as_ref().map(|word| word.bytes());
            Ok(
                first == foreign
                    && asked.has_more_foreign == has_more
                    && asked.is_forced == is_forced,
            )
        }
        Err(_) => Ok(false),
    }
}

#[test]
fn what_has_no_effect_is_told(rt: HostRuntime) -> Result<(), Fail> {
    let alloc = rt.alloc();
    let size = Some(b"size=1m".as_slice());
    let two = ["mount", "-o", "size=1m,ro,mode=700", "t", "/a"];
    assert!(rt; is_told(alloc, &two, size, true, false)?);
    let one = ["mount", "-osize=1m,defaults", "t", "/a"];
    assert!(rt; is_told(alloc, &one, size, false, false)?);
    assert!(rt; is_told(alloc, &["umount", "-f", "/a"], None, false, true)?);
    Ok(())
}

#[test]
fn commands_behind_unshare_are_told(rt: HostRuntime) -> Result<(), Fail> {
    let alloc = rt.alloc();
    for (line, wanted) in [("unshare -m", false), ("unshare -m -- sh -c x", true)] {
        let words = split_line(alloc, line.as_bytes())?.unwrap_or(Vec::new(alloc));
        match read_line(Pieces::new(0, words.as_slice())) {
            Ok(asked) => assert!(rt; asked.has_command == wanted, "{line}"),
            Err(_) => assert!(rt; false, "{line}"),
        }
    }
    Ok(())
}

#[test]
fn quotes_are_closed(rt: HostRuntime) -> Result<(), Fail> {
    let alloc = rt.alloc();
    for line in ["umount '/a", "umount \"/a", "umount /a\\"] {
        assert!(rt; split_line(alloc, line.as_bytes())?.is_none(), "{line}");
    }
    let words = split_line(alloc, b" a\t'b c'\"d \\$ \\e\"f\\ g '' ")?;
    let words = words.unwrap_or(Vec::new(alloc));
    assert!(rt;
        words.as_slice() == b"a\0b cd $ \\ef g\0".as_slice(),
        "{words:?}"
    );
    Ok(())
}
