//! The words of the client's own tasks, and how they are written.

use mt_help::page::Usage;

/// What may stand in the place of a line.
pub(crate) const IN_PLACE_OF_LINES: [Usage; 14] = [
    Usage {
        words: "-",
        says: "sends the lines of standard input, one after another, but for comments",
    },
    Usage {
        words: "monitor NS|all [--json] [--time] [--name NS=NAME]..",
        says: "tells each change as it comes, in words or as JSON, and when it came",
    },
    Usage {
        words: "mirror NS K",
        says: "follows K posts of a namespace, and shows the table that they lead to",
    },
    Usage {
        words: "tree [NS [PATH]|all] [--ascii|--json] [--name NS=NAME]..",
        says: "draws the mounts of a namespace, of a part of it, or of all, each below its parent",
    },
    Usage {
        words: "show NS --json",
        says: "prints the mounts of a namespace as JSON",
    },
    Usage {
        words: "find NS PATH --json",
        says: "prints the mount on which a path ends as JSON",
    },
    Usage {
        words: "dot [NS [PATH]|all] [--name NS=NAME]..",
        says: "draws the mounts of a namespace, of a part of it, or of all, and peer groups as a graph for Graphviz",
    },
    Usage {
        words: "spaces [--json] [--name NS=NAME]..",
        says: "lists the namespaces, each with its name and the number of its mounts",
    },
    Usage {
        words: "what-if FILE.. -- LINE..",
        says: "makes the namespaces of an import in a new server, and tells what a line changes there;\nfurther lines may stand in front of it, each behind --, and --room N in front of the files, as of import",
    },
    Usage {
        words: "reach NS PATH [--json]",
        says: "says to which mounts a mount made there comes, by which group, and why not to others",
    },
    Usage {
        words: "origin NS PATH [--json]",
        says: "says where the mount there comes from, and what takes it away",
    },
    Usage {
        words: "holders SOURCE|MAJ:MIN|NS PATH [--json]",
        says: "names the mounts that still show a filesystem, or the directory there",
    },
    Usage {
        words: "save",
        says: "prints the session that makes what is there: the commands that were accepted, as lines for a new server",
    },
    Usage {
        words: "page [--journal|--room N] [TITLE]",
        says: "plays the lines of standard input, and prints what they do as a page for a browser;\nwithout SOCKET, also where MOUNTD_SOCKET is set, in a new server of its own;\nwith --journal plays what the server has accepted since its start, and sends it nothing",
    },
];

/// What may stand in the place of a socket and a line.
pub(crate) const IN_PLACE_OF_SOCKETS: [Usage; 13] = [
    Usage {
        words: "what-if [OPTION].. TABLE.. -- LINE [-- LINE]..",
        says: "tells what lines would change in the namespaces of tables, with no server: each TABLE is a file, or\nwith --pid a process; --all stands for each mount namespace of this machine. A LINE is one of\nmount, umount, unshare, nsenter, pivot_root or of a session; - stands for those of standard input.\n--each tells what each line changes, --json prints objects, and --page a page for a browser that plays\nthe lines; with --fail-if-elsewhere the status is 4 where a namespace changes that no line names; --room N\nholds the namespaces to N times the limits of a server, and else to 256 times those",
    },
    Usage {
        words: "trace [OPTION].. TABLE.. -- LOG",
        says: "tells what each call that strace has written to the file LOG did in the namespaces of tables, as in\nwhat-if; - stands for standard input. --script prints lines of a session, --page a page for a browser\nthat plays them, --json objects, --leaks only calls that changed another namespace, --tables the\ntables at the end; --ns 2=mnt:[N] says what the system calls a table's namespace, --links FILE what\nlinks lead to; --calls alone prints the calls that strace has to record",
    },
    Usage {
        words: "import [--room N]",
        says: "reads the lines of a mountinfo, and prints a script that makes its namespace; --room N leaves out what\na server of that room has no room for; else the script says which room it takes, if more than 1",
    },
    Usage {
        words: "import [--room N] FILE..",
        says: "reads those of several processes, and prints a script that makes all their namespaces",
    },
    Usage {
        words: "import [--room N] --pid PID..",
        says: "reads those of these processes",
    },
    Usage {
        words: "import [--room N] --all",
        says: "makes each mount namespace of this machine once; comments say of which process each table is",
    },
    Usage {
        words: "reach TABLE.. -- NS PATH [--json]",
        says: "the same of tables: files with the lines of a mountinfo, --pid PID.., or --all for each\nmount namespace of this machine; NS is a file's name, a process or the number of a table",
    },
    Usage {
        words: "origin TABLE.. -- NS PATH [--json]",
        says: "where the mount there comes from",
    },
    Usage {
        words: "holders TABLE.. -- SOURCE|MAJ:MIN|NS PATH [--json]",
        says: "what still shows it",
    },
    Usage {
        words: "session [--room N]",
        says: "answers the lines of standard input in a new server of its own; it also knows help [WORD] and\ntree [NS [PATH]|all], says why a line is refused, and has a prompt at a terminal",
    },
    Usage {
        words: "play FILE|-",
        says: "plays a transcript, line by line, in such a server, and says how many lines are answered as it tells",
    },
    Usage {
        words: "explain REFUSAL|ERRNO",
        says: "says what the refusal of this name is, and what Linux says in its place;\nof an error of Linux, by its name or number, which refusals stand behind it",
    },
    Usage {
        words: "help [WORD]",
        says: "lists the words; of one it says how it is written, what it does and what it may be refused as, with an\nexample, as --help behind the word does",
    },
];

/// The word that a usage begins with.
pub(crate) fn word_of(usage: Usage) -> &'static str {
    match usage.words.split_once(' ') {
        Some((word, _)) => word,
        None => usage.words,
    }
}

/// Whether one of these usages begins with a word.
pub(crate) fn has_usage(usages: &[Usage], word: &str) -> bool {
    usages.iter().any(|usage| word_of(*usage) == word)
}
