//! Why a line is none of strace's.

/// Why a line is none of strace's.
#[derive(Clone, Copy, PartialEq, Eq, Debug)]
pub enum Unread {
    /// It has another form.
    NotStrace,
    /// It begins as a call, and its end is missing.
    Cut,
    /// It has more than 65,536 bytes.
    TooLong,
    /// It is one of perf trace, which has no strings.
    PerfTrace,
    /// It is one of the audit system, which has neither sources nor types.
    Audit,
    /// It has a byte 0, which strace never writes.
    Binary,
}

impl Unread {
    /// The same in words, to come after "line 7: ".
    pub fn text(self) -> &'static str {
        match self {
            Unread::NotStrace => "no line of strace",
            Unread::Cut => "cut off: the end of the call is missing",
            Unread::TooLong => "longer than 65,536 bytes",
            Unread::PerfTrace => {
                "a line of perf trace, which has no paths: record with strace -f -y"
            }
            Unread::Audit => {
                "a line of the audit system, which has no sources: record with strace -f -y"
            }
            Unread::Binary => "no text: it has a byte 0",
        }
    }
}
