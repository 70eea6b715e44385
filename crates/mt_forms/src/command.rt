//! The first words of lines.
ghost use Rattle.std.specs.Prelude.{◌≡◌};
ghost use Rattle.std.specs.Str.{bytes_eq};
ghost use Rattle.mt_forms.specs.Lookup.{looked_up};
ghost use Rattle.mt_forms.specs.Beginnings.{beginning_of};

/// A program whose options are read.
#[derive(Clone, Copy)]
pub enum Tool {
    /// mount(8).
    Mount,
    /// umount(8).
    Umount,
    /// unshare(1).
    Unshare,
    /// nsenter(1).
    Nsenter,
    /// pivot_root(8).
    PivotRoot,
}

impl Tool {
    /// Its name.
    pub fn name(self) -> &'static str {
        match self {
            Tool::Mount => "mount",
            Tool::Umount => "umount",
            Tool::Unshare => "unshare",
            Tool::Nsenter => "nsenter",
            Tool::PivotRoot => "pivot_root",
        }
    }
}

/// What a line with a first word is.
#[derive(Clone, Copy)]
pub enum Beginning {
    /// One of a program.
    Runs(Tool),
    /// `mkdir`, of a shell or of a session.
    Mkdir,
    /// One of a session, which changes something.
    Line,
    /// One of a session, which changes nothing.
    NoChange,
}

/// A first word, and what a line with it is.
#[derive(Clone, Copy)]
pub(crate) struct BeginningRow(pub(crate) &'static [u8], Beginning);

/// All first words. Those of mount(8) and umount(8) begin lines of a session too, which have another form.
pub(crate) const BEGINNINGS: [BeginningRow; 27] = [
    BeginningRow(b"mount", Beginning::Runs(Tool::Mount)),
    BeginningRow(b"umount", Beginning::Runs(Tool::Umount)),
    BeginningRow(b"unshare", Beginning::Runs(Tool::Unshare)),
    BeginningRow(b"nsenter", Beginning::Runs(Tool::Nsenter)),
    BeginningRow(b"pivot_root", Beginning::Runs(Tool::PivotRoot)),
    BeginningRow(b"mkdir", Beginning::Mkdir),
    BeginningRow(b"mkfs", Beginning::Line),
    BeginningRow(b"newns", Beginning::Line),
    BeginningRow(b"copyns", Beginning::Line),
    BeginningRow(b"dropns", Beginning::Line),
    BeginningRow(b"bind", Beginning::Line),
    BeginningRow(b"rbind", Beginning::Line),
    BeginningRow(b"move", Beginning::Line),
    BeginningRow(b"pivot", Beginning::Line),
    BeginningRow(b"detach", Beginning::Line),
    BeginningRow(b"setattr", Beginning::Line),
    BeginningRow(b"opentree", Beginning::Line),
    BeginningRow(b"newtree", Beginning::Line),
    BeginningRow(b"movetree", Beginning::Line),
    BeginningRow(b"show", Beginning::NoChange),
    BeginningRow(b"find", Beginning::NoChange),
    BeginningRow(b"watch", Beginning::NoChange),
    BeginningRow(b"take", Beginning::NoChange),
    BeginningRow(b"follow", Beginning::NoChange),
    BeginningRow(b"close", Beginning::NoChange),
    BeginningRow(b"quit", Beginning::NoChange),
    BeginningRow(b"stop", Beginning::NoChange),
];

/// What a line with this first word is, if it is in one of these rows.
fn beginning_among(word: &[u8], rows: &[BeginningRow]) -> Option<Beginning>
    ensures { result ≡ looked_up (λ row. bytes_eq row.0.now word.now) (λ row. row.1) rows.now }
{
    for row in rows {
        if row.0 == word {
            return Some(row.1);
        }
    }
    None
}

/// What a line with this first word is, if there is any.
#[tactic(auto, unfolding(crate::specs::Beginnings::beginning_of))]
pub(crate) fn beginning_of(word: &[u8]) -> Option<Beginning>
    ensures { result ≡ beginning_of word.now }
{
    beginning_among(word, &BEGINNINGS)
}
