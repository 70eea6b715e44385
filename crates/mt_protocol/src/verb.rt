//! The table of lines: the verbs, and what each stands for.
ghost use Rattle.std.specs.Prelude.{◌≡◌};
ghost use Rattle.std.specs.List.{find};
ghost use Rattle.std.specs.Str.{bytes_eq};
ghost use Rattle.mt_protocol.specs.Verbs.{verb_row, verb_word, verb_arguments, verb_form, is_command, verb_refusals, verb_example, verb_of};

use crate::argument::Argument;
use crate::form::Form;
use crate::line_row::LineRow;
use crate::line_table;
use crate::line_table::Entry;
use mt_skel::fault::Fault;

/// What the first word of a line asks for.
#[derive(Clone, Copy, Debug, PartialEq, Eq)]
pub enum Verb {
    /// `mkfs` makes a filesystem.
    Mkfs,
    /// `mkdir` makes a directory.
    Mkdir,
    /// `newns` makes a namespace.
    Newns,
    /// `copyns` makes a copy of a namespace.
    Copyns,
    /// `dropns` ends a namespace.
    Dropns,
    /// `mount` mounts a filesystem.
    Mount,
    /// `bind` shows a directory at another path too.
    Bind,
    /// `rbind` does the same with all mounts below it.
    Rbind,
    /// `move` moves a mount.
    Move,
    /// `pivot` makes a mount the root mount.
    Pivot,
    /// `umount` takes a mount away.
    Umount,
    /// `detach` takes a mount away, with all mounts below it.
    Detach,
    /// `setattr` changes attributes and propagation.
    Setattr,
    /// `opentree` copies a directory's mounts into a detached tree.
    Opentree,
    /// `newtree` makes a detached tree of a filesystem.
    Newtree,
    /// `movetree` attaches a detached tree at a path.
    Movetree,
    /// `show` lists the mounts of a namespace.
    Show,
    /// `locks` lists what is locked in a namespace.
    Locks,
    /// `find` says where a path ends.
    Find,
    /// `journal` lists accepted commands.
    Journal,
    /// `watch` begins a watcher.
    Watch,
    /// `take` takes posts that wait.
    Take,
    /// `follow` takes posts as they come.
    Follow,
    /// `close` ends the watcher.
    Close,
    /// `quit` ends the session.
    Quit,
    /// `stop` ends the server.
    Stop,
}

/// Every verb, in the order of the help.
pub const VERBS: [Verb; 26] = [
    Verb::Mkfs,
    Verb::Mkdir,
    Verb::Newns,
    Verb::Copyns,
    Verb::Dropns,
    Verb::Mount,
    Verb::Bind,
    Verb::Rbind,
    Verb::Move,
    Verb::Pivot,
    Verb::Umount,
    Verb::Detach,
    Verb::Setattr,
    Verb::Opentree,
    Verb::Newtree,
    Verb::Movetree,
    Verb::Show,
    Verb::Locks,
    Verb::Find,
    Verb::Journal,
    Verb::Watch,
    Verb::Take,
    Verb::Follow,
    Verb::Close,
    Verb::Quit,
    Verb::Stop,
];

/// The verb that a word is, if it is one of these.
fn verb_among(word: &[u8], verbs: &[Verb]) -> Option<Verb>
    ensures { result ≡ find (λ verb. bytes_eq (verb_word verb) word.now) verbs.now }
{
    verbs.iter().copied().find(|verb| verb.word() == word)
}

impl Verb {
    /// Its row, as the table has it.
    pub(crate) fn entry(self) -> &'static Entry
        ensures { verb_row self ≡ record { word = result.now.word.now; arguments = result.now.arguments.now; form = result.now.form; command = result.now.is_command; refusals = result.now.refusals.now; example = result.now.example.now } }
    {
        match self {
            Verb::Mkfs => &line_table::MKFS,
            Verb::Mkdir => &line_table::MKDIR,
            Verb::Newns => &line_table::NEWNS,
            Verb::Copyns => &line_table::COPYNS,
            Verb::Dropns => &line_table::DROPNS,
            Verb::Mount => &line_table::MOUNT,
            Verb::Bind => &line_table::BIND,
            Verb::Rbind => &line_table::RBIND,
            Verb::Move => &line_table::MOVE,
            Verb::Pivot => &line_table::PIVOT,
            Verb::Umount => &line_table::UMOUNT,
            Verb::Detach => &line_table::DETACH,
            Verb::Setattr => &line_table::SETATTR,
            Verb::Opentree => &line_table::OPENTREE,
            Verb::Newtree => &line_table::NEWTREE,
            Verb::Movetree => &line_table::MOVETREE,
            Verb::Show => &line_table::SHOW,
            Verb::Locks => &line_table::LOCKS,
            Verb::Find => &line_table::FIND,
            Verb::Journal => &line_table::JOURNAL,
            Verb::Watch => &line_table::WATCH,
            Verb::Take => &line_table::TAKE,
            Verb::Follow => &line_table::FOLLOW,
            Verb::Close => &line_table::CLOSE,
            Verb::Quit => &line_table::QUIT,
            Verb::Stop => &line_table::STOP,
        }
    }

    /// The table of lines: what each verb stands for.
    pub fn row(self) -> LineRow
        ensures { result ≡ verb_row self }
    {
        let entry = self.entry();
        LineRow {
            word: entry.word,
            arguments: entry.arguments,
            form: entry.form,
            is_command: entry.is_command,
            refusals: entry.refusals,
            usage: entry.usage,
            help: entry.help,
            example: entry.example,
        }
    }

    /// The word that a line with the verb begins with.
    pub fn word(self) -> &'static [u8]
        ensures { result.now ≡ verb_word self }
    {
        self.entry().word
    }

    /// The words after the verb of a line. Those that may be left out are the last.
    pub fn arguments(self) -> &'static [Argument]
        ensures { result.now ≡ verb_arguments self }
    {
        self.entry().arguments
    }

    /// Which lines answer a line with the verb, where it is not refused.
    pub fn form(self) -> Form
        ensures { result ≡ verb_form self }
    {
        self.entry().form
    }

    /// Whether a line with the verb changes tables, for all sessions.
    pub fn is_command(self) -> bool
        ensures { result ≡ is_command self }
    {
        self.entry().is_command
    }

    /// What a line with the verb may be refused as, as [`LineRow`] has it.
    pub fn refusals(self) -> &'static [Fault]
        ensures { result.now ≡ verb_refusals self }
    {
        self.entry().refusals
    }

    /// A line with the verb.
    pub fn example(self) -> &'static str
        ensures { result.now ≡ verb_example self }
    {
        self.entry().example
    }

    /// The verb that a word is, if it is one.
    #[tactic(auto, unfolding(crate::specs::Verbs::verb_of))]
    pub fn of(word: &[u8]) -> Option<Verb>
        ensures { result ≡ verb_of word.now }
    {
        verb_among(word, &VERBS)
    }
}
