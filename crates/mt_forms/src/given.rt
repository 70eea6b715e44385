//! What the words after a program give.
ghost use Rattle.std.specs.Prelude.{◌≡◌};
ghost use Rattle.mt_forms.specs.Given.{nothing_given, is_same_change, one_more_place, slipped, with_said, with_one_change, with_propagation, with_foreign, with_listed, with_list, with_spread, with_option, with_value, runs_command, with_plain};

use crate::attribute::{Attribute, Said};
use crate::command::Tool;
use crate::listed::{Listed, listed_of};
use crate::operation::{Propagation, PropagationKind, Reach};
use crate::slip::Slip;
use crate::table::{Change, Means};
use crate::word::Word;
use mt_lines::words::Pieces;

/// The words that are no options, the first ones.
#[derive(Drop)]
pub(crate) enum Places<'a> {
    None,
    One(Word<'a>),
    Two(Word<'a>, Word<'a>),
    /// More than two.
    Many,
}

impl<'a> Places<'a> {
    /// These words, and one after them.
    pub(crate) fn with(self, word: Word<'a>) -> Places<'a>
        ensures { result ≡ one_more_place self.entry word.entry }
    {
        match self {
            Places::None => Places::One(word),
            Places::One(first) => Places::Two(first, word),
            Places::Two(_first, _second) => Places::Many,
            Places::Many => Places::Many,
        }
    }

    /// The same words.
    pub(crate) fn again(&self) -> Places<'a>
        ensures { result ≡ self.entry.now }
    {
        match self {
            Places::None => Places::None,
            Places::One(first) => Places::One(Word::new(first.bytes())),
            Places::Two(first, second) => Places::Two(
                Word::new(first.bytes()),
                Word::new(second.bytes()),
            ),
            Places::Many => Places::Many,
        }
    }
}

/// What the words after a program give, as far as they are read.
#[derive(Drop)]
pub(crate) struct Given<'a> {
    /// What the option means whose value is the next word.
    pub(crate) waiting: Option<Means>,
    /// Whether `--` has come, after which no word is an option.
    pub(crate) has_ended: bool,
    /// Bind, rbind or move.
    pub(crate) change: Option<Change>,
    /// Whether a mount that is there gets other attributes.
    pub(crate) remounts: bool,
    /// The propagation.
    pub(crate) propagation: Option<Propagation>,
    /// Whether the propagation of a new namespace's mounts stays as it is.
    pub(crate) is_unchanged: bool,
    /// What is said of attributes.
    pub(crate) said: Said,
    /// Whether there was a list of options, or one in its place.
    pub(crate) has_list: bool,
    /// The type of the filesystem.
    pub(crate) kind: Option<Word<'a>>,
    /// The namespace.
    pub(crate) space: Option<Word<'a>>,
    /// The source that an option names.
    pub(crate) source: Option<Word<'a>>,
    /// The target that an option names.
    pub(crate) target: Option<Word<'a>>,
    /// The words that are no options.
    pub(crate) places: Places<'a>,
    /// Whether one of them is a command, with words of its own after it.
    pub(crate) has_command: bool,
    /// Whether mount namespaces are meant.
    pub(crate) has_mounts: bool,
    /// Whether busy mounts are unmounted too.
    pub(crate) is_lazy: bool,
    /// Which mounts are unmounted.
    pub(crate) reach: Reach,
    /// Whether an unmount is forced.
    pub(crate) is_forced: bool,
    /// Whether a user namespace is made.
    pub(crate) is_less: bool,
    /// The first option of a filesystem.
    pub(crate) foreign: Option<Word<'a>>,
    /// Whether there are more.
    pub(crate) has_more_foreign: bool,
    /// What is wrong, the first thing.
    pub(crate) slip: Option<Slip<'a>>,
}

/// What is given where nothing is read.
pub(crate) fn nothing_given<'a>() -> Given<'a>
    ensures { result ≡ nothing_given }
{
    Given {
        waiting: None,
        has_ended: false,
        change: None,
        remounts: false,
        propagation: None,
        is_unchanged: false,
        said: Said::nothing(),
        has_list: false,
        kind: None,
        space: None,
        source: None,
        target: None,
        places: Places::None,
        has_command: false,
        has_mounts: false,
        is_lazy: false,
        reach: Reach::One,
        is_forced: false,
        is_less: false,
        foreign: None,
        has_more_foreign: false,
        slip: None,
    }
}

/// Whether two changes are the same.
fn is_same_change(one: Change, other: Change) -> bool
    ensures { result ≡ is_same_change one other }
{
    match (one, other) {
        (Change::Bind, Change::Bind) => true,
        (Change::Rbind, Change::Rbind) => true,
        (Change::Move, Change::Move) => true,
        _ => false,
    }
}

/// Whether the first word of a program that is no option is a command.
fn runs_command(tool: Tool) -> bool
    ensures { result ≡ runs_command tool }
{
    match tool {
        Tool::Unshare | Tool::Nsenter => true,
        Tool::Mount | Tool::Umount | Tool::PivotRoot => false,
    }
}

impl<'a> Given<'a> {
    /// The same, where something is wrong.
    pub(crate) fn slipped(mut self, slip: Slip<'a>) -> Given<'a>
        ensures { result ≡ slipped slip.entry self.entry }
    {
        if self.slip.is_some() {
            return self;
        }
        self.slip = Some(slip);
        self
    }

    /// The same, where more is said of attributes.
    fn with_said(mut self, said: Said) -> Given<'a>
        ensures { result ≡ with_said said self.entry }
    {
        self.said = said;
        self.has_list = true;
        self
    }

    /// The same, with one change, which is no second one.
    fn with_one_change(mut self, change: Change) -> Given<'a>
        ensures { result ≡ with_one_change change self.entry }
    {
        match self.change {
            None => {
                self.change = Some(change);
                self
            }
            Some(first) => {
                if is_same_change(first, change) {
                    self
                } else {
                    self.slipped(Slip::TwoChanges)
                }
            }
        }
    }

    /// The same, with one propagation, which is no second one.
    fn with_propagation(mut self, propagation: Propagation) -> Given<'a>
        ensures { result ≡ with_propagation propagation self.entry }
    {
        match self.propagation {
            None => {
                self.propagation = Some(propagation);
                self
            }
            Some(_) => self.slipped(Slip::TwoPropagations),
        }
    }

    /// The same, with an option of a filesystem.
    fn with_foreign(mut self, word: &'a [u8]) -> Given<'a>
        ensures { result ≡ with_foreign word.entry.now self.entry }
    {
        if self.foreign.is_some() {
            self.has_more_foreign = true;
            return self;
        }
        self.foreign = Some(Word::new(word));
        self
    }

    /// The same, with a word of the list of `-o`.
    fn with_listed(mut self, word: &'a [u8]) -> Given<'a>
        ensures { result ≡ with_listed self.entry word.entry.now }
    {
        let Some(listed) = listed_of(word) else {
            return self.with_foreign(word);
        };
        match listed {
            Listed::Turns(attribute, on) => {
                let said = self.said.turned(attribute, on);
                self.with_said(said)
            }
            Listed::Users => {
                let said = self
                    .said
                    .turned_all(&[Attribute::Nosuid, Attribute::Nodev, Attribute::Noexec]);
                self.with_said(said)
            }
            Listed::Owners => {
                let said = self.said.turned_all(&[Attribute::Nosuid, Attribute::Nodev]);
                self.with_said(said)
            }
            Listed::Changes(change) => self.with_one_change(change),
            Listed::Remounts => {
                self.remounts = true;
                self
            }
            Listed::Makes(propagation) => self.with_propagation(propagation),
            Listed::Unseen => self,
        }
    }

    /// The same, with a list of options.
    #[tactic(auto, unfolding(crate::specs::Given::with_list))]
    pub(crate) fn with_list(self, list: &'a [u8]) -> Given<'a>
        ensures { result ≡ with_list list.entry.now self.entry }
    {
        let mut given = self;
        given.has_list = true;
        let mut words = Pieces::new(b',', list);
        'words: while let Some(word) = words.next() {
            given = given.with_listed(word);
        }
        given
    }

    /// The same, with what the mounts of a new namespace are made.
    fn with_spread(mut self, word: &'a [u8]) -> Given<'a>
        ensures { result ≡ with_spread word.entry.now self.entry }
    {
        let kind = if word == b"shared".as_slice() {
            PropagationKind::Shared
        } else if word == b"private".as_slice() {
            PropagationKind::Private
        } else if word == b"slave".as_slice() {
            PropagationKind::Slave
        } else if word == b"unchanged".as_slice() {
            self.is_unchanged = true;
            return self;
        } else {
            return self.slipped(Slip::NoKind {
                word: Word::new(word),
            });
        };
        self.propagation = Some(Propagation {
            kind,
            recursive: true,
        });
        self
    }

    /// The same, with an option that has no value.
    pub(crate) fn with_option(mut self, tool: Tool, means: Means) -> Given<'a>
        ensures { result ≡ with_option tool means self.entry }
    {
        match means {
            Means::Changes(change) => self.with_one_change(change),
            Means::Makes(propagation) => self.with_propagation(propagation),
            Means::Turns(attribute, on) => {
                let said = self.said.turned(attribute, on);
                self.with_said(said)
            }
            Means::Mounts => {
                self.has_mounts = true;
                self
            }
            Means::Lazy => {
                self.is_lazy = true;
                self
            }
            Means::Reaches(reach) => {
                self.reach = reach;
                self
            }
            Means::Forced => {
                self.is_forced = true;
                self
            }
            Means::Less => {
                self.is_less = true;
                self
            }
            Means::Fstab => self.slipped(Slip::Fstab { tool }),
            Means::Options
            | Means::FilesystemType
            | Means::Source
            | Means::Target
            | Means::Space
            | Means::Spread
            | Means::Unseen => self,
        }
    }

    /// The same, with an option and its value.
    pub(crate) fn with_value(mut self, tool: Tool, means: Means, value: &'a [u8]) -> Given<'a>
        ensures { result ≡ with_value tool means value.entry.now self.entry }
    {
        match means {
            Means::Options => self.with_list(value),
            Means::FilesystemType => {
                self.kind = Some(Word::new(value));
                self
            }
            Means::Source => {
                self.source = Some(Word::new(value));
                self
            }
            Means::Target => {
                self.target = Some(Word::new(value));
                self
            }
            Means::Space => {
                self.space = Some(Word::new(value));
                self
            }
            Means::Mounts => {
                self.has_mounts = true;
                self.space = Some(Word::new(value));
                self
            }
            Means::Spread => self.with_spread(value),
            Means::Changes(_)
            | Means::Makes(_)
            | Means::Turns(_, _)
            | Means::Lazy
            | Means::Reaches(_)
            | Means::Forced
            | Means::Less
            | Means::Fstab
            | Means::Unseen => self.with_option(tool, means),
        }
    }

    /// The same, with a word that is no option.
    pub(crate) fn with_plain(self, tool: Tool, word: &'a [u8]) -> Given<'a>
        ensures { result ≡ with_plain tool word.entry.now self.entry }
    {
        let places = self.places.with(Word::new(word));
        Given {
            places,
            has_command: runs_command(tool),
            ..self
        }
    }
}
