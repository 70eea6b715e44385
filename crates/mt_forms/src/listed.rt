//! The words of the list of `-o` that are not of a filesystem alone.
ghost use Rattle.std.specs.Prelude.{◌≡◌};
ghost use Rattle.std.specs.Str.{bytes_eq};
ghost use Rattle.mt_forms.specs.Lookup.{looked_up};
ghost use Rattle.mt_forms.specs.ListedWords.{listed_of, is_private_word};

use crate::attribute::Attribute;
use crate::operation::Propagation;
use crate::table::{
    ALL_PRIVATE, ALL_SHARED, ALL_SLAVE, ALL_UNBINDABLE, Change, PRIVATE, SHARED, SLAVE, UNBINDABLE,
};

/// What a word of the list means.
#[derive(Clone, Copy)]
pub(crate) enum Listed {
    /// An attribute is to be, or not.
    Turns(Attribute, bool),
    /// A user may do it: no set-user-ID bits, device files and programs.
    Users,
    /// The owner of the device may do it: no set-user-ID bits and device files.
    Owners,
    /// Bind, rbind or move.
    Changes(Change),
    /// A mount that is there gets other attributes.
    Remounts,
    /// The propagation of the mount.
    Makes(Propagation),
    /// Nothing that a table tells.
    Unseen,
}

/// A word of the list, and what it means.
#[derive(Clone, Copy)]
pub(crate) struct ListedRow(&'static [u8], Listed);

/// All words of the list that are not of a filesystem alone. An empty one is none.
const LISTED: [ListedRow; 43] = [
    ListedRow(b"ro", Listed::Turns(Attribute::Ro, true)),
    ListedRow(b"rw", Listed::Turns(Attribute::Ro, false)),
    ListedRow(b"nosuid", Listed::Turns(Attribute::Nosuid, true)),
    ListedRow(b"suid", Listed::Turns(Attribute::Nosuid, false)),
    ListedRow(b"nodev", Listed::Turns(Attribute::Nodev, true)),
    ListedRow(b"dev", Listed::Turns(Attribute::Nodev, false)),
    ListedRow(b"noexec", Listed::Turns(Attribute::Noexec, true)),
    ListedRow(b"exec", Listed::Turns(Attribute::Noexec, false)),
    ListedRow(b"nosymfollow", Listed::Turns(Attribute::Nosymfollow, true)),
    ListedRow(b"symfollow", Listed::Turns(Attribute::Nosymfollow, false)),
    ListedRow(b"nodiratime", Listed::Turns(Attribute::Nodiratime, true)),
    ListedRow(b"diratime", Listed::Turns(Attribute::Nodiratime, false)),
    ListedRow(b"relatime", Listed::Turns(Attribute::Relatime, true)),
    ListedRow(b"norelatime", Listed::Turns(Attribute::Relatime, false)),
    ListedRow(b"noatime", Listed::Turns(Attribute::Noatime, true)),
    ListedRow(b"atime", Listed::Turns(Attribute::Noatime, false)),
    ListedRow(b"strictatime", Listed::Turns(Attribute::Strictatime, true)),
    ListedRow(
        b"nostrictatime",
        Listed::Turns(Attribute::Strictatime, false),
    ),
    ListedRow(b"user", Listed::Users),
    ListedRow(b"users", Listed::Users),
    ListedRow(b"owner", Listed::Owners),
    ListedRow(b"group", Listed::Owners),
    ListedRow(b"bind", Listed::Changes(Change::Bind)),
    ListedRow(b"rbind", Listed::Changes(Change::Rbind)),
    ListedRow(b"move", Listed::Changes(Change::Move)),
    ListedRow(b"remount", Listed::Remounts),
    ListedRow(b"shared", Listed::Makes(SHARED)),
    ListedRow(b"slave", Listed::Makes(SLAVE)),
    ListedRow(b"private", Listed::Makes(PRIVATE)),
    ListedRow(b"unbindable", Listed::Makes(UNBINDABLE)),
    ListedRow(b"rshared", Listed::Makes(ALL_SHARED)),
    ListedRow(b"rslave", Listed::Makes(ALL_SLAVE)),
    ListedRow(b"rprivate", Listed::Makes(ALL_PRIVATE)),
    ListedRow(b"runbindable", Listed::Makes(ALL_UNBINDABLE)),
    ListedRow(b"defaults", Listed::Unseen),
    ListedRow(b"auto", Listed::Unseen),
    ListedRow(b"noauto", Listed::Unseen),
    ListedRow(b"nouser", Listed::Unseen),
    ListedRow(b"_netdev", Listed::Unseen),
    ListedRow(b"nofail", Listed::Unseen),
    ListedRow(b"async", Listed::Unseen),
    ListedRow(b"loop", Listed::Unseen),
    ListedRow(b"", Listed::Unseen),
];

/// What a word of the list means, if it is in one of these rows.
fn listed_among(word: &[u8], rows: &[ListedRow]) -> Option<Listed>
    ensures { result ≡ looked_up (λ row. bytes_eq row.0.now word.now) (λ row. row.1) rows.now }
{
    for row in rows {
        if row.0 == word {
            return Some(row.1);
        }
    }
    None
}

/// Whether a word is a comment, which programs keep for themselves.
fn is_private_word(word: &[u8]) -> bool
    ensures { result ≡ is_private_word word.now }
{
    word.starts_with(b"x-") || word.starts_with(b"X-") || word.starts_with(b"comment=")
}

/// What a word of the list means. None where it is an option of a filesystem.
#[tactic(auto, unfolding(crate::specs::ListedWords::listed_of))]
pub(crate) fn listed_of(word: &[u8]) -> Option<Listed>
    ensures { result ≡ listed_of word.now }
{
    if is_private_word(word) {
        return Some(Listed::Unseen);
    }
    listed_among(word, &LISTED)
}
