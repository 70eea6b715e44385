//! What a line does to the attributes of a mount, and how `setattr` says it.
ghost use Rattle.std.specs.Prelude.{◌≡◌, ◌++◌, IfOk, OnOk};
ghost use Rattle.std.specs.List.{flat_map};
ghost use Rattle.mt_forms.specs.Settings.{attribute_word, is_passed, are_none, no_setting, without_others, timed_by, set_exactly, for_bind, for_new, for_remount, is_empty_setting, listed_word, attribute_words, option_text, cleared_words, set_option, setting_text};

use crate::attribute::{Attribute, Attributes, Said};
use std::alloc::{AllocError, Global};

/// What a `setattr` line changes.
#[derive(Clone, Copy)]
pub struct Setting {
    /// What `set=` has.
    pub set: Attributes,
    /// What `clr=` has, without `atime`.
    pub clear: Attributes,
    /// Whether `clr=` has `atime`.
    pub clears_atime: bool,
}

/// The attributes of which a line of mount(8) has a flag each, in the order in which they are told.
const ALL: [Attribute; 9] = [
    Attribute::Ro,
    Attribute::Nosuid,
    Attribute::Nodev,
    Attribute::Noexec,
    Attribute::Nosymfollow,
    Attribute::Nodiratime,
    Attribute::Relatime,
    Attribute::Noatime,
    Attribute::Strictatime,
];

/// The word of an attribute in a `setattr` line.
fn attribute_word(attribute: Attribute) -> &'static [u8]
    ensures { result.now ≡ attribute_word attribute }
{
    match attribute {
        Attribute::Ro => b"ro",
        Attribute::Nosuid => b"nosuid",
        Attribute::Nodev => b"nodev",
        Attribute::Noexec => b"noexec",
        Attribute::Nosymfollow => b"nosymfollow",
        Attribute::Nodiratime => b"nodiratime",
        Attribute::Relatime => b"relatime",
        Attribute::Noatime => b"noatime",
        Attribute::Strictatime => b"strictatime",
    }
}

/// Whether mount(8) sets attributes of a bind at all: not where none is asked for, and not for strict access times alone.
fn is_passed(attributes: Attributes) -> bool
    ensures { result ≡ is_passed attributes }
{
    attributes.ro
        || attributes.nosuid
        || attributes.nodev
        || attributes.noexec
        || attributes.nosymfollow
        || attributes.nodiratime
        || attributes.relatime
        || attributes.noatime
}

/// Whether there is no attribute.
fn are_none(attributes: Attributes) -> bool
    ensures { result ≡ are_none attributes }
{
    !is_passed(attributes) && !attributes.strictatime
}

/// Nothing is changed.
fn no_setting() -> Setting
    ensures { result ≡ no_setting }
{
    Setting {
        set: Attributes::none(),
        clear: Attributes::none(),
        clears_atime: false,
    }
}

/// These attributes with the one access time that counts among them: the strict one, else none at all, else the relative.
fn timed_by(attributes: Attributes) -> Attributes
    ensures { result ≡ timed_by attributes }
{
    if attributes.strictatime {
        return Attributes {
            relatime: false,
            noatime: false,
            ..attributes
        };
    }
    if attributes.noatime {
        return Attributes {
            relatime: false,
            ..attributes
        };
    }
    Attributes {
        relatime: true,
        ..attributes
    }
}

/// The attributes that are cleared where exactly these are set.
fn others_of(attributes: Attributes, timed: bool) -> Attributes
    ensures { result ≡ without_others attributes timed }
{
    Attributes {
        ro: !attributes.ro,
        nosuid: !attributes.nosuid,
        nodev: !attributes.nodev,
        noexec: !attributes.noexec,
        nosymfollow: !attributes.nosymfollow,
        nodiratime: timed && !attributes.nodiratime,
        ..Attributes::none()
    }
}

/// Exactly these attributes are set, as mount(2) with MS_REMOUNT and MS_BIND does. Access times stay as they are, where
/// none of them says anything of these.
fn set_exactly(attributes: Attributes) -> Setting
    ensures { result ≡ set_exactly attributes }
{
    if !attributes.is_timed() {
        return Setting {
            set: attributes,
            clear: others_of(attributes, false),
            clears_atime: false,
        };
    }
    Setting {
        set: timed_by(attributes),
        clear: others_of(attributes, true),
        clears_atime: true,
    }
}

/// What is done to the new mount of a bind, of which this is said: mount(8) remounts it with these attributes alone.
pub(crate) fn for_bind(said: Said) -> Setting
    ensures { result ≡ for_bind said }
{
    if is_passed(said.set) {
        set_exactly(said.set)
    } else {
        no_setting()
    }
}

/// What is done to a mount with attributes of which this is said: mount(8) remounts it with those that it has and these.
pub(crate) fn for_remount(said: Said, old: Attributes) -> Setting
    ensures { result ≡ for_remount said old }
{
    set_exactly(said.laid_over(old))
}

/// The attributes that are set of a new mount, which is `rw,relatime` otherwise, of which this is said.
pub(crate) fn for_new(said: Said) -> Attributes
    ensures { result ≡ for_new said }
{
    Attributes {
        relatime: false,
        ..timed_by(said.set)
    }
}

impl Setting {
    /// Whether nothing is changed.
    pub(crate) fn is_empty(self) -> bool
        ensures { result ≡ is_empty_setting self }
    {
        are_none(self.set) && are_none(self.clear) && !self.clears_atime
    }
}

/// Appends the word of an attribute after a comma, if it is among these.
fn push_listed(
    text: &mut Vec<u8>,
    attributes: Attributes,
    attribute: Attribute,
) -> Result<(), AllocError>
    ensures { OnOk result (text.new.items ≡ text.old.items ++ listed_word attributes attribute) }
{
    if !attributes.has(attribute) {
        return Ok(());
    }
    text.push(b',')?;
    text.extend_from_slice(attribute_word(attribute))?;
    Ok(())
}

/// Appends the words of attributes, those that are in a list of them, each after a comma.
fn push_listed_of(
    text: &mut Vec<u8>,
    attributes: Attributes,
    list: &[Attribute],
) -> Result<(), AllocError>
    ensures { OnOk result (text.new.items ≡ text.old.items ++ flat_map (listed_word attributes) list.now) }
{
    for attribute in list {
        push_listed(text, attributes, *attribute)?;
    }
    Ok(())
}

/// Appends an option of a `setattr` line, if its list has a word. The list has a comma before each.
fn push_option(text: &mut Vec<u8>, key: &[u8], list: &[u8]) -> Result<(), AllocError>
    ensures { OnOk result (text.new.items ≡ text.old.items ++ option_text key.now list.now) }
{
    let Some((_comma, words)) = list.split_first() else {
        return Ok(());
    };
    text.extend_from_slice(key)?;
    text.extend_from_slice(words)?;
    Ok(())
}

/// The words of attributes, each after a comma.
#[tactic(auto, unfolding(crate::specs::Settings::attribute_words))]
fn attribute_words(alloc: Global, attributes: Attributes) -> Result<Vec<u8>, AllocError>
    ensures { IfOk result (λ words. words.items ≡ attribute_words attributes) }
{
    let mut words = Vec::new(alloc);
    push_listed_of(&mut words, attributes, &ALL)?;
    Ok(words)
}

/// The words of `clr=`, each after a comma.
fn cleared_words(alloc: Global, setting: Setting) -> Result<Vec<u8>, AllocError>
    ensures { IfOk result (λ words. words.items ≡ cleared_words setting) }
{
    let mut words = attribute_words(alloc, setting.clear)?;
    if setting.clears_atime {
        words.extend_from_slice(b",atime")?;
    }
    Ok(words)
}

/// Appends the word that sets attributes, if there is one.
pub(crate) fn push_set(
    text: &mut Vec<u8>,
    alloc: Global,
    attributes: Attributes,
) -> Result<(), AllocError>
    ensures { OnOk result (text.new.items ≡ text.old.items ++ set_option attributes) }
{
    let set = attribute_words(alloc, attributes)?;
    push_option(text, b" set=", set.as_slice())?;
    Ok(())
}

/// Appends the options of a `setattr` line that changes attributes.
pub(crate) fn push_setting(
    text: &mut Vec<u8>,
    alloc: Global,
    setting: Setting,
) -> Result<(), AllocError>
    ensures { OnOk result (text.new.items ≡ text.old.items ++ setting_text setting) }
{
    let set = attribute_words(alloc, setting.set)?;
    let clear = cleared_words(alloc, setting)?;
    push_option(text, b" set=", set.as_slice())?;
    push_option(text, b" clr=", clear.as_slice())?;
    Ok(())
}
