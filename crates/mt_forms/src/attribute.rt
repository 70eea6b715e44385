//! Attributes of a mount, as mount(2) has a flag for each, and what options say of them.
ghost use Rattle.std.specs.Prelude.{◌≡◌, ◌&&◌, ◌||◌, not};
ghost use Rattle.mt_forms.specs.Attributes.{no_attributes, has_attribute, with_attribute, nothing_said, turned, turned_all, is_timed, laid_over};

/// An attribute of a mount, with its flag of mount(2).
#[derive(Clone, Copy)]
pub enum Attribute {
    /// MS_RDONLY: nothing can be written.
    Ro,
    /// MS_NOSUID: the set-user-ID and set-group-ID bits of programs are ignored.
    Nosuid,
    /// MS_NODEV: device files cannot be opened.
    Nodev,
    /// MS_NOEXEC: programs cannot be run.
    Noexec,
    /// MS_NOSYMFOLLOW: symbolic links are not followed.
    Nosymfollow,
    /// MS_NODIRATIME: the times of access of directories are not updated.
    Nodiratime,
    /// MS_RELATIME: times of access are updated where they are not later than the last change, or a day old.
    Relatime,
    /// MS_NOATIME: times of access are never updated.
    Noatime,
    /// MS_STRICTATIME: times of access are always updated.
    Strictatime,
}

/// Which attributes there are.
#[derive(Clone, Copy)]
pub struct Attributes {
    pub ro: bool,
    pub nosuid: bool,
    pub nodev: bool,
    pub noexec: bool,
    pub nosymfollow: bool,
    pub nodiratime: bool,
    pub relatime: bool,
    pub noatime: bool,
    pub strictatime: bool,
}

impl Attributes {
    /// No attribute.
    pub fn none() -> Attributes
        ensures { result ≡ no_attributes }
    {
        Attributes {
            ro: false,
            nosuid: false,
            nodev: false,
            noexec: false,
            nosymfollow: false,
            nodiratime: false,
            relatime: false,
            noatime: false,
            strictatime: false,
        }
    }

    /// Whether an attribute is among them.
    pub fn has(self, attribute: Attribute) -> bool
        ensures { result ≡ has_attribute attribute self }
    {
        match attribute {
            Attribute::Ro => self.ro,
            Attribute::Nosuid => self.nosuid,
            Attribute::Nodev => self.nodev,
            Attribute::Noexec => self.noexec,
            Attribute::Nosymfollow => self.nosymfollow,
            Attribute::Nodiratime => self.nodiratime,
            Attribute::Relatime => self.relatime,
            Attribute::Noatime => self.noatime,
            Attribute::Strictatime => self.strictatime,
        }
    }

    /// These attributes, with one of them or without it.
    pub fn with(self, attribute: Attribute, on: bool) -> Attributes
        ensures { result ≡ with_attribute attribute on self }
    {
        match attribute {
            Attribute::Ro => Attributes { ro: on, ..self },
            Attribute::Nosuid => Attributes { nosuid: on, ..self },
            Attribute::Nodev => Attributes { nodev: on, ..self },
            Attribute::Noexec => Attributes { noexec: on, ..self },
            Attribute::Nosymfollow => Attributes {
                nosymfollow: on,
                ..self
            },
            Attribute::Nodiratime => Attributes {
                nodiratime: on,
                ..self
            },
            Attribute::Relatime => Attributes {
                relatime: on,
                ..self
            },
            Attribute::Noatime => Attributes {
                noatime: on,
                ..self
            },
            Attribute::Strictatime => Attributes {
                strictatime: on,
                ..self
            },
        }
    }

    /// Whether one of them says when times of access are updated.
    pub fn is_timed(self) -> bool
        ensures { result ≡ is_timed self }
    {
        self.nodiratime || self.relatime || self.noatime || self.strictatime
    }
}

/// Whether an attribute is there, where it was there before or not, and was said not to be or to be.
fn stays(was: bool, clear: bool, set: bool) -> bool
    ensures { result ≡ ((was && not clear) || set) }
{
    (was && !clear) || set
}

/// What is said of attributes, the last of each: which are to be, and which not.
#[derive(Clone, Copy)]
pub struct Said {
    /// Those that are to be.
    pub set: Attributes,
    /// Those that are not to be.
    pub clear: Attributes,
}

impl Said {
    /// Nothing is said.
    pub fn nothing() -> Said
        ensures { result ≡ nothing_said }
    {
        Said {
            set: Attributes::none(),
            clear: Attributes::none(),
        }
    }

    /// What is said after this: an attribute is to be, or not.
    pub fn turned(self, attribute: Attribute, on: bool) -> Said
        ensures { result ≡ turned on self attribute }
    {
        Said {
            set: self.set.with(attribute, on),
            clear: self.clear.with(attribute, !on),
        }
    }

    /// What is said after this: each of these attributes is to be.
    pub(crate) fn turned_all(self, attributes: &[Attribute]) -> Said
        ensures { result ≡ turned_all attributes.now self }
    {
        let mut said = self;
        'attributes: for attribute in attributes {
            said = said.turned(*attribute, true);
        }
        said
    }

    /// The attributes that there are where those of a mount were these.
    pub fn laid_over(self, old: Attributes) -> Attributes
        ensures { result ≡ laid_over old self }
    {
        let Said { set, clear } = self;
        Attributes {
            ro: stays(old.ro, clear.ro, set.ro),
            nosuid: stays(old.nosuid, clear.nosuid, set.nosuid),
            nodev: stays(old.nodev, clear.nodev, set.nodev),
            noexec: stays(old.noexec, clear.noexec, set.noexec),
            nosymfollow: stays(old.nosymfollow, clear.nosymfollow, set.nosymfollow),
            nodiratime: stays(old.nodiratime, clear.nodiratime, set.nodiratime),
            relatime: stays(old.relatime, clear.relatime, set.relatime),
            noatime: stays(old.noatime, clear.noatime, set.noatime),
            strictatime: stays(old.strictatime, clear.strictatime, set.strictatime),
        }
    }
}
