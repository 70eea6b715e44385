//! The arguments of a line, which are the words behind its verb.
ghost use Rattle.std.specs.Prelude.{◌≡◌};
ghost use Rattle.mt_protocol.specs.Verbs.{is_optional};

/// What a word behind the verb of a line is.
#[derive(Clone, Copy, Debug, PartialEq, Eq)]
pub enum Argument {
    /// The number of a namespace.
    Space,
    /// The number of a namespace, or `all`.
    Scope,
    /// How many posts or commands, or the number of a command, from 1 to so many.
    Count(u64),
    /// The name, the type or the source of a filesystem.
    Label,
    /// A path.
    Path,
    /// `less`, which may be left out.
    Less,
    /// `lock`, which may be left out.
    Lock,
    /// `rec`, which may be left out.
    Recursive,
    /// `set=` with the attributes of a new mount, which may be left out.
    Attributes,
    /// An option of `setattr`, which may be left out.
    Setting,
}

impl Argument {
    /// Whether the argument may be left out.
    pub fn is_optional(self) -> bool
        ensures { result ≡ is_optional self }
    {
        match self {
            Argument::Less
            | Argument::Lock
            | Argument::Recursive
            | Argument::Attributes
            | Argument::Setting => true,
            Argument::Space
            | Argument::Scope
            | Argument::Count(_)
            | Argument::Label
            | Argument::Path => false,
        }
    }
}
