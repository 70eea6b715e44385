//! Paths: the names that lead from a root directory down.
ghost use Rattle.std.specs.Prelude.{◌≡◌, [], ◌∷◌, ◌++◌, IfOk, IsTrue, IsOkUnless};
ghost use Rattle.std.specs.List.{list_all};
ghost use Rattle.mt_lines.specs.Words.{pieces};
ghost use Rattle.mt_skel.specs.Names.{is_name, names_text};
ghost use Rattle.mt_skel.specs.Skeleton.{path_eq};

use crate::fault::Fault;
use crate::name::Name;
use mt_lines::words::Pieces;
use std::alloc::{AllocError, Global};
use std::marker::Model;

/// The components of a path from a root directory down; the root itself has none. They lie in one piece of memory, each
/// preceded by a slash, which no name has.
pub struct Names {
    text: Vec<u8>,
}

impl Drop for Names {
    fn drop(self) {
        let Names { text: _text } = self;
    }
}

impl Model for Names {
    ghost use Rattle.std.specs.Prelude.{◌≡◌, ℕ, List, IsTrue};
    ghost use Rattle.std.specs.List.{list_all};
    ghost use Rattle.mt_skel.specs.Names.{is_name, names_in, names_text};

    ghost Value = { List (List ℕ) };

    ghost view = { λ n. names_in n.text.items };

    ghost invariant = { λ n. (n.text.items ≡ names_text (names_in n.text.items)) × IsTrue (list_all is_name (names_in n.text.items)) };
}

impl Names {
    /// The path of a root directory.
    pub fn root(alloc: Global) -> Names
        ensures { result ≡ [] }
    {
        Names {
            text: Vec::new(alloc),
        }
    }

    /// The path whose names are between the slashes of a text.
    #[tactic(auto, using(crate::proofs::NamesLaws::text_between))]
    pub fn between(alloc: Global, text: &[u8]) -> Result<Names, Fault>
        requires names { IsTrue (list_all is_name (pieces 47 text.now)) }
        ensures names { IfOk result (λ names. names ≡ pieces 47 text.now) }
        ensures memory { IsOkUnless result Fault.NoMemory }
    {
        let mut all = Vec::with_capacity(alloc, text.len() + 1)?;
        all.push(b'/')?;
        all.extend_from_slice(text)?;
        Ok(Names { text: all })
    }

    /// The path with one more name at its end.
    pub fn with(self, name: &Name) -> Result<Names, AllocError>
        ensures { IfOk result (λ names. names ≡ self ++ name.now ∷ []) }
    {
        let Names { mut text } = self;
        text.push(b'/')?;
        text.extend_from_slice(name.bytes())?;
        Ok(Names { text })
    }

    /// The names, each preceded by a slash.
    pub fn text(&self) -> &[u8]
        ensures text { result.now ≡ names_text self.now }
        ensures valid { IsTrue (list_all is_name self.now) }
    {
        self.text.as_slice()
    }

    /// Whether two paths have the same names.
    #[tactic(auto, using(crate::proofs::NamesLaws::texts_tell))]
    pub fn is_same(&self, other: &Names) -> bool
        ensures { result ≡ path_eq self.now other.now }
    {
        self.text() == other.text()
    }

    /// Equal names.
    pub fn copy(&self) -> Result<Names, Fault>
        ensures copy { IfOk result (λ names. names ≡ self.now) }
        ensures memory { IsOkUnless result Fault.NoMemory }
    {
        Ok(Names {
            text: self.text.clone()?,
        })
    }

    /// The names, one by one.
    pub fn to_vec(&self) -> Result<Vec<Name>, Fault>
        ensures names { IfOk result (λ names. names.items ≡ self.now) }
        ensures memory { IsOkUnless result Fault.NoMemory }
    {
        let alloc = *self.text.allocator();
        let mut names = Vec::new(alloc);
        let [_slash, text @ ..] = self.text() else {
            return Ok(names);
        };
        let mut pieces = Pieces::new(b'/', text);
        'pieces: while let Some(piece) = pieces.next() {
            names.push(Name::of(alloc, piece)?)?;
        }
        Ok(names)
    }
}
