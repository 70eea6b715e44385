//! Paths of rows: names that lead down from a root.
ghost use Rattle.std.specs.Prelude.{◌≡◌, [], ◌∷◌, ◌++◌, length, drop, IfOk, IsOkUnless};
ghost use Rattle.std.specs.List.{starts_with};
ghost use Rattle.std.specs.Str.{bytes_eq};
ghost use Rattle.mt_skel.specs.Skeleton.{path_eq};

use crate::text::SeenText;
use mt_skel::fault::Fault;
use mt_skel::names::Names;
use std::alloc::Global;
use std::marker::Model;

/// The names of a path from a root down; the root itself has none.
pub struct Path {
    names: Vec<SeenText>,
}

impl Drop for Path {
    fn drop(self) {
        let Path { names: _names } = self;
    }
}

impl Model for Path {
    ghost use Rattle.std.specs.Prelude.{ℕ, List};

    ghost Value = { List (List ℕ) };

    ghost view = { λ p. p.names.items };
}

/// Whether the first names are the second ones, and maybe others below them.
fn starts_with(names: &[SeenText], first: &[SeenText]) -> bool
    ensures { result ≡ starts_with bytes_eq names.now first.now }
{
    let mut below = names.iter();
    'first: for name in first {
        let Some(other) = below.next() else {
            return false;
        };
        if !name.is_same(other) {
            return false;
        }
    }
    true
}

impl Path {
    /// The path of a root.
    pub fn root(alloc: Global) -> Path
        ensures { result ≡ [] }
    {
        Path {
            names: Vec::new(alloc),
        }
    }

    /// The names, from the root down.
    pub fn names(&self) -> &[SeenText]
        ensures { result.now ≡ self.now }
    {
        self.names.as_slice()
    }

    /// The path with one name more at its end. Refused as `NoMemory` alone.
    pub fn with(self, name: SeenText) -> Result<Path, Fault>
        ensures path { IfOk result (λ path. path ≡ self ++ name ∷ []) }
        ensures memory { IsOkUnless result Fault.NoMemory }
    {
        let Path { mut names } = self;
        names.push(name)?;
        Ok(Path { names })
    }

    /// How many names there are.
    pub fn len(&self) -> usize
        ensures { result ≡ length self.now }
    {
        self.names.len()
    }

    /// Whether it is the path of a root.
    pub fn is_root(&self) -> bool
        ensures { result ≡ path_eq self.now [] }
    {
        self.names.is_empty()
    }

    /// The path with the names of another one at its end, but for so many at the beginning of that. Refused as `NoMemory` alone.
    pub fn with_rest(self, other: &Path, skipped: usize) -> Result<Path, Fault>
        ensures path { IfOk result (λ path. path ≡ self ++ drop skipped other.now) }
        ensures memory { IsOkUnless result Fault.NoMemory }
    {
        let mut path = self;
        let names = other.names();
        if skipped >= names.len() {
            return Ok(path);
        }
        'rest: for name in &names[skipped..] {
            path = path.with(name.copy()?)?;
        }
        Ok(path)
    }

    /// The path of these names. Refused as `NoMemory` alone.
    pub fn of(names: &Names, alloc: Global) -> Result<Path, Fault>
        ensures path { IfOk result (λ path. path ≡ names.now) }
        ensures memory { IsOkUnless result Fault.NoMemory }
    {
        let all = names.to_vec()?;
        let mut path = Path::root(alloc);
        'names: for name in &all {
            path = path.with(SeenText::of(alloc, name.bytes())?)?;
        }
        Ok(path)
    }

    /// Equal names. Refused as `NoMemory` alone.
    pub fn copy(&self) -> Result<Path, Fault>
        ensures copy { IfOk result (λ path. path ≡ self.now) }
        ensures memory { IsOkUnless result Fault.NoMemory }
    {
        let mut names = Vec::new(*self.names.allocator());
        'names: for name in self.names() {
            names.push(name.copy()?)?;
        }
        Ok(Path { names })
    }

    /// Whether a path is the other one, or leads on from where that ends.
    pub fn starts_with(&self, first: &Path) -> bool
        ensures { result ≡ starts_with bytes_eq self.now first.now }
    {
        starts_with(self.names(), first.names())
    }

    /// Whether both have the same names.
    pub fn is_same(&self, other: &Path) -> bool
        ensures { result ≡ path_eq self.now other.now }
    {
        self.len() == other.len() && self.starts_with(other)
    }
}
