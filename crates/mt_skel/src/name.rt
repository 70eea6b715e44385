//! Labels and names: the texts that clients choose.
ghost use Rattle.std.specs.Prelude.{◌≡◌, ◌↔◌, ◌==◌, not, IsTrue, IsOk, IfOk, IfErr, IsOkUnless};
ghost use Rattle.std.specs.List.{list_all};
ghost use Rattle.mt_skel.specs.Names.{is_label, is_name};

use crate::fault::Fault;
use crate::inline::Bytes;
use std::alloc::{AllocError, Global};
use std::hash::{Hash, Hasher};
use std::marker::Model;

/// A label of a filesystem, a type or a source: 1 to 255 bytes, none of them zero. At most 24 bytes
/// lie in the value itself, and then a copy takes no memory.
pub struct Label {
    bytes: Bytes,
}

impl Drop for Label {
    fn drop(self) {
        let Label { bytes: _bytes } = self;
    }
}

impl Model for Label {
    ghost use Rattle.std.specs.Prelude.{ℕ, List, IsTrue};
    ghost use Rattle.mt_skel.specs.Names.{is_label};

    ghost Value = { List ℕ };

    ghost use Rattle.mt_skel.specs.Kept.{bytes_of};

    ghost view = { λ l. bytes_of l.bytes };

    ghost invariant = { λ l. IsTrue (is_label (bytes_of l.bytes)) };
}

/// Whether no byte is this one.
fn is_without(bytes: &[u8], byte: u8) -> bool
    ensures { result ≡ list_all (λ b. not (b == byte)) bytes.now }
{
    bytes.iter().all(|here| *here != byte)
}

/// Whether these are the bytes of a [`Label`].
fn is_label(bytes: &[u8]) -> bool
    ensures { result ≡ is_label bytes.now }
{
    !bytes.is_empty() && bytes.len() <= 255 && is_without(bytes, 0)
}

/// Whether these are the bytes of a [`Name`].
fn is_name(bytes: &[u8]) -> bool
    ensures { result ≡ is_name bytes.now }
{
    is_label(bytes)
        && is_without(bytes, b'/')
        && bytes != b".".as_slice()
        && bytes != b"..".as_slice()
}

impl Label {
    /// The label of these bytes, or the bytes themselves if they are no label.
    pub fn new(bytes: Vec<u8>) -> Result<Label, Vec<u8>>
        ensures valid { IsOk result ↔ IsTrue (is_label bytes.items) }
        ensures label { IfOk result (λ label. label ≡ bytes.items) }
        ensures back { IfErr result (λ same. same ≡ bytes) }
    {
        if is_label(bytes.as_slice()) {
            Ok(Label {
                bytes: Bytes::new(bytes),
            })
        } else {
            Err(bytes)
        }
    }

    /// The label of these bytes, which are one.
    pub fn of(alloc: Global, bytes: &[u8]) -> Result<Label, Fault>
        requires { IsTrue (is_label bytes.now) }
        ensures label { IfOk result (λ label. label ≡ bytes.now) }
        ensures memory { IsOkUnless result Fault.NoMemory }
    {
        Ok(Label {
            bytes: Bytes::copied(alloc, bytes)?,
        })
    }

    /// The bytes, which are never zero.
    pub fn bytes(&self) -> &[u8]
        ensures bytes { result.now ≡ self.now }
        ensures valid { IsTrue (is_label self.now) }
    {
        self.bytes.as_slice()
    }

    /// An equal label.
    pub fn copy(&self) -> Result<Label, Fault>
        ensures copy { IfOk result (λ label. label ≡ self.now) }
        ensures memory { IsOkUnless result Fault.NoMemory }
    {
        let label = self.clone()?;
        Ok(label)
    }
}

impl Clone for Label {
    ghost use Rattle.std.specs.Prelude.{◌≡◌};

    ghost is_clone = { λ label copy. copy ≡ label };

    fn clone(&self) -> Result<Label, AllocError> {
        Ok(Label {
            bytes: self.bytes.clone()?,
        })
    }
}

/// A component of a path: a [`Label`] without `/` that is neither `.` nor `..`.
pub struct Name {
    label: Label,
}

impl Drop for Name {
    fn drop(self) {
        let Name { label: _label } = self;
    }
}

impl Model for Name {
    ghost use Rattle.std.specs.Prelude.{ℕ, List, IsTrue};
    ghost use Rattle.mt_skel.specs.Names.{is_name};

    ghost Value = { List ℕ };

    ghost view = { λ n. n.label };

    ghost invariant = { λ n. IsTrue (is_name n.label) };
}

impl Name {
    /// The name of these bytes, or the bytes themselves if they are no name.
    pub fn new(bytes: Vec<u8>) -> Result<Name, Vec<u8>>
        ensures valid { IsOk result ↔ IsTrue (is_name bytes.items) }
        ensures name { IfOk result (λ name. name ≡ bytes.items) }
        ensures back { IfErr result (λ same. same ≡ bytes) }
    {
        if is_name(bytes.as_slice()) {
            Ok(Name {
                label: Label {
                    bytes: Bytes::new(bytes),
                },
            })
        } else {
            Err(bytes)
        }
    }

    /// The name of these bytes, which are one.
    pub(crate) fn of(alloc: Global, bytes: &[u8]) -> Result<Name, Fault>
        requires { IsTrue (is_name bytes.now) }
        ensures name { IfOk result (λ name. name ≡ bytes.now) }
        ensures memory { IsOkUnless result Fault.NoMemory }
    {
        Ok(Name {
            label: Label::of(alloc, bytes)?,
        })
    }

    /// The bytes, among which are neither zero nor `/`.
    pub fn bytes(&self) -> &[u8]
        ensures bytes { result.now ≡ self.now }
        ensures valid { IsTrue (is_name self.now) }
    {
        self.label.bytes()
    }

    /// An equal name.
    pub fn copy(&self) -> Result<Name, Fault>
        ensures copy { IfOk result (λ name. name ≡ self.now) }
        ensures memory { IsOkUnless result Fault.NoMemory }
    {
        let name = self.clone()?;
        Ok(name)
    }
}

impl Clone for Name {
    ghost use Rattle.std.specs.Prelude.{◌≡◌};

    ghost is_clone = { λ name copy. copy ≡ name };

    fn clone(&self) -> Result<Name, AllocError> {
        Ok(Name {
            label: self.label.clone()?,
        })
    }
}

impl PartialEq for Name {
    ghost use Rattle.std.specs.Prelude.{nat_eq};
    ghost use Rattle.std.specs.Cmp as Cmp;
    ghost use Rattle.std.specs.Cmp.Lexicographic.{pointwise, nat_list_eq_equiv};

    ghost eq = { pointwise nat_eq };

    ghost laws = { Cmp.partial_equiv_from_equiv nat_list_eq_equiv };

    fn eq(&self, other: &Self) -> bool {
        self.bytes() == other.bytes()
    }
}

impl Eq for Name {
    ghost use Rattle.std.specs.Cmp.Lexicographic.{nat_list_eq_equiv};

    ghost laws = { nat_list_eq_equiv };
}

impl Hash for Name {
    ghost use Rattle.std.specs.Hash as fed;
    ghost use Rattle.std.specs.Cmp.Rules.{hashing};
    ghost use Rattle.std.proofs.Common.{rules};

    ghost hash_input = { fed.slice fed.u8 };

    ghost respects_eq = { Prim.search (hashing, rules) };

    fn hash<H: Hasher>(&self, state: &mut H) {
        self.bytes().hash(state);
    }
}
