//! Bytes of a row: a name of a path, a type or a source.
ghost use Rattle.std.specs.Prelude.{◌≡◌, IfOk, IsOkUnless};
ghost use Rattle.std.specs.Str.{bytes_eq};

use mt_skel::fault::Fault;
use std::alloc::Global;
use std::marker::Model;

/// Any bytes, as a table has them once they are no more escaped.
pub struct SeenText {
    bytes: Vec<u8>,
}

impl Drop for SeenText {
    fn drop(self) {
        let SeenText { bytes: _bytes } = self;
    }
}

impl Model for SeenText {
    ghost use Rattle.std.specs.Prelude.{ℕ, List};

    ghost Value = { List ℕ };

    ghost view = { λ t. t.bytes.items };
}

impl SeenText {
    /// These bytes. Takes no memory.
    pub fn new(bytes: Vec<u8>) -> SeenText
        ensures { result ≡ bytes.items }
    {
        SeenText { bytes }
    }

    /// Bytes that are equal to these. Refused as `NoMemory` alone.
    pub fn of(alloc: Global, bytes: &[u8]) -> Result<SeenText, Fault>
        ensures text { IfOk result (λ text. text ≡ bytes.now) }
        ensures memory { IsOkUnless result Fault.NoMemory }
    {
        Ok(SeenText {
            bytes: bytes.to_vec(alloc)?,
        })
    }

    /// The bytes.
    pub fn bytes(&self) -> &[u8]
        ensures { result.now ≡ self.now }
    {
        self.bytes.as_slice()
    }

    /// Equal bytes. Refused as `NoMemory` alone.
    pub fn copy(&self) -> Result<SeenText, Fault>
        ensures copy { IfOk result (λ text. text ≡ self.now) }
        ensures memory { IsOkUnless result Fault.NoMemory }
    {
        Ok(SeenText {
            bytes: self.bytes.clone()?,
        })
    }

    /// Whether both have the same bytes.
    pub fn is_same(&self, other: &SeenText) -> bool
        ensures { result ≡ bytes_eq self.now other.now }
    {
        self.bytes() == other.bytes()
    }
}
