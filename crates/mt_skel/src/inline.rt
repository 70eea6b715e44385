//! Bytes that lie in the value itself if they are few.
ghost use Rattle.std.specs.Prelude.{◌≡◌, IfOk};
ghost use Rattle.mt_skel.specs.Kept.{bytes_of};

use arrayvec::ArrayVec;
use std::alloc::{AllocError, Global};

/// At most 24 bytes, which take no memory.
type Few = ArrayVec<u8, 24>;

/// Some bytes: at most 24 take no memory, more lie in memory of their own.
pub(crate) enum Bytes {
    /// They lie here.
    Short(Few),
    /// They lie elsewhere.
    Long(Vec<u8>),
}

impl Drop for Bytes {
    fn drop(self) {
        match self {
            Bytes::Short(_short) => (),
            Bytes::Long(_long) => (),
        }
    }
}

impl Bytes {
    /// These bytes. If they are few, their memory is freed.
    pub(crate) fn new(bytes: Vec<u8>) -> Bytes
        ensures { bytes_of result ≡ bytes.items }
    {
        let mut short = Few::new();
        match short.try_extend_from_slice(bytes.as_slice()) {
            Ok(()) => Bytes::Short(short),
            Err(_full) => Bytes::Long(bytes),
        }
    }

    /// Bytes that are equal to these.
    pub(crate) fn copied(alloc: Global, bytes: &[u8]) -> Result<Bytes, AllocError>
        ensures { IfOk result (λ copy. bytes_of copy ≡ bytes.now) }
    {
        let mut short = Few::new();
        if short.try_extend_from_slice(bytes).is_ok() {
            return Ok(Bytes::Short(short));
        }
        Ok(Bytes::Long(bytes.to_vec(alloc)?))
    }

    /// The bytes.
    pub(crate) fn as_slice(&self) -> &[u8]
        ensures { result.now ≡ bytes_of self.now }
    {
        match self {
            Bytes::Short(short) => short.as_slice(),
            Bytes::Long(long) => long.as_slice(),
        }
    }
}

/// The same bytes again.
fn copied(short: &Few) -> Few
    ensures { result.items ≡ short.now.items }
{
    let mut copy = Few::new();
    copy.try_extend_from_slice(short.as_slice()).unwrap();
    copy
}

impl Clone for Bytes {
    ghost use Rattle.std.specs.Prelude.{◌≡◌};
    ghost use Rattle.mt_skel.specs.Kept.{bytes_of};

    ghost is_clone = { λ bytes copy. bytes_of copy ≡ bytes_of bytes };

    fn clone(&self) -> Result<Bytes, AllocError> {
        match self {
            Bytes::Short(short) => Ok(Bytes::Short(copied(short))),
            Bytes::Long(long) => Ok(Bytes::Long(long.clone()?)),
        }
    }
}
