//! The symbolic links that are known.

use mt_skel::names::Names;
use mt_skel::skel::FsId;
use std::alloc::{AllocError, Global};
use std::collections::BTreeMap;

/// The most links that are kept, by this project's rule: what comes later is not known.
const MOST_LINKS: usize = 65_536;

/// The symbolic links that are known: those that a call made or read, and those that were given.
#[derive(Drop)]
pub struct Links {
    alloc: Global,
    links: BTreeMap<Vec<u8>, Vec<u8>>,
}

/// The key of the link of a path in a filesystem.
fn key_of(alloc: Global, fs: FsId, names: &Names) -> Result<Vec<u8>, AllocError> {
    let mut key = Vec::new(alloc);
    key.extend_from_slice(&fs.to_be_bytes())?;
    key.extend_from_slice(names.text())?;
    Ok(key)
}

impl Links {
    /// None.
    pub fn new(alloc: Global) -> Links {
        Links {
            alloc,
            links: BTreeMap::new(alloc),
        }
    }

    /// Whether none is known.
    pub fn is_empty(&self) -> bool {
        self.links.is_empty()
    }

    /// What the link of a path in a filesystem leads to, if one is known there.
    pub fn target(&self, fs: FsId, names: &Names) -> Result<Option<&[u8]>, AllocError> {
        let key = key_of(self.alloc, fs, names)?;
        match self.links.get(&key) {
            Some(target) => Ok(Some(target.as_slice())),
            None => Ok(None),
        }
    }

    /// Forgets the links of a filesystem.
    pub fn forget(&mut self, fs: FsId) {
        let front = fs.to_be_bytes();
        self.links.retain(|key, _target| !key.starts_with(&front));
    }

    /// Notes what the link of a path in a filesystem leads to.
    pub fn note(&mut self, fs: FsId, names: &Names, target: &[u8]) -> Result<(), AllocError> {
        if self.links.len() >= MOST_LINKS {
            return Ok(());
        }
        let key = key_of(self.alloc, fs, names)?;
        let target = Vec::from_slice(self.alloc, target)?;
        let _was = self.links.insert(key, target)?;
        Ok(())
    }
}
