//! The numbers that processes have in their namespaces of processes (pid_namespaces(7)).

use std::alloc::{AllocError, Global};
use std::collections::BTreeMap;

/// A number in a namespace of processes.
#[derive(Clone, Copy, PartialEq, Eq, PartialOrd, Ord, Debug)]
struct Inside {
    space: u64,
    number: u64,
}

/// The numbers that processes have in their namespaces of processes, where strace tells them.
#[derive(Drop)]
pub struct InnerNumbers {
    numbers: BTreeMap<Inside, u64>,
}

impl InnerNumbers {
    /// None.
    pub fn new(alloc: Global) -> InnerNumbers {
        InnerNumbers {
            numbers: BTreeMap::new(alloc),
        }
    }

    /// Notes which number a process has in a namespace.
    pub fn note(&mut self, space: u64, inside: u64, number: u64) -> Result<(), AllocError> {
        let key = Inside {
            space,
            number: inside,
        };
        let _was = self.numbers.insert(key, number)?;
        Ok(())
    }

    /// The number that strace has for the process of a number in a namespace; the same number, where it tells none.
    pub fn called(&self, space: u64, inside: u64) -> u64 {
        let key = Inside {
            space,
            number: inside,
        };
        match self.numbers.get(&key) {
            Some(number) => *number,
            None => inside,
        }
    }

    /// Keeps the numbers of these processes, which rise.
    pub fn keep(&mut self, there: &[u64]) {
        self.numbers
            .retain(|_inside, number| there.binary_search(number).is_ok());
    }
}
