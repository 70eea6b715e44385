//! The strings among the arguments of a call.
ghost use Rattle.std.specs.Prelude.{◌≡◌, IfOk};
ghost use Rattle.std.specs.Result.{result_map_both};
ghost use Rattle.mt_trace.specs.StringArguments.{string_argument};

use mt_strace::string::read_string;
use std::alloc::{AllocError, Global};
use std::marker::Model;

/// Why the bytes of a string are not known.
#[derive(Clone, Copy, PartialEq, Eq, Debug)]
pub enum StringFault {
    /// There is none: `NULL`.
    Missing,
    /// Its end is cut off: the option `-s` of strace was too small.
    Cut,
    /// Strace has its address alone, or something else that is no string.
    Address,
}

impl StringFault {
    /// The same in words, to come after "the path is not known: ".
    pub fn text(self) -> &'static str {
        match self {
            StringFault::Missing => "it is NULL",
            StringFault::Cut => "it is cut off: record with strace -s 4096",
            StringFault::Address => "strace tells its address alone",
        }
    }
}

/// A string among the arguments of a call: its bytes, or why they are not known.
#[derive(Drop)]
pub struct StringArgument<'a> {
    argument: &'a [u8],
}

impl<'a> Model for StringArgument<'a> {
    ghost use Rattle.std.specs.Prelude.{ℕ, List, Result};
    ghost use Rattle.mt_trace.specs.StringArguments.{string_argument};
    ghost use Rattle.mt_trace.specs.declared.string_argument.StringFault.{StringFault};

    ghost Value = { Result (List ℕ) StringFault };

    ghost view = { λ t. string_argument t.argument.now };
}

impl<'a> StringArgument<'a> {
    /// The string of an argument.
    pub fn new(argument: &'a [u8]) -> StringArgument<'a>
        ensures { result ≡ string_argument argument.entry.now }
    {
        StringArgument { argument }
    }
    /// Its bytes, or why they are not known. Fails for want of memory alone.
    pub fn read(&self, alloc: Global) -> Result<Result<Vec<u8>, StringFault>, AllocError>
        ensures { IfOk result (λ told. result_map_both (λ bytes. bytes.items) (λ why. why) told ≡ self.now) }
    {
        if self.argument == b"NULL".as_slice() {
            return Ok(Err(StringFault::Missing));
        }
        let Some(quoted) = read_string(alloc, self.argument)? else {
            return Ok(Err(StringFault::Address));
        };
        if !quoted.is_whole {
            return Ok(Err(StringFault::Cut));
        }
        Ok(Ok(quoted.bytes))
    }
}
