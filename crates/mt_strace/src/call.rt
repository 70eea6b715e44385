//! A call with its arguments and its result.

use crate::arguments::Arguments;
use crate::excerpt::Excerpt;
use crate::result::CallResult;

/// A call with its arguments and its result.
#[derive(Drop)]
pub struct TracedCall<'a> {
    /// The number of the process, if the line names one: without `-f` none does.
    pub process: Option<u64>,
    /// The name of the call, as `mount`.
    pub name: Excerpt<'a>,
    /// Its arguments.
    pub arguments: Arguments<'a>,
    /// What it returned, or why it failed.
    pub result: CallResult<'a>,
}
