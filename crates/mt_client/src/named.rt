//! How posts are told.

pub use mt_render::named::SpaceName;
use mt_render::telling::Telling;

/// How posts are told.
#[derive(Clone, Copy)]
pub struct NamedTelling<'a> {
    /// In words or as JSON.
    pub telling: Telling,
    /// The names that stand beside the numbers of namespaces. Of two of one namespace the first one counts.
    pub names: &'a [SpaceName<'a>],
}
