//! What is true of all calls that are followed. The functions do nothing: their contracts are the laws.
ghost use Rattle.mt_trace.specs.Laws.{NamesAreFollowed, ListHasAllNames};

/// Each name is that of its call, and of no other one.
pub fn names_are_followed()
    ensures { NamesAreFollowed }
{}

/// What strace is given are the names of all calls that are followed.
pub fn list_has_all_names()
    ensures { ListHasAllNames }
{}
