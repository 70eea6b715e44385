//! What is true of every list of calls. The function does nothing: its contract is the law.
ghost use Rattle.mt_desk.specs.Headline.{CallsFollow};

/// Whatever is called on a new desk and by its watchers, in whatever order, is a schedule of the floor. So at each
/// meeting and each close, the posts that the watcher has taken are a prefix of those posted for the namespaces it
/// follows since its opening, each once and in order, none posted after its close or lag; and applied to its opening
/// tables they give each namespace's table as of its last taken number. So do those that a close answers, after the
/// ones that were taken, and these are all that was posted.
pub fn calls_are_a_schedule()
    ensures { CallsFollow }
{}
