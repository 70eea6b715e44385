//! What is true of every list of events. The functions do nothing: their contracts are the laws.
ghost use Rattle.mt_floor.specs.Headline.{TakenInOrder, TakenRebuild, GivenInOrder};
ghost use Rattle.mt_floor.specs.Laws.{KeysOnce, MeetingsTell, RunsJoin};
ghost use Rattle.mt_floor.specs.WellFormed.{FloorsStay, ListsAreShort};

/// In every schedule, the events that a watcher has taken are a prefix of those posted for the namespaces it follows
/// since its opening, each once and in order, none posted after its close or lag (`order`). Applied to its opening
/// tables, they give each namespace's table as of its last taken number (`tables`). Both are also true of the posts
/// that it has taken and those that its close has answered, taken together (`given`).
pub fn watchers_follow()
    ensures order { TakenInOrder }
    ensures tables { TakenRebuild }
    ensures given { GivenInOrder }
{}

/// No two watchers have the same key (`keys`). A meeting tells how many posts were posted to a watcher and how many it
/// has taken, and a close answers those that it has not taken (`meetings`). Events in two lists leave the same floor
/// and give the same answers as in one, so several calls of `Floor::run` are one (`joined`).
pub fn answers_tell()
    ensures keys { KeysOnce }
    ensures meetings { MeetingsTell }
    ensures joined { RunsJoin }
{}

/// A floor on which nothing was done is well-formed, and each event keeps it so: what each watcher took is a prefix of
/// what was sent to it, and that is a prefix of its followed posts, the rest of which is due to it while it is open
/// (`floors`). So what was sent to a watcher can be counted (`short`).
pub fn floors_stay()
    ensures floors { FloorsStay }
    ensures short { ListsAreShort }
{}
