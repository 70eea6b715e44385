//! What is true of every list of lines. The functions do nothing: their contracts are the laws.
ghost use Rattle.mt_session.specs.Forms.{AnswersHaveForms};
ghost use Rattle.mt_session.specs.Headline.{SessionsFollow, AnswersTell};
ghost use Rattle.mt_session.specs.SharedHeadline.{SharedSessionsFollow};
ghost use Rattle.mt_session.specs.SharedHistory.{SharedSessionsAct, SharedStopsHold};
ghost use Rattle.mt_session.specs.Serving.{LinesAreServed};
ghost use Rattle.mt_session.specs.SharedServing.{SharedLinesAreServed};

/// What one call of `serve_next` (answering.rt) says of a plain session, and of one in a thread of its own, whatever that
/// shares: one line was served, whose whole answer was sent, and the session goes on, or has ended with it.
pub fn lines_are_served<Place>()
    ensures plain { LinesAreServed }
    ensures shared { SharedLinesAreServed Place }
{}

/// The lines of a plain session are a schedule of its floor, after the events that were done before them. So of a watcher
/// that one of these lines begins, the posts that the later ones tell, by `take`, `follow` and `close`, are a prefix of
/// those posted to it, and these of those posted for the namespaces it follows since its opening, each once and in order;
/// and applied to the opening that `watch` told, they give the table of each of these namespaces as of its last told
/// number (`schedule`). Where a line tells posts, its answer is their text, as `take` and `close` have it, or as `follow`
/// has it, with whatever stands at the end (`texts`).
pub fn sessions_follow()
    ensures schedule { SessionsFollow }
    ensures texts { AnswersTell }
{}

/// Behind each line of a session in a thread of its own, and whatever the other sessions do: what its watcher has taken,
/// and so all that `take` and `follow` have told of it or lost, is a prefix of what was posted for the namespaces it
/// follows since its opening, each once and in order; and applied to the opening that `watch` told, it gives each
/// namespace's table as of its last taken number. That is so by the events that led to the desk at which the watcher was
/// closed, whose commands are those of a beginning of what the session has seen of the one history in the end.
pub fn shared_sessions_follow()
    ensures { SharedSessionsFollow }
{}

/// What a session in a thread of its own did stands in the one history of its desk, by its number: the commands that were
/// accepted and the stop of its lines, once each and in order, and nothing else. Each of its lines but `take` and `follow` is
/// answered as at the desk after a beginning of the history, and each of these beginnings has all that the session had seen
/// before, and done. That is so up to each line, and once the session has ended (`acts`). Once it has seen a stop in the
/// history, no command of it is accepted (`stops`).
pub fn shared_sessions_act()
    ensures acts { SharedSessionsAct }
    ensures stops { SharedStopsHold }
{}

/// Each answer refuses, or has the form of the verb that its line begins with: that form by which a client knows how many
/// lines answer it.
pub fn answers_have_forms()
    ensures { AnswersHaveForms }
{}
