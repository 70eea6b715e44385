//! What is true of all lines. The functions do nothing: their contracts are the laws.
ghost use Rattle.mt_requests.specs.Requests.{LinesTellVerbs};
ghost use Rattle.mt_requests.specs.Printed.{CommandsAreReadBack};

/// A line that is read begins with the verb of its request.
pub fn lines_tell_verbs()
    ensures { LinesTellVerbs }
{}

/// The line of a command that a line has said is read as that command.
pub fn commands_are_read_back()
    ensures { CommandsAreReadBack }
{}
