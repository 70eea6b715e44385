//! What the words behind the socket ask for.

use crate::asked::asked_by;
use crate::client_words::{IN_PLACE_OF_LINES, has_usage};
use crate::marked::Marks;
use crate::options::{Chosen, Options, chosen_in};
use crate::questions::Question;
use mt_events::opening::Scope;
use mt_lines::words::number;
use mt_protocol::form::{Form, form_of};
use mt_protocol::verb::Verb;
use mt_render::drawing::Drawing;
use mt_render::telling::Telling;

/// Whether a word begins a line of a session, or what may stand in its place.
pub(crate) fn begins_words(word: &str) -> bool {
    form_of(word.as_bytes()) != Form::Never || has_usage(&IN_PLACE_OF_LINES, word)
}

/// What the words behind the socket ask for.
#[derive(Clone, Copy)]
pub(crate) enum Task {
    /// The answer to the request of these words.
    Ask,
    /// The answers to the lines of standard input.
    Script,
    /// The table of a namespace that so many posts lead to.
    Mirror { space: u64, count: u64 },
    /// A drawing of the tables of these namespaces.
    Draw { scope: Scope, drawing: Drawing },
    /// A drawing of the part of a namespace that a path leads to.
    DrawPart { drawing: Drawing },
    /// The mount on which a path ends, as JSON.
    Find,
    /// Each change of these namespaces as it comes.
    Tell { scope: Scope, marks: Marks },
    /// The namespaces, with the number of their mounts.
    List { telling: Telling },
    /// The session that makes what is there.
    Save,
    /// What lines change in the namespaces of tables.
    WhatIf,
    /// The page of the session on standard input, or of the server's journal.
    Page,
    /// The answer to a question about the tables of all namespaces.
    Question(Question),
}

impl Task {
    /// What is done to each line of an answer, if something is.
    pub(crate) fn marks(self) -> Option<Marks> {
        let untimed = Marks {
            telling: Telling::Json,
            time: false,
        };
        match self {
            Task::Draw {
                drawing: Drawing::FlatJson | Drawing::NestedJson,
                ..
            }
            | Task::DrawPart {
                drawing: Drawing::NestedJson,
            }
            | Task::List {
                telling: Telling::Json,
            }
            | Task::Find => Some(untimed),
            Task::Tell { marks, .. } if marks.time || marks.telling == Telling::Json => Some(marks),
            _ => None,
        }
    }
}

/// Words that begin as those of a task which is no request, and go on in another way.
#[derive(Clone, Copy)]
pub(crate) enum WordFault {
    /// Behind `show`, with `--json`.
    Show,
    /// Behind `find`, with `--json`.
    Find,
    /// Behind `monitor`.
    Monitor,
    /// Behind `mirror`.
    Mirror,
    /// Behind `tree`.
    Tree,
    /// Behind `dot`.
    Graph,
    /// Behind `spaces`.
    Spaces,
    /// Behind `--name`.
    Name,
    /// Behind `import`, which stands in the place of a socket.
    Import,
    /// Behind `what-if`, on a server.
    WhatIf,
    /// Behind `what-if`, without a server.
    Question,
    /// Behind `trace`, which stands in the place of a socket.
    Trace,
    /// Two forms of an answer, which has one.
    Form,
    /// Behind `--room`.
    Room,
    /// Behind `save`.
    Save,
    /// Behind `page`.
    Page,
    /// Behind `play`.
    Play,
    /// Behind `session`.
    Session,
    /// Behind `explain`, which stands in the place of a socket.
    Explain,
    /// Behind `help`.
    Help,
    /// Behind `reach`.
    Reach,
    /// Behind `origin`.
    Origin,
    /// Behind `holders`.
    Holders,
}

impl WordFault {
    /// What is said on standard error.
    pub(crate) fn message(self) -> &'static str {
        match self {
            WordFault::Show => "show takes a namespace, and --json",
            WordFault::Find => "find takes a namespace and a path, and --json",
            WordFault::Monitor => "monitor takes a namespace, or all, and --json and --time",
            WordFault::Mirror => "mirror takes a namespace and a count",
            WordFault::Tree => "tree takes a namespace and a path, all or none, --ascii or --json",
            WordFault::Graph => "dot takes a namespace and a path, all or none",
            WordFault::Spaces => "spaces takes --json, or no words",
            WordFault::Name => "a name is given as --name 2=web, once for each namespace",
            WordFault::Import => "import takes files, --pid and processes, --all, or no words",
            WordFault::WhatIf => "what-if takes files, and lines behind --",
            WordFault::Question => {
                "what-if takes files, --pid and processes or --all, and lines behind --, or - for those of standard input"
            }
            WordFault::Trace => {
                "trace takes files, --pid and processes or --all, and behind -- a file, or - for standard input"
            }
            WordFault::Form => "what-if prints a page or JSON",
            WordFault::Room => "a room is given once, as --room 2, from 1 to 256",
            WordFault::Save => "save takes no words",
            WordFault::Page => {
                "page takes --journal and a title, or one of them, or no words; where it has no socket also --room"
            }
            WordFault::Reach =>
                "reach takes tables, and behind -- a namespace and a path; behind a socket those alone",
            WordFault::Origin =>
                "origin takes tables, and behind -- a namespace and a path; behind a socket those alone",
            WordFault::Holders => {
                "holders takes tables, and behind -- a source, a device, or a namespace and a path; behind a socket those alone"
            }
            WordFault::Play => "play takes a file, or - for standard input",
            WordFault::Session => "session takes no words but --room",
            WordFault::Explain => "explain takes the name of a refusal, or an errno",
            WordFault::Help => "help takes a word, or none",
        }
    }
}

/// The telling of these words, or None where they are no namespace nor `all`, or other options than `--json` and `--time`.
fn monitor_of(words: &[&str]) -> Option<Task> {
    let Chosen {
        options,
        word,
        path,
    } = chosen_in(words)?;
    if options.ascii || path.is_some() {
        return None;
    }
    let scope = named_scope(word?)?;
    let marks = Marks {
        telling: telling_of(options),
        time: options.time,
    };
    Some(Task::Tell { scope, marks })
}

/// How the options ask to be told.
fn telling_of(options: Options) -> Telling {
    if options.json {
        Telling::Json
    } else {
        Telling::Words
    }
}

/// The list of these words, or None where they are other than `--json`.
fn list_of(words: &[&str]) -> Option<Task> {
    let Chosen { options, word, .. } = chosen_in(words)?;
    if options.ascii || options.time || word.is_some() {
        return None;
    }
    Some(Task::List {
        telling: telling_of(options),
    })
}

/// The drawing of a namespace and of a path in it, of all namespaces where there is neither, or None where there is no such
/// scope.
fn drawn(drawing: Drawing, word: Option<&str>, path: Option<&str>) -> Option<Task> {
    let scope = match word {
        Some(word) => named_scope(word)?,
        None => Scope::All,
    };
    match (scope, path) {
        (Scope::One(_), Some(path)) if path.as_bytes().starts_with(b"/") => {
            Some(Task::DrawPart { drawing })
        }
        (_, Some(_)) => None,
        (scope, None) => Some(Task::Draw { scope, drawing }),
    }
}

/// The graph of these words, or None where they are no namespace, and a path in it, nor `all` or none.
fn graph_of(words: &[&str]) -> Option<Task> {
    let Chosen {
        options,
        word,
        path,
    } = chosen_in(words)?;
    if options.ascii || options.json || options.time {
        return None;
    }
    drawn(Drawing::Graph, word, path)
}

/// The namespace and the path behind the first word of such a drawing, or None where they are others.
pub(crate) fn part_words<'a>(words: &[&'a str]) -> Option<(&'a str, &'a str)> {
    let [_drawing, behind @ ..] = words else {
        return None;
    };
    let chosen = chosen_in(behind)?;
    Some((chosen.word?, chosen.path?))
}

/// The mirror of these words, or None where they are not two numbers. A count that is none is the server's to refuse.
fn mirror_of(words: &[&str]) -> Option<Task> {
    let [space, count] = words else {
        return None;
    };
    let space = number(space.as_bytes())?;
    let count = number(count.as_bytes())?;
    Some(Task::Mirror { space, count })
}

/// The namespace of a word, or all. None where it is neither a number nor `all`.
fn named_scope(word: &str) -> Option<Scope> {
    match word {
        "all" => Some(Scope::All),
        space => Some(Scope::One(number(space.as_bytes())?)),
    }
}

/// The tree of these words, or None where they are no namespace, and a path in it, nor `all` or none, or other options than
/// `--ascii` or `--json`.
fn tree_of(words: &[&str]) -> Option<Task> {
    let Chosen {
        options,
        word,
        path,
    } = chosen_in(words)?;
    let drawing = match options {
        Options {
            ascii: false,
            json: false,
            time: false,
        } => Drawing::Tree,
        Options {
            ascii: true,
            json: false,
            time: false,
        } => Drawing::PlainTree,
        Options {
            ascii: false,
            json: true,
            time: false,
        } => Drawing::NestedJson,
        _ => return None,
    };
    drawn(drawing, word, path)
}

/// The words without `--json`, where it stands first or last among them. None where it does not.
fn without_json<'a, 'w>(words: &'w [&'a str]) -> Option<&'w [&'a str]> {
    match words {
        [others @ .., "--json"] | ["--json", others @ ..] => Some(others),
        _ => None,
    }
}

/// The table of these words, or None where they are no namespace and `--json`.
fn table_of(words: &[&str]) -> Option<Task> {
    let [space] = without_json(words)? else {
        return None;
    };
    Some(Task::Draw {
        scope: Scope::One(number(space.as_bytes())?),
        drawing: Drawing::FlatJson,
    })
}

/// The namespace and the path of the words of a `find` with `--json`, or None where they are others.
pub(crate) fn found_words<'a>(words: &[&'a str]) -> Option<(&'a str, &'a str)> {
    let [_find, behind @ ..] = words else {
        return None;
    };
    let [space, path] = without_json(behind)? else {
        return None;
    };
    let _space = number(space.as_bytes())?;
    Some((space, path))
}

/// The words in front of the first `--` and those behind it.
pub(crate) fn parted<'a, 'w>(words: &'w [&'a str]) -> Option<(&'w [&'a str], &'w [&'a str])> {
    let place = words.iter().position(|word| *word == "--")?;
    let (files, behind) = words.split_at(place);
    let (_, line) = behind.split_first()?;
    Some((files, line))
}

/// Whether a word begins a line that is about its session: its watcher, or its end.
fn is_of_session(word: &str) -> bool {
    match Verb::of(word.as_bytes()) {
        Some(verb) if verb.is_command() => false,
        Some(verb) => matches!(
            verb.form(),
            Form::Opening | Form::Posts | Form::Followed | Form::Done
        ),
        None => false,
    }
}

/// Whether these are lines that change or ask, with `--` between them: others belong to the session over which they are
/// sent.
fn are_asked(words: &[&str]) -> bool {
    let mut begins = true;
    for word in words {
        if begins && (*word == "--" || is_of_session(word)) {
            return false;
        }
        begins = *word == "--";
    }
    !begins
}

/// Whether these words are files, and lines that change or ask, each behind `--`.
fn is_what_if(words: &[&str]) -> bool {
    match parted(words) {
        Some((_, lines)) => are_asked(lines),
        None => false,
    }
}

/// The question of words whose first is its name.
fn question_of(question: Question, words: &[&str]) -> Result<Task, WordFault> {
    match asked_by(question, words) {
        Some(_) => Ok(Task::Question(question)),
        None => Err(question.fault()),
    }
}

/// The task of these words: the client's own where the first is one of its own, which no line begins with, and else the
/// line that they are.
pub(crate) fn task_of(words: &[&str]) -> Result<Task, WordFault> {
    match words {
        ["-"] => Ok(Task::Script),
        ["show", behind @ ..] if behind.contains(&"--json") => table_of(behind).ok_or(
            WordFault::Show,
        ),
        ["find", behind @ ..] if behind.contains(&"--json") => {
            found_words(words)
                .map(|_| Task::Find)
                .ok_or(WordFault::Find)
        }
        ["monitor", behind @ ..] => monitor_of(behind).ok_or(WordFault::Monitor),
        ["mirror", behind @ ..] => mirror_of(behind).ok_or(WordFault::Mirror),
        ["tree", behind @ ..] => tree_of(behind).ok_or(WordFault::Tree),
        ["dot", behind @ ..] => graph_of(behind).ok_or(WordFault::Graph),
        ["spaces", behind @ ..] => list_of(behind).ok_or(WordFault::Spaces),
        ["what-if", behind @ ..] if is_what_if(behind) => Ok(Task::WhatIf),
        ["what-if", ..] => Err(WordFault::WhatIf),
        ["save"] => Ok(Task::Save),
        ["save", ..] => Err(WordFault::Save),
        ["page", ..] => Ok(Task::Page),
        ["reach", ..] => question_of(Question::Reach, words),
        ["origin", ..] => question_of(Question::Origin, words),
        ["holders", ..] => question_of(Question::Holders, words),
        _ => Ok(Task::Ask),
    }
}
