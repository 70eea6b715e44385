//! The options of the client's own tasks, which stand among their words.

/// The options that a task may have.
#[derive(Clone, Copy)]
pub(crate) struct Options {
    /// `--ascii`: a tree in ASCII.
    pub(crate) ascii: bool,
    /// `--json`: JSON in place of words.
    pub(crate) json: bool,
    /// `--time`: each line with its time.
    pub(crate) time: bool,
}

/// Options, and the other words that stand among them: a namespace, and a path.
#[derive(Clone, Copy)]
pub(crate) struct Chosen<'a> {
    pub(crate) options: Options,
    pub(crate) word: Option<&'a str>,
    pub(crate) path: Option<&'a str>,
}

/// What one word more leaves chosen. None where it is there twice, or is a third word that is no option.
fn chosen_with<'a>(chosen: Chosen<'a>, word: &'a str) -> Option<Chosen<'a>> {
    let options = chosen.options;
    match word {
        "--ascii" if !options.ascii => Some(Chosen {
            options: Options {
                ascii: true,
                ..options
            },
            ..chosen
        }),
        "--json" if !options.json => Some(Chosen {
            options: Options {
                json: true,
                ..options
            },
            ..chosen
        }),
        "--time" if !options.time => Some(Chosen {
            options: Options {
                time: true,
                ..options
            },
            ..chosen
        }),
        "--ascii" | "--json" | "--time" => None,
        word if chosen.word.is_none() => Some(Chosen {
            word: Some(word),
            ..chosen
        }),
        path if chosen.path.is_none() => Some(Chosen {
            path: Some(path),
            ..chosen
        }),
        _ => None,
    }
}

/// The options among words, each at most once, and the other words. None where there are three others.
pub(crate) fn chosen_in<'a>(words: &[&'a str]) -> Option<Chosen<'a>> {
    let mut chosen = Chosen {
        options: Options {
            ascii: false,
            json: false,
            time: false,
        },
        word: None,
        path: None,
    };
    for word in words {
        chosen = chosen_with(chosen, word)?;
    }
    Some(chosen)
}
