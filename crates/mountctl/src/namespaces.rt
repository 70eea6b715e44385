//! The tables that words name, each with the name of its namespace.

use crate::PROGRAM;
use crate::fault::Fault;
use crate::messages::NAME;
use crate::process_tables::{of_machine, of_processes};
use crate::tables::{TableFault, read_table};
use crate::task::WordFault;
use mt_import::host_mount::HostMount;
use mt_mounts::mount::SpaceId;
use mt_questions::naming::{SpaceAlias, last_name, space_called};
use mt_questions::table::NamedTable;
use mt_terminal::message::Shown;
use mt_what_if::asked::SpaceWord;
use std::alloc::{AllocError, AllocFailed, Global};
use std::process::ExitCode;

/// Tables, each of another mount namespace, and the words that name them.
#[derive(Drop)]
pub(crate) struct Namespaces {
    tables: Vec<NamedTable>,
    aliases: Vec<SpaceAlias>,
}

/// Why tables are not there.
#[derive(Drop)]
pub(crate) enum Lack {
    /// This table cannot be read.
    Table(String, TableFault),
    /// No process with this number runs.
    Process(String),
    /// The list of processes cannot be read.
    Processes,
    /// No word stands where tables are named, or one that begins as an option does.
    Words,
    /// There is no memory for them.
    NoMemory,
}

impl From<AllocError> for Lack {
    fn from(_error: AllocError) -> Lack {
        Lack::NoMemory
    }
}

impl<T: Drop> From<AllocFailed<T>> for Lack {
    fn from(_error: AllocFailed<T>) -> Lack {
        Lack::NoMemory
    }
}

/// The number of the table at a place, from 1.
pub(crate) fn number_of(place: usize) -> SpaceId {
    (place as u64).saturating_add(1)
}

/// Whether two tables are the same, line by line.
fn is_same_table(left: &[HostMount], right: &[HostMount]) -> bool {
    if left.len() != right.len() {
        return false;
    }
    let mut others = right.iter();
    for row in left {
        let Some(other) = others.next() else {
            return false;
        };
        if row.line != other.line {
            return false;
        }
    }
    true
}

impl Namespaces {
    /// No tables.
    pub(crate) fn new(alloc: Global) -> Namespaces {
        Namespaces {
            tables: Vec::new(alloc),
            aliases: Vec::new(alloc),
        }
    }

    /// The tables, in the order in which words name them.
    pub(crate) fn tables(&self) -> &[NamedTable] {
        self.tables.as_slice()
    }

    /// The tables themselves, in this order.
    pub(crate) fn into_tables(self) -> Vec<NamedTable> {
        let Namespaces {
            tables,
            aliases: _aliases,
        } = self;
        tables
    }

    /// The number of the table of a namespace, from 1: the word is the name of its file, with or without folders, the number
    /// of a process in it, or the number of the table. None where it is none of these, or the last name of two files.
    pub(crate) fn space_named(&self, word: &[u8]) -> Option<SpaceId> {
        space_called(self.tables.as_slice(), self.aliases.as_slice(), word)
    }

    /// Adds a word, and the namespace that it names.
    fn push_word(
        &self,
        alloc: Global,
        words: &mut Vec<SpaceWord>,
        word: &[u8],
    ) -> Result<(), AllocError> {
        words.push(SpaceWord {
            word: Vec::from_slice(alloc, word)?,
            space: self.space_named(word),
        })?;
        Ok(())
    }

    /// The words that name namespaces, but for the numbers of tables: those of files with and without folders, and those of
    /// processes.
    pub(crate) fn space_words(&self, alloc: Global) -> Result<Vec<SpaceWord>, AllocError> {
        let mut words = Vec::new(alloc);
        for alias in &self.aliases {
            self.push_word(alloc, &mut words, alias.word.as_slice())?;
            self.push_word(alloc, &mut words, last_name(alias.word.as_slice()))?;
        }
        Ok(words)
    }

    /// Enters a word that names a namespace.
    pub(crate) fn name(&mut self, alloc: Global, word: &str, space: SpaceId) -> Result<(), Lack> {
        let word = Vec::from_slice(alloc, word.as_bytes())?;
        self.aliases.push(SpaceAlias { word, space })?;
        Ok(())
    }

    /// The place of the table that has these rows.
    fn place_of(&self, rows: &[HostMount]) -> Option<usize> {
        self.tables
            .iter()
            .position(|table| is_same_table(table.rows.as_slice(), rows))
    }

    /// Enters a table under a word.
    pub(crate) fn enter(
        &mut self,
        alloc: Global,
        word: &str,
        table: NamedTable,
    ) -> Result<(), Lack> {
        self.tables.push(table)?;
        let space = self.tables.len() as u64;
        self.name(alloc, word, space)
    }

    /// Says that what a word names is the namespace of the table at a place, and enters the word for that.
    pub(crate) fn join(&mut self, rt: &HostRuntime, word: &str, place: usize) -> Result<(), Lack> {
        if let Some(table) = self.tables.get(place) {
            let (first, second) = (Shown(table.name.as_slice()), Shown(word.as_bytes()));
            let _ = eprintln!(rt; "{NAME}: {second} and {first} are one namespace");
        }
        self.name(rt.alloc(), word, number_of(place))
    }
}

/// What people call the file of a word: its last name, or the whole word where another one of the words has the same.
fn file_name<'a>(word: &'a str, words: &[&'a str]) -> &'a [u8] {
    let name = last_name(word.as_bytes());
    let alike = words
        .iter()
        .filter(|other| last_name(other.as_bytes()) == name)
        .count();
    if alike > 1 { word.as_bytes() } else { name }
}

/// The table of a file.
pub(crate) fn table_at(rt: &HostRuntime, path: &str) -> Result<Vec<HostMount>, Lack> {
    match read_table(rt, path) {
        Ok(rows) => Ok(rows),
        Err(TableFault::NoMemory) => Err(Lack::NoMemory),
        Err(fault) => Err(Lack::Table(String::from_str(rt.alloc(), path)?, fault)),
    }
}

/// The tables of files.
fn of_files(rt: &HostRuntime, words: &[&str]) -> Result<Namespaces, Lack> {
    let alloc = rt.alloc();
    let mut all = Namespaces::new(alloc);
    for word in words {
        if word.as_bytes().starts_with(b"-") {
            return Err(Lack::Words);
        }
        let rows = table_at(rt, word)?;
        match all.place_of(rows.as_slice()) {
            Some(place) => all.join(rt, word, place)?,
            None => {
                let mut name = Vec::new(alloc);
                name.extend_from_slice(file_name(word, words))?;
                let table = NamedTable {
                    name,
                    rows,
                    is_foreign: false,
                };
                all.enter(alloc, word, table)?;
            }
        }
    }
    Ok(all)
}

/// The tables that words name.
fn named(rt: &HostRuntime, words: &[&str]) -> Result<Namespaces, Lack> {
    match words {
        [] | ["--pid"] => Err(Lack::Words),
        ["--all"] => of_machine(rt),
        ["--pid", processes @ ..] => of_processes(rt, processes),
        files => of_files(rt, files),
    }
}

/// The tables that words name: files, `--pid` and the numbers of processes, or `--all` for each mount namespace of this
/// machine once. Two words that name one namespace are told on standard error. Where one cannot be read, that is said, and
/// the status is answered; `kind` is said where these are no such words.
pub(crate) fn named_tables(
    rt: &HostRuntime,
    words: &[&str],
    kind: WordFault,
) -> Result<Namespaces, ExitCode> {
    match named(rt, words) {
        Ok(all) => Ok(all),
        Err(Lack::NoMemory) => Err(PROGRAM.fail(rt, Fault::NoMemory.message())),
        Err(Lack::Words) => Err(PROGRAM.refuse(rt, kind.message())),
        Err(Lack::Processes) => Err(PROGRAM.refuse(rt, "/proc cannot be read")),
        Err(Lack::Process(process)) => {
            let process = Shown(process.as_str().as_bytes());
            let _ = eprintln!(rt; "{NAME}: no process {process}, or it may not be looked at");
            Err(ExitCode::from(2))
        }
        Err(Lack::Table(path, fault)) => {
            let path = Shown(path.as_str().as_bytes());
            let _ = eprintln!(rt; "{NAME}: {path}: {fault}");
            Err(ExitCode::from(2))
        }
    }
}
