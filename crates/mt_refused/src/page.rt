//! What is told of: the rows, the names, and the command that is refused.
ghost use Rattle.std.specs.Prelude.{◌≡◌};

use crate::titles::Titles;
use mt_book::command::Command;
use mt_reach::rows::SeenRows;
use std::marker::Model;

/// The rows of all tables, what namespaces are called, and the command that is refused.
#[derive(Drop)]
pub(crate) struct Page<'a> {
    pub(crate) rows: &'a SeenRows,
    pub(crate) titles: &'a Titles,
    pub(crate) command: &'a Command,
}

impl<'a> Model for Page<'a> {
    ghost use Rattle.mt_refused.specs.Pages.{PageView};

    ghost Value = { PageView };

    ghost view = { λ p. record { rows = p.rows.now; titles = p.titles.now; command = p.command.now } };
}

impl<'a> Page<'a> {
    /// These.
    pub(crate) fn new(rows: &'a SeenRows, titles: &'a Titles, command: &'a Command) -> Page<'a>
        ensures { result ≡ record { rows = rows.now; titles = titles.now; command = command.now } }
    {
        Page {
            rows,
            titles,
            command,
        }
    }
}
