//! A row of the table of lines.

use crate::argument::Argument;
use crate::form::Form;
use mt_skel::fault::Fault;
use std::marker::Model;

/// What a verb stands for: a row of the table of lines.
#[derive(Drop)]
pub struct LineRow {
    /// The word that the line begins with.
    pub word: &'static [u8],
    /// The words after it. Those that may be left out are the last.
    pub arguments: &'static [Argument],
    /// Which lines answer it, where it is not refused.
    pub form: Form,
    /// Whether it is a command: a line that changes tables, for all sessions.
    pub is_command: bool,
    /// What it may be refused as, but for what each line may be refused as, and each command: in the order in which the server
    /// finds them.
    pub refusals: &'static [Fault],
    /// How a help writes it: its word, and a word for each argument. Two ways have a comma between them.
    pub usage: &'static str,
    /// What it does, in words.
    pub help: &'static str,
    /// A line with it.
    pub example: &'static str,
}

impl Model for LineRow {
    ghost use Rattle.mt_protocol.specs.Rows.{VerbRow};

    ghost Value = { VerbRow };

    ghost view = { λ row. record {
      word = row.word.now;
      arguments = row.arguments.now;
      form = row.form;
      command = row.is_command;
      refusals = row.refusals.now;
      example = row.example.now;
    } };
}
