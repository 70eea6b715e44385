//! How many calls were played, told and refused.
ghost use Rattle.std.specs.Prelude.{◌≡◌, ◌++◌, OnOk};
ghost use Rattle.mt_trace.specs.Players.{no_counts};
ghost use Rattle.mt_trace.specs.Texts.{with_count, differing_told, played_words, trouble_words, tally_words};

use mt_info::print::push_number;
use std::alloc::AllocError;

/// How many calls were played, told and refused, and what came of it.
#[derive(Clone, Copy, PartialEq, Eq, Debug)]
pub struct Tally {
    /// The calls that were played.
    pub played: u64,
    /// Those that were not, and why is told.
    pub told: u64,
    /// Those that the kernel did and the model refuses; from the first one on tables may differ.
    pub differing: u64,
    /// Those that failed.
    pub failed: u64,
    /// The mounts that were changed in other namespaces than that of the caller.
    pub elsewhere: u64,
    /// The lines that are none, and the calls without a beginning or an end.
    pub bad: u64,
}

/// Appends words, and a number behind them.
fn push_count(text: &mut Vec<u8>, words: &[u8], count: u64) -> Result<(), AllocError>
    ensures { OnOk result (text.new.items ≡ text.old.items ++ with_count words.now count) }
{
    text.extend_from_slice(words)?;
    push_number(text, count)
}

/// Appends how many calls the model alone refuses, if there are any.
fn push_differing(text: &mut Vec<u8>, count: u64) -> Result<(), AllocError>
    ensures { OnOk result (text.new.items ≡ text.old.items ++ differing_told count) }
{
    if count == 0 {
        return Ok(());
    }
    push_count(text, b"; refused by the model alone: ", count)
}

impl Tally {
    /// Nothing is counted yet.
    pub fn new() -> Tally
        ensures { result ≡ no_counts }
    {
        Tally {
            played: 0,
            told: 0,
            differing: 0,
            failed: 0,
            elsewhere: 0,
            bad: 0,
        }
    }

    /// Appends the counts of calls in words.
    #[tactic(auto, unfolding(crate::specs::Texts::played_words))]
    fn push_played(&self, text: &mut Vec<u8>) -> Result<(), AllocError>
        ensures { OnOk result (text.new.items ≡ text.old.items ++ played_words self.now) }
    {
        push_count(text, b"played: ", self.played)?;
        push_count(text, b"; not played: ", self.told)?;
        push_count(text, b"; failed: ", self.failed)
    }

    /// Appends the other counts in words.
    #[tactic(auto, unfolding(crate::specs::Texts::trouble_words))]
    fn push_others(&self, text: &mut Vec<u8>) -> Result<(), AllocError>
        ensures { OnOk result (text.new.items ≡ text.old.items ++ trouble_words self.now) }
    {
        push_count(text, b"; changes elsewhere: ", self.elsewhere)?;
        push_count(text, b"; bad lines: ", self.bad)?;
        push_differing(text, self.differing)
    }

    /// Appends the counts in words, without a line end. Fails for want of memory alone.
    pub fn push_words(&self, text: &mut Vec<u8>) -> Result<(), AllocError>
        ensures { OnOk result (text.new.items ≡ text.old.items ++ tally_words self.now) }
    {
        self.push_played(text)?;
        self.push_others(text)
    }

    /// Appends the counts as a JSON object, without a line end.
    pub fn push_object(&self, text: &mut Vec<u8>) -> Result<(), AllocError> {
        push_count(text, b"{\"played\":", self.played)?;
        push_count(text, b",\"told\":", self.told)?;
        push_count(text, b",\"failed\":", self.failed)?;
        push_count(text, b",\"elsewhere\":", self.elsewhere)?;
        push_count(text, b",\"bad\":", self.bad)?;
        push_count(text, b",\"differing\":", self.differing)?;
        text.push(b'}')?;
        Ok(())
    }
}
