//! What refusals say.
ghost use Rattle.std.specs.Prelude.{◌≡◌, ◌++◌, map, IfOk, OnOk};
ghost use Rattle.mt_help.specs.Lines.{said_refusal};

use crate::page::RefusalSaid;
use mt_protocol::refusal::refusal_row;
use mt_skel::fault::Fault;
use std::alloc::{AllocError, Global};

/// A refusal with what it says.
fn said_of(refusal: Fault) -> RefusalSaid
    ensures { result.refusal ≡ refusal }
{
    RefusalSaid {
        refusal,
        sentence: refusal_row(refusal).sentence,
    }
}

/// Appends refusals with what they say.
fn push_said(all: &mut Vec<RefusalSaid>, refusals: &[Fault]) -> Result<(), AllocError>
    ensures { OnOk result (map said_refusal all.new.items ≡ map said_refusal all.old.items ++ refusals.now) }
{
    'refusals: for refusal in refusals {
        all.push(said_of(*refusal))?;
    }
    Ok(())
}

/// These refusals, each with what it says by the table of refusals (mt_protocol). Fails for want of memory alone.
pub fn said_by(alloc: Global, refusals: &[Fault]) -> Result<Vec<RefusalSaid>, AllocError>
    ensures { IfOk result (λ said. map said_refusal said.items ≡ refusals.now) }
{
    let mut all = Vec::new(alloc);
    push_said(&mut all, refusals)?;
    Ok(all)
}
