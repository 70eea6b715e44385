//! `what-if --page`: what lines would change in the namespaces of tables, as a page that plays them in a browser.

use crate::fault::Fault;
use crate::page::{PageData, step_with_reason};
use crate::page_task::print_page;
use mt_render::page_data::{Step, opening_data, steps_data};
use mt_render::page_name::GivenName;
use mt_what_if::known_space::KnownSpace;
use mt_what_if::steps::Paged;
use std::alloc::Global;

/// The steps, each with what the refusal says that its answer is, if it is one.
fn with_reasons(alloc: Global, steps: Vec<Step>) -> Result<Vec<Step>, Fault> {
    let mut told = Vec::new(alloc);
    for step in steps {
        told.push(step_with_reason(step)?)?;
    }
    Ok(told)
}

/// What namespaces are called.
fn given_names(alloc: Global, spaces: &[KnownSpace]) -> Result<Vec<GivenName>, Fault> {
    let mut names = Vec::new(alloc);
    for space in spaces {
        names.push(GivenName {
            space: space.number,
            name: Vec::from_slice(alloc, space.name.as_slice())?,
        })?;
    }
    Ok(names)
}

/// Prints the page of a question: it opens with the tables, each under its name, and each line that was tried is a step.
pub(crate) fn print_foretold_page(rt: &HostRuntime, page: Paged) -> Result<(), Fault> {
    let alloc = rt.alloc();
    let Paged {
        opening,
        steps,
        spaces,
        ..
    } = page;
    let names = given_names(alloc, spaces.as_slice())?;
    let steps = with_reasons(alloc, steps)?;
    let data = PageData {
        opening: opening_data(alloc, opening.as_slice())?,
        steps: steps_data(alloc, steps.as_slice(), names.as_slice(), b"")?,
    };
    print_page(rt, &data)?;
    Ok(())
}
