//! What is answered to the question where a mount comes, as JSON.
ghost use Rattle.std.specs.Prelude.{◌≡◌, ◌++◌, OnOk, IfOk};
ghost use Rattle.mt_questions.specs.Json.{directory_json, device_json, refused_json, end_json, place_json, passes_json, without_json, complete_json, rest_json, copies_json, all_untold_json, all_apart_json, reach_json};

use crate::apart_json::push_named_apart;
use crate::copies::ReachedMount;
use crate::copy_json::push_named_copies;
use crate::json_values::{
    push_mount, push_named_bool, push_named_device, push_named_directory, push_named_numbers,
    push_named_spaces, push_where,
};
use crate::reach::{ReachAnswer, Untold};
use crate::remedy::ApartMount;
use crate::table::SeenTables;
use crate::untold_json::{push_missing, push_named_untold};
use mt_mounts::mount::{MountId, SpaceId};
use mt_reach::path::Path;
use mt_reach::row::{Device, SeenDirectory};
use std::alloc::{AllocError, Global};

/// Appends the directory where a path ends.
#[tactic(auto, unfolding(crate::specs::Json::directory_json))]
fn push_directory_at(text: &mut Vec<u8>, directory: &SeenDirectory) -> Result<(), AllocError>
    ensures { OnOk result (text.new.items ≡ text.old.items ++ directory_json directory.now) }
{
    push_named_directory(text, b",\"directory\":", directory)
}

/// Appends the device of a directory.
#[tactic(auto, unfolding(crate::specs::Json::device_json))]
fn push_device_of(text: &mut Vec<u8>, device: Device) -> Result<(), AllocError>
    ensures { OnOk result (text.new.items ≡ text.old.items ++ device_json device) }
{
    push_named_device(text, b",\"maj:min\":", device)
}

/// Appends whether a mount at a path is refused.
#[tactic(auto, unfolding(crate::specs::Json::refused_json))]
fn push_refused(text: &mut Vec<u8>, path: &Path) -> Result<(), AllocError>
    ensures { OnOk result (text.new.items ≡ text.old.items ++ refused_json path.now) }
{
    push_named_bool(text, b",\"refused\":", path.is_root())
}

/// Appends where a path ends.
#[tactic(auto, unfolding(crate::specs::Json::end_json))]
fn push_end(text: &mut Vec<u8>, answer: &ReachAnswer) -> Result<(), AllocError>
    ensures { OnOk result (text.new.items ≡ text.old.items ++ end_json answer.now) }
{
    push_directory_at(text, &answer.directory)?;
    push_device_of(text, answer.directory.device)?;
    push_refused(text, &answer.path)
}

/// Appends the place.
#[tactic(auto, unfolding(crate::specs::Json::place_json))]
fn push_place(
    text: &mut Vec<u8>,
    tables: &SeenTables,
    answer: &ReachAnswer,
) -> Result<(), AllocError>
    ensures { OnOk result (text.new.items ≡ text.old.items ++ place_json tables.now answer.now) }
{
    push_where(text, tables, answer.space, &answer.path)?;
    push_mount(text, answer.mount)?;
    push_end(text, answer)
}

/// Appends the mounts that get and do not show the directory.
#[tactic(auto, unfolding(crate::specs::Json::passes_json))]
fn push_passes(text: &mut Vec<u8>, ids: &[MountId]) -> Result<(), AllocError>
    ensures { OnOk result (text.new.items ≡ text.old.items ++ passes_json ids.now) }
{
    push_named_numbers(text, b",\"passes\":", ids)
}

/// Appends the namespaces without the directory.
#[tactic(auto, unfolding(crate::specs::Json::without_json))]
fn push_without(
    text: &mut Vec<u8>,
    tables: &SeenTables,
    spaces: &[SpaceId],
) -> Result<(), AllocError>
    ensures { OnOk result (text.new.items ≡ text.old.items ++ without_json tables.now spaces.now) }
{
    push_named_spaces(text, b",\"without\":", tables, spaces)
}

/// Appends whether all tables were read.
#[tactic(auto, unfolding(crate::specs::Json::complete_json))]
fn push_complete(text: &mut Vec<u8>, tables: &SeenTables) -> Result<(), AllocError>
    ensures { OnOk result (text.new.items ≡ text.old.items ++ complete_json tables.now) }
{
    push_named_bool(text, b",\"complete\":", tables.complete)
}

/// Appends what is there beside the copies.
#[tactic(auto, unfolding(crate::specs::Json::rest_json))]
fn push_rest(
    text: &mut Vec<u8>,
    tables: &SeenTables,
    answer: &ReachAnswer,
) -> Result<(), AllocError>
    ensures { OnOk result (text.new.items ≡ text.old.items ++ rest_json tables.now answer.now) }
{
    push_passes(text, answer.passes.as_slice())?;
    push_without(text, tables, answer.without.as_slice())?;
    push_missing(text, answer.missing.as_slice())?;
    push_complete(text, tables)?;
    text.extend_from_slice(b"}\n")
}

/// Appends the copies.
#[tactic(auto, unfolding(crate::specs::Json::copies_json))]
fn push_copies_of(
    text: &mut Vec<u8>,
    tables: &SeenTables,
    copies: &[ReachedMount],
) -> Result<(), AllocError>
    ensures { OnOk result (text.new.items ≡ text.old.items ++ copies_json tables.now copies.now) }
{
    push_named_copies(text, b",\"copies\":", tables, copies)
}

/// Appends the mounts of which it is not told.
#[tactic(auto, unfolding(crate::specs::Json::all_untold_json))]
fn push_untold_of(
    text: &mut Vec<u8>,
    tables: &SeenTables,
    untold: &[Untold],
) -> Result<(), AllocError>
    ensures { OnOk result (text.new.items ≡ text.old.items ++ all_untold_json tables.now untold.now) }
{
    push_named_untold(text, b",\"untold\":", tables, untold)
}

/// Appends the mounts to which nothing comes.
#[tactic(auto, unfolding(crate::specs::Json::all_apart_json))]
fn push_apart_of(
    text: &mut Vec<u8>,
    tables: &SeenTables,
    apart: &[ApartMount],
) -> Result<(), AllocError>
    ensures { OnOk result (text.new.items ≡ text.old.items ++ all_apart_json tables.now apart.now) }
{
    push_named_apart(text, b",\"apart\":", tables, apart)
}

/// Where a mount comes, as an object. Fails for want of memory alone.
#[tactic(auto, unfolding(crate::specs::Json::reach_json))]
pub fn reach_json(
    alloc: Global,
    tables: &SeenTables,
    answer: &ReachAnswer,
) -> Result<Vec<u8>, AllocError>
    ensures text { IfOk result (λ text. text.items ≡ reach_json tables.now answer.now) }
{
    let mut text = Vec::new(alloc);
    push_place(&mut text, tables, answer)?;
    push_copies_of(&mut text, tables, answer.copies.as_slice())?;
    push_untold_of(&mut text, tables, answer.untold.as_slice())?;
    push_apart_of(&mut text, tables, answer.apart.as_slice())?;
    push_rest(&mut text, tables, answer)?;
    Ok(text)
}
