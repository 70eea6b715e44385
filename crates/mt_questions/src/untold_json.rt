//! The mounts of which it is not told whether a copy comes to them, and the groups for want of which, as JSON.
ghost use Rattle.std.specs.Prelude.{◌≡◌, ◌++◌, codes, OnOk};
ghost use Rattle.std.specs.List.{flat_map};
ghost use Rattle.mt_questions.specs.Json.{items_json, list_json, under_name, untold_json, missing_json};

use crate::copy_json::push_spot;
use crate::json_values::push_named_numbers;
use crate::reach::Untold;
use crate::table::SeenTables;
use mt_peers::state::GroupId;
use std::alloc::AllocError;

/// Appends a mount of which it is not told whether a copy comes to it.
#[tactic(auto, unfolding(crate::specs::Json::untold_json))]
fn push_untold(text: &mut Vec<u8>, tables: &SeenTables, untold: &Untold) -> Result<(), AllocError>
    ensures { OnOk result (text.new.items ≡ text.old.items ++ untold_json tables.now untold.now) }
{
    push_spot(text, tables, &untold.spot)?;
    push_missing(text, untold.missing.as_slice())?;
    text.extend_from_slice(b"}")
}

/// Appends further mounts of which it is not told, each behind a comma.
fn push_more_untold(
    text: &mut Vec<u8>,
    tables: &SeenTables,
    untold: &[Untold],
) -> Result<(), AllocError>
    ensures { OnOk result (text.new.items ≡ text.old.items ++ flat_map (λ y. codes "," ++ untold_json tables.now y) untold.now) }
{
    'untold: for one in untold {
        text.extend_from_slice(b",")?;
        push_untold(text, tables, one)?;
    }
    Ok(())
}

/// Appends mounts of which it is not told between commas.
fn push_untold_items(
    text: &mut Vec<u8>,
    tables: &SeenTables,
    untold: &[Untold],
) -> Result<(), AllocError>
    ensures { OnOk result (text.new.items ≡ text.old.items ++ items_json (untold_json tables.now) untold.now) }
{
    let Some((first, rest)) = untold.split_first() else {
        return Ok(());
    };
    push_untold(text, tables, first)?;
    push_more_untold(text, tables, rest)
}

/// Appends a list of mounts of which it is not told.
#[tactic(auto, unfolding(crate::specs::Json::list_json))]
fn push_all_untold(
    text: &mut Vec<u8>,
    tables: &SeenTables,
    untold: &[Untold],
) -> Result<(), AllocError>
    ensures { OnOk result (text.new.items ≡ text.old.items ++ list_json (untold_json tables.now) untold.now) }
{
    text.extend_from_slice(b"[")?;
    push_untold_items(text, tables, untold)?;
    text.extend_from_slice(b"]")
}

/// Appends the name of a list of mounts of which it is not told, and the list.
#[tactic(auto, unfolding(crate::specs::Json::under_name))]
pub(crate) fn push_named_untold(
    text: &mut Vec<u8>,
    name: &[u8],
    tables: &SeenTables,
    untold: &[Untold],
) -> Result<(), AllocError>
    ensures { OnOk result (text.new.items ≡ text.old.items ++ under_name name.now (list_json (untold_json tables.now) untold.now)) }
{
    text.extend_from_slice(name)?;
    push_all_untold(text, tables, untold)
}

/// Appends the groups without a member.
#[tactic(auto, unfolding(crate::specs::Json::missing_json))]
pub(crate) fn push_missing(text: &mut Vec<u8>, groups: &[GroupId]) -> Result<(), AllocError>
    ensures { OnOk result (text.new.items ≡ text.old.items ++ missing_json groups.now) }
{
    push_named_numbers(text, b",\"missing\":", groups)
}
