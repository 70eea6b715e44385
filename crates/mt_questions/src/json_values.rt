//! Values of JSON: strings, numbers and lists of them.
ghost use Rattle.std.specs.Prelude.{◌≡◌, ◌++◌, codes, decimal, IfOk, OnOk};
ghost use Rattle.std.specs.List.{flat_map};
ghost use Rattle.mt_questions.specs.Json.{string_json, items_json, list_json, numbers_json, option_json, bool_json, space_json, under_name, mount_json, hidden_json, where_json};
ghost use Rattle.mt_questions.specs.Wording.{path_words, directory_words, device_words};

use crate::table::SeenTables;
use crate::wording::{push_device, push_directory, push_path};
use mt_info::print::push_number;
use mt_mounts::mount::{MountId, SpaceId};
use mt_reach::path::Path;
use mt_reach::row::{Device, SeenDirectory};
use mt_terminal::json::quoted_text;
use serde_json::Value;
use std::alloc::{AllocError, Global};

/// A text as a string.
#[tactic(auto, unfolding(crate::specs::Json::string_json))]
fn string_json(alloc: Global, bytes: &[u8]) -> Result<Vec<u8>, AllocError>
    ensures { IfOk result (λ text. text.items ≡ string_json bytes.now) }
{
    let value = Value::from(String::from_utf8_lossy(alloc, bytes)?);
    quoted_text(alloc, &value.to_vec(alloc)?)
}

/// Appends a text as a string.
fn push_string(text: &mut Vec<u8>, bytes: &[u8]) -> Result<(), AllocError>
    ensures { OnOk result (text.new.items ≡ text.old.items ++ string_json bytes.now) }
{
    let string = string_json(*text.allocator(), bytes)?;
    text.extend_from_slice(string.as_slice())
}

/// Appends further numbers, each behind a comma.
fn push_more_numbers(text: &mut Vec<u8>, numbers: &[u64]) -> Result<(), AllocError>
    ensures { OnOk result (text.new.items ≡ text.old.items ++ flat_map (λ y. codes "," ++ decimal y) numbers.now) }
{
    'numbers: for number in numbers {
        text.extend_from_slice(b",")?;
        push_number(text, *number)?;
    }
    Ok(())
}

/// Appends numbers between commas.
fn push_number_items(text: &mut Vec<u8>, numbers: &[u64]) -> Result<(), AllocError>
    ensures { OnOk result (text.new.items ≡ text.old.items ++ items_json decimal numbers.now) }
{
    let Some((first, rest)) = numbers.split_first() else {
        return Ok(());
    };
    push_number(text, *first)?;
    push_more_numbers(text, rest)
}

/// Appends a list of numbers.
#[tactic(auto, unfolding(crate::specs::Json::list_json))]
fn push_numbers(text: &mut Vec<u8>, numbers: &[u64]) -> Result<(), AllocError>
    ensures { OnOk result (text.new.items ≡ text.old.items ++ numbers_json numbers.now) }
{
    text.extend_from_slice(b"[")?;
    push_number_items(text, numbers)?;
    text.extend_from_slice(b"]")
}

/// Appends a number, or that there is none.
#[tactic(auto, unfolding(crate::specs::Json::option_json))]
fn push_option(text: &mut Vec<u8>, number: Option<u64>) -> Result<(), AllocError>
    ensures { OnOk result (text.new.items ≡ text.old.items ++ option_json number) }
{
    match number {
        Some(number) => push_number(text, number),
        None => text.extend_from_slice(b"null"),
    }
}

/// The word for whether something holds.
#[tactic(auto, unfolding(crate::specs::Json::bool_json))]
fn bool_word(holds: bool) -> &'static [u8]
    ensures { result.now ≡ bool_json holds }
{
    if holds { b"true" } else { b"false" }
}

/// Appends what people call a namespace.
fn push_space(text: &mut Vec<u8>, tables: &SeenTables, space: SpaceId) -> Result<(), AllocError>
    ensures { OnOk result (text.new.items ≡ text.old.items ++ space_json tables.now space) }
{
    push_string(text, tables.called_name(space))
}

/// Appends the name of a value, and the value.
#[tactic(auto, unfolding(crate::specs::Json::under_name))]
pub(crate) fn push_named(text: &mut Vec<u8>, name: &[u8], value: &[u8]) -> Result<(), AllocError>
    ensures { OnOk result (text.new.items ≡ text.old.items ++ under_name name.now value.now) }
{
    text.extend_from_slice(name)?;
    text.extend_from_slice(value)
}

/// Appends the name of a mark, and the mark.
pub(crate) fn push_named_bool(
    text: &mut Vec<u8>,
    name: &[u8],
    holds: bool,
) -> Result<(), AllocError>
    ensures { OnOk result (text.new.items ≡ text.old.items ++ under_name name.now (bool_json holds)) }
{
    push_named(text, name, bool_word(holds))
}

/// Appends the name of a number, and the number.
#[tactic(auto, unfolding(crate::specs::Json::under_name))]
pub(crate) fn push_named_number(
    text: &mut Vec<u8>,
    name: &[u8],
    number: u64,
) -> Result<(), AllocError>
    ensures { OnOk result (text.new.items ≡ text.old.items ++ under_name name.now (decimal number)) }
{
    text.extend_from_slice(name)?;
    push_number(text, number)?;
    Ok(())
}

/// Appends the name of a number, and the number, or that there is none.
#[tactic(auto, unfolding(crate::specs::Json::under_name))]
pub(crate) fn push_named_option(
    text: &mut Vec<u8>,
    name: &[u8],
    number: Option<u64>,
) -> Result<(), AllocError>
    ensures { OnOk result (text.new.items ≡ text.old.items ++ under_name name.now (option_json number)) }
{
    text.extend_from_slice(name)?;
    push_option(text, number)
}

/// Appends the ID of a mount.
#[tactic(auto, unfolding(crate::specs::Json::mount_json))]
pub(crate) fn push_mount(text: &mut Vec<u8>, id: MountId) -> Result<(), AllocError>
    ensures { OnOk result (text.new.items ≡ text.old.items ++ mount_json id) }
{
    push_named_number(text, b",\"mount\":", id)
}

/// Appends which mount hides another one, if any does.
#[tactic(auto, unfolding(crate::specs::Json::hidden_json))]
pub(crate) fn push_hidden(text: &mut Vec<u8>, id: Option<u64>) -> Result<(), AllocError>
    ensures { OnOk result (text.new.items ≡ text.old.items ++ hidden_json id) }
{
    push_named_option(text, b",\"hidden-by\":", id)
}

/// Appends the name of a list of numbers, and the list.
#[tactic(auto, unfolding(crate::specs::Json::under_name))]
pub(crate) fn push_named_numbers(
    text: &mut Vec<u8>,
    name: &[u8],
    numbers: &[u64],
) -> Result<(), AllocError>
    ensures { OnOk result (text.new.items ≡ text.old.items ++ under_name name.now (numbers_json numbers.now)) }
{
    text.extend_from_slice(name)?;
    push_numbers(text, numbers)
}

/// Appends the name of a text, and the text as a string.
pub(crate) fn push_named_string(
    text: &mut Vec<u8>,
    name: &[u8],
    bytes: &[u8],
) -> Result<(), AllocError>
    ensures { OnOk result (text.new.items ≡ text.old.items ++ under_name name.now (string_json bytes.now)) }
{
    let string = string_json(*text.allocator(), bytes)?;
    push_named(text, name, string.as_slice())
}

/// Appends the name of a directory, and the directory.
pub(crate) fn push_named_directory(
    text: &mut Vec<u8>,
    name: &[u8],
    directory: &SeenDirectory,
) -> Result<(), AllocError>
    ensures { OnOk result (text.new.items ≡ text.old.items ++ under_name name.now (string_json (directory_words directory.now))) }
{
    let mut words = Vec::new(*text.allocator());
    push_directory(&mut words, directory)?;
    push_named_string(text, name, words.as_slice())
}

/// Appends the name of a device, and the device.
pub(crate) fn push_named_device(
    text: &mut Vec<u8>,
    name: &[u8],
    device: Device,
) -> Result<(), AllocError>
    ensures { OnOk result (text.new.items ≡ text.old.items ++ under_name name.now (string_json (device_words device))) }
{
    let mut words = Vec::new(*text.allocator());
    push_device(&mut words, device)?;
    push_named_string(text, name, words.as_slice())
}

/// Appends the name of a path, and the path.
fn push_named_path(text: &mut Vec<u8>, name: &[u8], path: &Path) -> Result<(), AllocError>
    ensures { OnOk result (text.new.items ≡ text.old.items ++ under_name name.now (string_json (path_words path.now))) }
{
    let mut words = Vec::new(*text.allocator());
    push_path(&mut words, path)?;
    push_named_string(text, name, words.as_slice())
}

/// Appends the name of a namespace, and what people call that.
fn push_named_space(
    text: &mut Vec<u8>,
    name: &[u8],
    tables: &SeenTables,
    space: SpaceId,
) -> Result<(), AllocError>
    ensures { OnOk result (text.new.items ≡ text.old.items ++ under_name name.now (space_json tables.now space)) }
{
    push_named_string(text, name, tables.called_name(space))
}

/// Appends the beginning of an object that tells of a path in a namespace.
#[tactic(auto, unfolding(crate::specs::Json::where_json))]
pub(crate) fn push_where(
    text: &mut Vec<u8>,
    tables: &SeenTables,
    space: SpaceId,
    path: &Path,
) -> Result<(), AllocError>
    ensures { OnOk result (text.new.items ≡ text.old.items ++ where_json tables.now space path.now) }
{
    push_named_space(text, b"{\"namespace\":", tables, space)?;
    push_named_path(text, b",\"target\":", path)?;
    Ok(())
}

/// Appends further namespaces, each behind a comma.
fn push_more_spaces(
    text: &mut Vec<u8>,
    tables: &SeenTables,
    spaces: &[SpaceId],
) -> Result<(), AllocError>
    ensures { OnOk result (text.new.items ≡ text.old.items ++ flat_map (λ y. codes "," ++ space_json tables.now y) spaces.now) }
{
    'spaces: for space in spaces {
        text.extend_from_slice(b",")?;
        push_space(text, tables, *space)?;
    }
    Ok(())
}

/// Appends namespaces between commas.
fn push_space_items(
    text: &mut Vec<u8>,
    tables: &SeenTables,
    spaces: &[SpaceId],
) -> Result<(), AllocError>
    ensures { OnOk result (text.new.items ≡ text.old.items ++ items_json (space_json tables.now) spaces.now) }
{
    let Some((first, rest)) = spaces.split_first() else {
        return Ok(());
    };
    push_space(text, tables, *first)?;
    push_more_spaces(text, tables, rest)
}

/// Appends a list of namespaces.
#[tactic(auto, unfolding(crate::specs::Json::list_json))]
fn push_spaces(
    text: &mut Vec<u8>,
    tables: &SeenTables,
    spaces: &[SpaceId],
) -> Result<(), AllocError>
    ensures { OnOk result (text.new.items ≡ text.old.items ++ list_json (space_json tables.now) spaces.now) }
{
    text.extend_from_slice(b"[")?;
    push_space_items(text, tables, spaces)?;
    text.extend_from_slice(b"]")
}

/// Appends the name of a list of namespaces, and the list.
#[tactic(auto, unfolding(crate::specs::Json::under_name))]
pub(crate) fn push_named_spaces(
    text: &mut Vec<u8>,
    name: &[u8],
    tables: &SeenTables,
    spaces: &[SpaceId],
) -> Result<(), AllocError>
    ensures { OnOk result (text.new.items ≡ text.old.items ++ under_name name.now (list_json (space_json tables.now) spaces.now)) }
{
    text.extend_from_slice(name)?;
    push_spaces(text, tables, spaces)
}
