//! The mounts that show a directory and get nothing of what is made in it, as JSON.
ghost use Rattle.std.specs.Prelude.{◌≡◌, ◌++◌, codes, OnOk};
ghost use Rattle.std.specs.List.{flat_map};
ghost use Rattle.mt_questions.specs.Json.{items_json, list_json, under_name, why_json, elsewhere_json, joining_json, how_json, ends_json, share_json, join_json, reason_json, apart_json};

use crate::copy_json::push_spot;
use crate::json_values::{push_named, push_named_bool, push_named_number};
use crate::remedy::{ApartMount, Elsewhere, Join, Joining};
use crate::table::SeenTables;
use crate::wording::{push_after, push_between};
use mt_reach::reason::WhyNot;
use std::alloc::AllocError;

/// Why nothing comes to a mount.
fn why_json(why: WhyNot) -> &'static [u8]
    ensures { result.now ≡ why_json why }
{
    match why {
        WhyNot::SourcePrivate => b"\"source-private\"",
        WhyNot::SourceUnbindable => b"\"source-unbindable\"",
        WhyNot::StartsInSlave => b"\"starts-in-slave\"",
        WhyNot::Siblings(_) => b"\"siblings\"",
        WhyNot::OnlySlave => b"\"only-slave\"",
        WhyNot::Private => b"\"private\"",
        WhyNot::Unbindable => b"\"unbindable\"",
        WhyNot::OtherGroup => b"\"other-group\"",
    }
}

/// Appends where else the mount could be made.
#[tactic(auto, unfolding(crate::specs::Json::elsewhere_json))]
fn push_elsewhere(text: &mut Vec<u8>, elsewhere: Elsewhere) -> Result<(), AllocError>
    ensures { OnOk result (text.new.items ≡ text.old.items ++ elsewhere_json elsewhere) }
{
    match elsewhere {
        Elsewhere::Both(id) => push_between(
            text,
            b",\"made-on\":",
            id,
            b",\"comes-to\":\"both\",\"in-front\":null",
        ),
        Elsewhere::Alone(id) => push_between(
            text,
            b",\"made-on\":",
            id,
            b",\"comes-to\":\"this\",\"in-front\":null",
        ),
        Elsewhere::InFront(id) => push_after(
            text,
            b",\"made-on\":null,\"comes-to\":null,\"in-front\":",
            id,
        ),
        Elsewhere::Nowhere => text.extend_from_slice(
            b",\"made-on\":null,\"comes-to\":null,\"in-front\":null",
        ),
    }
}

/// How a mount is made anew.
fn joining_json(how: Joining) -> &'static [u8]
    ensures { result.now ≡ joining_json how }
{
    match how {
        Joining::Unneeded => b"null",
        Joining::Bind => b"\"bind\"",
        Joining::Anew => b"\"anew\"",
        Joining::Again => b"\"again\"",
    }
}

/// Appends how one of two mounts is made anew.
#[tactic(auto, unfolding(crate::specs::Json::how_json))]
fn push_how(text: &mut Vec<u8>, how: Joining) -> Result<(), AllocError>
    ensures { OnOk result (text.new.items ≡ text.old.items ++ how_json how) }
{
    push_named(text, b",\"join\":{\"how\":", joining_json(how))
}

/// Appends which mount would be made anew from which.
#[tactic(auto, unfolding(crate::specs::Json::ends_json))]
fn push_ends(text: &mut Vec<u8>, join: Join) -> Result<(), AllocError>
    ensures { OnOk result (text.new.items ≡ text.old.items ++ ends_json join) }
{
    push_named_number(text, b",\"from\":", join.from)?;
    push_named_number(text, b",\"to\":", join.to)?;
    Ok(())
}

/// Appends whether a mount is made shared before.
#[tactic(auto, unfolding(crate::specs::Json::share_json))]
fn push_share(text: &mut Vec<u8>, shares: bool) -> Result<(), AllocError>
    ensures { OnOk result (text.new.items ≡ text.old.items ++ share_json shares) }
{
    push_named_bool(text, b",\"share\":", shares)
}

/// Appends how two mounts would be joined.
#[tactic(auto, unfolding(crate::specs::Json::join_json))]
fn push_join(text: &mut Vec<u8>, join: Join) -> Result<(), AllocError>
    ensures { OnOk result (text.new.items ≡ text.old.items ++ join_json join) }
{
    push_how(text, join.how)?;
    push_ends(text, join)?;
    push_share(text, join.shares)?;
    text.extend_from_slice(b"}")
}

/// Appends why nothing comes to a mount.
#[tactic(auto, unfolding(crate::specs::Json::reason_json))]
fn push_reason(text: &mut Vec<u8>, why: WhyNot) -> Result<(), AllocError>
    ensures { OnOk result (text.new.items ≡ text.old.items ++ reason_json why) }
{
    push_named(text, b",\"reason\":", why_json(why))
}

/// Appends a mount to which nothing comes.
#[tactic(auto, unfolding(crate::specs::Json::apart_json))]
fn push_apart(text: &mut Vec<u8>, tables: &SeenTables, apart: &ApartMount) -> Result<(), AllocError>
    ensures { OnOk result (text.new.items ≡ text.old.items ++ apart_json tables.now apart.now) }
{
    push_spot(text, tables, &apart.spot)?;
    push_reason(text, apart.why)?;
    push_elsewhere(text, apart.elsewhere)?;
    push_join(text, apart.join)?;
    text.extend_from_slice(b"}")
}

/// Appends further mounts to which nothing comes, each behind a comma.
fn push_more_apart(
    text: &mut Vec<u8>,
    tables: &SeenTables,
    apart: &[ApartMount],
) -> Result<(), AllocError>
    ensures { OnOk result (text.new.items ≡ text.old.items ++ flat_map (λ y. codes "," ++ apart_json tables.now y) apart.now) }
{
    'apart: for one in apart {
        text.extend_from_slice(b",")?;
        push_apart(text, tables, one)?;
    }
    Ok(())
}

/// Appends mounts to which nothing comes between commas.
fn push_apart_items(
    text: &mut Vec<u8>,
    tables: &SeenTables,
    apart: &[ApartMount],
) -> Result<(), AllocError>
    ensures { OnOk result (text.new.items ≡ text.old.items ++ items_json (apart_json tables.now) apart.now) }
{
    let Some((first, rest)) = apart.split_first() else {
        return Ok(());
    };
    push_apart(text, tables, first)?;
    push_more_apart(text, tables, rest)
}

/// Appends a list of mounts to which nothing comes.
#[tactic(auto, unfolding(crate::specs::Json::list_json))]
fn push_all_apart(
    text: &mut Vec<u8>,
    tables: &SeenTables,
    apart: &[ApartMount],
) -> Result<(), AllocError>
    ensures { OnOk result (text.new.items ≡ text.old.items ++ list_json (apart_json tables.now) apart.now) }
{
    text.extend_from_slice(b"[")?;
    push_apart_items(text, tables, apart)?;
    text.extend_from_slice(b"]")
}

/// Appends the name of a list of mounts to which nothing comes, and the list.
#[tactic(auto, unfolding(crate::specs::Json::under_name))]
pub(crate) fn push_named_apart(
    text: &mut Vec<u8>,
    name: &[u8],
    tables: &SeenTables,
    apart: &[ApartMount],
) -> Result<(), AllocError>
    ensures { OnOk result (text.new.items ≡ text.old.items ++ under_name name.now (list_json (apart_json tables.now) apart.now)) }
{
    text.extend_from_slice(name)?;
    push_all_apart(text, tables, apart)
}
