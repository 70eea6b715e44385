//! The tables of namespaces, and what people call those.
ghost use Rattle.std.specs.Prelude.{◌≡◌, ◌++◌, map, IfOk, OnOk, IsOkUnless};
ghost use Rattle.std.specs.List.{filter, flat_map};
ghost use Rattle.mt_questions.specs.Tables.{name_of_space, called_name, is_of_space, rows_in_space, rows_by_space};

use mt_import::host_mount::HostMount;
use mt_mounts::mount::SpaceId;
use mt_reach::row::SeenRow;
use mt_reach::rows::SeenRows;
use mt_reach::text::SeenText;
use mt_skel::fault::Fault;
use std::alloc::Global;
use std::marker::Model;

/// The table of a namespace.
#[derive(Drop)]
pub struct NamedTable {
    /// What people call the namespace: the base name of the table's file, or the number of a process and its program with a space
    /// between them.
    pub name: Vec<u8>,
    /// What its lines tell, in their order.
    pub rows: Vec<HostMount>,
    /// Whether its namespace is foreign: its user namespace is another one than that of the first table (user_namespaces(7)).
    pub is_foreign: bool,
}

impl Model for NamedTable {
    ghost use Rattle.mt_questions.specs.Tables.{ToldTable};

    ghost Value = { ToldTable };

    ghost view = { λ t. record { name = t.name.items; rows = t.rows.items; is_foreign = t.is_foreign } };
}

/// A namespace, and what people call it.
#[derive(Drop)]
pub struct NamedSpace {
    /// Its number, by which rows tell that they are its own.
    pub space: SpaceId,
    /// What people call it; the number itself where it has no name.
    pub name: SeenText,
}

/// The rows of all tables, and the namespaces.
#[derive(Drop)]
pub struct SeenTables {
    /// The rows of all tables.
    pub rows: SeenRows,
    /// The namespaces in their order.
    pub names: Vec<NamedSpace>,
    /// Whether these are all namespaces that there are.
    pub complete: bool,
}

impl Model for SeenTables {
    ghost use Rattle.mt_questions.specs.Tables.{SeenView};

    ghost Value = { SeenView };

    ghost view = { λ t. record { rows = t.rows; names = t.names.items; complete = t.complete } };
}

/// Appends the rows of a namespace, by rising ID. Fails for want of memory alone.
fn push_of_space<'a>(
    rows: &'a SeenRows,
    space: SpaceId,
    found: &mut Vec<&'a SeenRow>,
) -> Result<(), Fault>
    ensures found { OnOk result (map (λ row. row.now) found.new.items ≡ map (λ row. row.now) found.old.items ++ filter (is_of_space space) rows.now) }
    ensures memory { IsOkUnless result Fault.NoMemory }
{
    'rows: for row in rows.rows() {
        if row.space == space {
            found.push(row)?;
        }
    }
    Ok(())
}

/// What people call one of some namespaces; empty where it is not among them.
fn name_of_space(names: &[NamedSpace], space: SpaceId) -> &[u8]
    ensures { result.now ≡ name_of_space names.now space }
{
    'names: for name in names {
        if name.space == space {
            return name.name.bytes();
        }
    }
    b""
}

/// The rows of namespaces, those of each together, by rising ID. Refused as `NoMemory` alone.
fn rows_in_spaces<'a>(
    alloc: Global,
    rows: &'a SeenRows,
    names: &[NamedSpace],
) -> Result<Vec<&'a SeenRow>, Fault>
    ensures rows { IfOk result (λ found. map (λ row. row.now) found.items ≡ flat_map (rows_in_space rows.now) names.now) }
    ensures memory { IsOkUnless result Fault.NoMemory }
{
    let mut found = Vec::new(alloc);
    'names: for name in names {
        push_of_space(rows, name.space, &mut found)?;
    }
    Ok(found)
}

impl SeenTables {
    /// What people call a namespace; empty where that is not among these.
    pub fn called_name(&self, space: SpaceId) -> &[u8]
        ensures { result.now ≡ called_name self.now space }
    {
        name_of_space(self.names.as_slice(), space)
    }

    /// The rows of all namespaces, those of each together, by rising ID. Refused as `NoMemory` alone.
    pub fn rows_by_space(&self, alloc: Global) -> Result<Vec<&SeenRow>, Fault>
        ensures rows { IfOk result (λ found. map (λ row. row.now) found.items ≡ rows_by_space self.now) }
        ensures memory { IsOkUnless result Fault.NoMemory }
    {
        rows_in_spaces(alloc, &self.rows, self.names.as_slice())
    }
}
