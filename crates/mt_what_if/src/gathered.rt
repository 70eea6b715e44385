//! The rows of all tables, and where they come from.
ghost use Rattle.std.specs.Prelude.{◌≡◌, ◌++◌, IfOk, OnOk, IsOkUnless};
ghost use Rattle.std.specs.Option.{option_to_list};
ghost use Rattle.mt_what_if.specs.Gathered.{rows_in_table, rows_gathered};
ghost use Rattle.mt_what_if.specs.TableRows.{row_of_line};

use crate::table_row::row_of_line;
use mt_import::host_mount::HostMount;
use mt_mounts::mount::SpaceId;
use mt_questions::table::NamedTable;
use mt_skel::fault::Fault;
use mt_world::misfit::Misfit;
use mt_world::row::TableRow;
use std::alloc::Global;

/// A row of a table: both counted from 0.
#[derive(Clone, Copy, PartialEq, Eq, Debug)]
pub struct RowPlace {
    /// The table.
    pub table: usize,
    /// Its row.
    pub row: usize,
}

/// A row that a world has not as it is told.
#[derive(Clone, Copy, PartialEq, Eq, Debug)]
pub struct Missed {
    /// Which row it is.
    pub origin: RowPlace,
    /// Why, or `None` where a path of it cannot be read.
    pub why: Option<Misfit>,
    /// Whether its mount is there, and private.
    pub is_private: bool,
}

/// The rows of tables.
#[derive(Drop)]
pub(crate) struct Gathered {
    /// The rows.
    pub(crate) rows: Vec<TableRow>,
    /// Which ones they are, in the same order.
    pub(crate) origins: Vec<RowPlace>,
    /// Those of which a path cannot be read.
    pub(crate) missed: Vec<Missed>,
}

impl Gathered {
    /// Adds a row of the table of a number.
    fn push_row(
        &mut self,
        alloc: Global,
        space: SpaceId,
        origin: RowPlace,
        mount: &HostMount,
    ) -> Result<(), Fault>
        ensures rows { OnOk result (self.new.rows.items ≡ self.old.rows.items ++ option_to_list (row_of_line space mount.now)) }
        ensures memory { IsOkUnless result Fault.NoMemory }
    {
        let Some(row) = row_of_line(alloc, space, mount)? else {
            self.missed.push(Missed {
                origin,
                why: None,
                is_private: false,
            })?;
            return Ok(());
        };
        self.rows.push(row)?;
        self.origins.push(origin)?;
        Ok(())
    }

    /// Adds the rows of the table of a number.
    fn push_rows(
        &mut self,
        alloc: Global,
        space: SpaceId,
        table: usize,
        rows: &[HostMount],
    ) -> Result<(), Fault>
        ensures rows { OnOk result (self.new.rows.items ≡ self.old.rows.items ++ rows_in_table space rows.now) }
        ensures memory { IsOkUnless result Fault.NoMemory }
    {
        'rows: for (row, mount) in rows.iter().enumerate() {
            self.push_row(alloc, space, RowPlace { table, row }, mount)?;
        }
        Ok(())
    }
}

/// The rows of these tables, each with the number of its table, from 1. Refused as `NoMemory` alone.
pub(crate) fn gather(alloc: Global, tables: &[NamedTable]) -> Result<Gathered, Fault>
    ensures rows { IfOk result (λ gathered. gathered.rows.items ≡ rows_gathered 1 tables.now) }
    ensures memory { IsOkUnless result Fault.NoMemory }
{
    let mut gathered = Gathered {
        rows: Vec::new(alloc),
        origins: Vec::new(alloc),
        missed: Vec::new(alloc),
    };
    'tables: for (table, named) in tables.iter().enumerate() {
        gathered.push_rows(alloc, table as u64 + 1, table, &named.rows)?;
    }
    Ok(gathered)
}
