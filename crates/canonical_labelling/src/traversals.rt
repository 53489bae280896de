//! Connected tables, and the canonical traversals of them.

ghost use Rattle.std.specs.Prelude.{◌<◌, length};
ghost use Rattle.table_definitions.specs.Table.{IsTable};
ghost use Rattle.table_definitions.specs.Places.{IsConnected};

use crate::Start;
use gluing_table::Table;

/// A table that is known to be connected or empty.
#[derive(Clone, Copy)]
pub struct ConnectedTable<'a> {
    pub table: &'a Table,
    pub ghost is_table: { IsTable table.now },
    pub ghost connected: { ∥ IsConnected table.now ∥₁ },
}

/// A traversal that is to be made: a table that is known to be connected, and a start in it.
#[derive(Clone, Copy)]
pub struct Traversal<'a> {
    pub table: &'a Table,
    pub start: Start,
    pub ghost is_table: { IsTable table.now },
    pub ghost connected: { ∥ IsConnected table.now ∥₁ },
    pub ghost in_range: { start.tet < length table.now },
}
