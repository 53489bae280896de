//! The connected components of a table.

ghost use Rattle.std.specs.Prelude.{IfOk, length};
ghost use Rattle.table_definitions.specs.Table.{IsTable};
ghost use Rattle.table_definitions.specs.Places.{SameComponent};
ghost use Rattle.table_definitions.specs.Classes.{IsNumbering};

use finite_walks::{Numbering, classes};
use gluing_table::{Row, dual_graph};
use out_of_memory::NoMemory;
use std::alloc::Global;

/// The component of each tetrahedron of `rows`, and the number of components, which are numbered by their least
/// tetrahedra.
pub fn components(alloc: Global, rows: &[Row]) -> Result<Numbering, NoMemory>
    requires { IsTable rows.now }
    ensures { IfOk result (λ r. IsNumbering (length rows.now) (SameComponent rows.now) r.classes.items r.count) }
{
    let neighbours = dual_graph(alloc, rows)?;
    let numbering = classes(alloc, &neighbours)?;
    Ok(numbering)
}
