//! The rows of a component, renumbered by their indices in it.

ghost use Rattle.std.specs.Prelude.{◌≡◌, ◌<◌, ◌^◌, length, option_map, Contains, AllPairs, IfOk};
ghost use Rattle.table_definitions.specs.Table as gluings;
ghost use Rattle.table_definitions.specs.Table.{IsTable};
ghost use Rattle.component_definitions.specs.Parts as parts;
ghost use Rattle.component_definitions.specs.Parts.{IsPart, rows_of};
ghost use Rattle.component_signature.specs.Components.{row_of};

use gluing_table::{Face, Glue, Row, Table};
use std::alloc::{AllocError, Global};

/// The index of `tet` in the ascending list `numbers`.
fn place_in(numbers: &[u32], tet: u32) -> u32
    requires ascending { AllPairs (λ t u. t < u) numbers.now }
    requires limited { length numbers.now < 2 ^ 32 }
    requires there { Contains numbers.now tet }
    ensures { result ≡ parts.place_in numbers.now tet }
{
    match numbers.binary_search(&tet) {
        Ok(place) => place as u32,
        Err(_) => unreachable!(),
    }
}

/// The gluing of `face`, renumbered by `numbers`.
fn renumbered_glue(table: &Table, numbers: &[u32], face: Face) -> Option<Glue>
    requires table { IsTable table.now }
    requires part { IsPart table.now (record { rows = rows_of table.now numbers.now; numbers = numbers.now }) }
    requires there { Contains numbers.now face.tet }
    ensures { result ≡ option_map (parts.renumbered numbers.now) (gluings.glue table.now face) }
{
    match table.glue(face) {
        Some(glue) => Some(Glue {
            tet: place_in(numbers, glue.tet),
            perm: glue.perm,
        }),
        None => None,
    }
}

/// The row of `tet`, renumbered by `numbers`.
fn renumbered_row(table: &Table, numbers: &[u32], tet: u32) -> Row
    requires table { IsTable table.now }
    requires part { IsPart table.now (record { rows = rows_of table.now numbers.now; numbers = numbers.now }) }
    requires there { Contains numbers.now tet }
    ensures { result ≡ row_of table.now numbers.now tet }
{
    [
        renumbered_glue(table, numbers, Face { tet, face: 0 }),
        renumbered_glue(table, numbers, Face { tet, face: 1 }),
        renumbered_glue(table, numbers, Face { tet, face: 2 }),
        renumbered_glue(table, numbers, Face { tet, face: 3 }),
    ]
}

/// The rows of the tetrahedra `numbers`, which are a component of `table`, renumbered by their indices in `numbers`.
pub fn renumbered_rows(
    alloc: Global,
    table: &Table,
    numbers: &[u32],
) -> Result<Vec<Row>, AllocError>
    requires table { IsTable table.now }
    requires part { IsPart table.now (record { rows = rows_of table.now numbers.now; numbers = numbers.now }) }
    ensures { IfOk result (λ new. new.items ≡ rows_of table.now numbers.now) }
{
    let mut new = Vec::with_capacity(alloc, numbers.len())?;
    for tet in numbers {
        new.push(renumbered_row(table, numbers, *tet))?;
    }
    Ok(new)
}
