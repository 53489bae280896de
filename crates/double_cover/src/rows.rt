//! The rows of the cover.

ghost use Rattle.std.specs.Prelude.{◌≡◌, ◌*◌, ◌<◌, ◌≤◌, length, option_map, IfOk};
ghost use Rattle.table_definitions.specs.Table as gluings;
ghost use Rattle.table_definitions.specs.Table.{max_tets, IsTable};
ghost use Rattle.cover_definitions.specs.Cover as definition;

use crate::sheets::{Sheet, Sheets};
use gluing_table::{Face, Glue, Row, Table};
use out_of_memory::NoMemory;
use std::alloc::{AllocError, Global};

/// The sheet across `glue` from `sheet`: the same one if the gluing is odd, otherwise the other one.
fn sheet_across(glue: Glue, sheet: Sheet) -> Sheet
    ensures { result.number ≡ definition.sheet_across glue sheet.number }
{
    if glue.perm.is_odd() {
        sheet
    } else {
        sheet.other()
    }
}

/// The gluing of the cover over `glue` that starts on `sheet`.
fn lift_glue(sheets: Sheets, sheet: Sheet, glue: Glue) -> Glue
    requires { glue.tet < sheets.tets }
    ensures { result ≡ definition.lifted sheets.tets sheet.number glue }
{
    Glue {
        tet: sheets.above(glue.tet, sheet_across(glue, sheet)),
        perm: glue.perm,
    }
}

/// The gluing of `face` of the cover.
fn cover_glue(table: &Table, face: Face) -> Option<Glue>
    requires { face.tet < 2 * length table.now }
    ensures value { result ≡ option_map
        (definition.lifted (length table.now) (definition.sheet (length table.now) face.tet))
        (gluings.glue table.now (definition.face_below (length table.now) face)) }
    ensures is_table { IsTable table.now }
{
    let sheets = Sheets { tets: table.len() };
    let below = Face {
        tet: sheets.over(face.tet),
        face: face.face,
    };
    match table.glue(below) {
        Some(glue) => Some(lift_glue(sheets, sheets.sheet(face.tet), glue)),
        None => None,
    }
}

/// The row of tetrahedron `tet` of the cover.
fn cover_row(table: &Table, tet: u32) -> Row
    requires { tet < 2 * length table.now }
    ensures { result ≡ definition.cover_row table.now tet }
{
    [
        cover_glue(table, Face { tet, face: 0 }),
        cover_glue(table, Face { tet, face: 1 }),
        cover_glue(table, Face { tet, face: 2 }),
        cover_glue(table, Face { tet, face: 3 }),
    ]
}

/// The rows of the cover of `table`.
fn cover_rows(alloc: Global, table: &Table) -> Result<Vec<Row>, AllocError>
    ensures rows { IfOk result (λ rows. rows.items ≡ definition.cover table.now) }
    ensures is_table { IsTable table.now }
{
    let count = 2 * table.len();
    let mut rows = Vec::with_capacity(alloc, count as usize)?;
    for tet in 0..count {
        rows.push(cover_row(table, tet))?;
    }
    Ok(rows)
}

/// The cover of `table`, which has at most `MAX_TETS` tetrahedra.
pub fn cover_table(alloc: Global, table: &Table) -> Result<Table, NoMemory>
    requires { 2 * length table.now ≤ max_tets }
    ensures { IfOk result (λ cover. cover ≡ definition.cover table.now) }
{
    let rows = cover_rows(alloc, table)?;
    let cover = Table::from_sound_rows(alloc, rows)?;
    Ok(cover)
}
