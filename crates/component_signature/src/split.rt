//! Splits a table into its connected components.

ghost use Rattle.std.specs.Prelude.{◌≡◌, ◌<◌, ◌^◌, length, IfOk, OnOk};
ghost use Rattle.table_definitions.specs.Table.{IsTable};
ghost use Rattle.table_definitions.specs.Classes.{members};
ghost use Rattle.component_definitions.specs.Parts.{IsPart, AreParts};
ghost use Rattle.component_signature.specs.Components as components;

use crate::components::components;
use crate::renumbered::renumbered_rows;
use gluing_table::Table;
use out_of_memory::NoMemory;
use std::alloc::{AllocError, Global};
use std::marker::Model;

/// A connected component as a table of its own, and the numbers of its tetrahedra in the whole table, ascending.
#[derive(Drop)]
pub struct Part {
    pub table: Table,
    pub numbers: Vec<u32>,
}

impl Model for Part {
    ghost use Rattle.component_definitions.specs.Parts as definition;

    ghost Value = { definition.Part };

    ghost view = { λ p. record { rows = p.table; numbers = p.numbers.items } };
}

/// The tetrahedra of component `class`, ascending.
fn members_of(alloc: Global, classes: &[u32], class: u32) -> Result<Vec<u32>, AllocError>
    requires { length classes.now < 2 ^ 32 }
    ensures { IfOk result (λ numbers. numbers.items ≡ members classes.now class) }
{
    let mut members = Vec::new(alloc);
    let count = classes.len() as u32;
    for tet in 0..count {
        if classes[tet as usize] == class {
            members.push(tet)?;
        }
    }
    Ok(members)
}

/// Component `class` as a table of its own.
fn part_of(alloc: Global, table: &Table, classes: &[u32], class: u32) -> Result<Part, NoMemory>
    requires table { IsTable table.now }
    requires part { IsPart table.now (components.part_of table.now classes.now class) }
    requires limited { length classes.now < 2 ^ 32 }
    ensures { IfOk result (λ part. part ≡ components.part_of table.now classes.now class) }
{
    let numbers = members_of(alloc, classes, class)?;
    let rows = renumbered_rows(alloc, table, &numbers)?;
    let table = Table::from_sound_rows(alloc, rows)?;
    Ok(Part { table, numbers })
}

/// The connected components of `table`, ascending by their least tetrahedra.
pub fn parts(alloc: Global, table: &Table) -> Result<Vec<Part>, NoMemory>
    ensures parts { IfOk result (λ parts. AreParts table.now parts.items) }
    ensures is_table { OnOk result (IsTable table.now) }
{
    let components = components(alloc, table.rows())?;
    let mut parts = Vec::new(alloc);
    for component in 0..components.count {
        let part = part_of(alloc, table, &components.classes, component)?;
        parts.push(part)?;
    }
    Ok(parts)
}
