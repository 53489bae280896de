//! The tables and moves of several calls.
use gluing_table::{Glue, Row, Table, write_table};
use out_of_memory::NoMemory;
use pachner_moves::{Core, Move};
use perm_four::Perm4;
use signature_codec::read_signature;
use skeleton::Skeleton;
use std::alloc::Global;
use std::process::Abort;
use std::test::Fail;

/// The gluing to tetrahedron `tet` by the permutation `word`.
pub fn by(tet: u32, word: &[u8]) -> Option<Glue> {
    match Perm4::from_word(word) {
        Some(perm) => Some(Glue { tet, perm }),
        None => None,
    }
}

/// The row of a tetrahedron without glued faces.
pub const BALL: Row = [None, None, None, None];

/// A row of the sphere of one tetrahedron, with gluings to tetrahedron `tet`.
pub fn sphere_row(tet: u32) -> Row {
    [
        by(tet, b"1023"),
        by(tet, b"1023"),
        by(tet, b"1230"),
        by(tet, b"3012"),
    ]
}

/// A row of the Gieseking manifold, which is non-orientable, with gluings to tetrahedron `tet`.
pub fn gieseking_row(tet: u32) -> Row {
    [
        by(tet, b"1203"),
        by(tet, b"2013"),
        by(tet, b"0231"),
        by(tet, b"0312"),
    ]
}

/// The row of one tetrahedron with an edge that is identified with its reverse.
pub fn reversed_row() -> Row {
    [by(0, b"1032"), by(0, b"1032"), None, None]
}

/// The complement of the figure-eight knot.
pub fn figure_eight() -> [Row; 2] {
    [
        [
            by(1, b"0123"),
            by(1, b"1203"),
            by(1, b"1032"),
            by(1, b"3021"),
        ],
        [
            by(0, b"0123"),
            by(0, b"1320"),
            by(0, b"2013"),
            by(0, b"1032"),
        ],
    ]
}

/// The table of `rows`.
pub fn table_of(rt: &impl Abort, alloc: Global, rows: &[Row]) -> Table {
    Table::from_rows(alloc, rows).ok().expect(rt, "a table")
}

/// The table of the signature `text`.
pub fn read_table(alloc: Global, text: &[u8]) -> Result<Table, Fail> {
    Ok(read_signature(alloc, text).ok().ok_or("no signature")?)
}

/// The skeleton of the table of `rows`.
pub fn skeleton_of(rt: &impl Abort, alloc: Global, rows: &[Row]) -> Skeleton {
    Skeleton::of(alloc, &table_of(rt, alloc, rows)).expect(rt, "memory")
}

/// The text of `table`.
pub fn text_of(alloc: Global, table: &Table) -> Result<Vec<u8>, NoMemory> {
    let mut text = Vec::new(alloc);
    write_table(alloc, table, &mut text)?;
    Ok(text)
}

/// The move at tetrahedron `tet` whose core's vertices are the bits of `mask`.
pub fn move_at(rt: &impl Abort, tet: u32, mask: u8) -> Move {
    let core = Core::new(mask).expect(rt, "a core");
    Move { tet, core }
}

/// A move by its tetrahedron, and for each vertex whether it is in the core.
pub fn tet_and_core(m: Move) -> (u32, [bool; 4]) {
    let core = m.core;
    (m.tet, [core.has(0), core.has(1), core.has(2), core.has(3)])
}
