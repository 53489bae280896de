//! Plays moves, and takes them back.

ghost use Rattle.std.specs.Prelude.{◌≡◌, ◌<◌, ◌≤◌, ◌+◌, ◌-◌, [], length, map, not, nat_lt, All, IfOk, IfErr, OnOk, OnErr};
ghost use Rattle.std.specs.List.{slice_index_or};
ghost use Rattle.table_definitions.specs.Table.{max_tets, IsTable};
ghost use Rattle.move_definitions.specs.Moves as moves;
ghost use Rattle.move_definitions.specs.Moves.{Plays, IsCore};
ghost use Rattle.move_definitions.specs.Undos as undos;
ghost use Rattle.move_definitions.specs.Undos.{CanTakeBack, IsTakenBack};
ghost use Rattle.move_laws.specs.Faults.{IsPattern};
ghost use Rattle.move_laws.specs.Facets.{IsFacet, outer_gluing, fresh_gluing, put_row, put_rows};

use crate::cores::{inverse_on, retained};
use crate::facet::{glue_opposite, vertex_of};
use crate::facets::{
    Label, RemovedFacets, glue_to_new, moved_glue, new_facet, other_labels, retained_in,
};
use crate::legality::is_of_facet;
use crate::{Facet, Move, MoveFault, Pattern, legal};
use arrayvec::ArrayVec;
use gluing_table::{Face, Glue, MAX_TETS, Row, Table};
use std::marker::Model;

/// The record that takes a move back: the move, the number of tetrahedra before it, and the removed rows with their
/// numbers, ascending. Invariant: `tets` is at most `MAX_TETS`.
#[derive(Drop)]
pub struct Undo {
    played: Move,
    tets: u32,
    rows: ArrayVec<(u32, Row), 4>,
}

impl Model for Undo {
    ghost use Rattle.move_definitions.specs.Undos as undos;
    ghost use Rattle.std.specs.Prelude.{◌≤◌};
    ghost use Rattle.table_definitions.specs.Table.{max_tets};

    ghost Value = { undos.Undo };

    ghost view = { λ u. record { played = u.played; tets = u.tets; rows = u.rows.items } };

    ghost invariant = { λ u. u.tets ≤ max_tets };
}

/// The gluing of the face of a new facet that is the image of the face of `old` opposite `label`.
fn outer_glue(taken: RemovedFacets<'_>, old: Facet, label: Label) -> Option<Glue>
    requires { IsFacet old }
    ensures { result ≡ outer_gluing taken.entry.table.now taken.entry.m.now old label.number }
{
    let glue = glue_opposite(taken.table, old, label.number)?;
    let face = Face {
        tet: old.tet,
        face: vertex_of(&old.labels, label.number),
    };
    moved_glue(
        taken,
        face,
        glue_to_new(taken.table, taken.m, old, label),
        glue,
    )
}

/// The gluing of the face opposite `label` of the new facet that lacks `own`, which is glued to another new facet.
fn inner_glue(table: &Table, m: &Move, own: Label, label: Label) -> Glue
    ensures { result ≡ moves.facet_gluing table.now m.now (moves.new_facet table.now m.now own.number) label.number }
{
    glue_to_new(table, m, new_facet(table, m, own), label)
}

/// The gluing of the face opposite `label` of the new facet that lacks `own`.
fn fresh_glue(taken: RemovedFacets<'_>, own: Label, label: Label) -> Option<Glue>
    ensures { result ≡ fresh_gluing taken.entry.table.now taken.entry.m.now own.number label.number }
{
    let m = taken.m;
    let size = m.core_size();
    if label.number < size {
        return Some(inner_glue(taken.table, m, own, label));
    }
    outer_glue(taken, taken.facets[(label.number - size) as usize], own)
}

/// The row of the new facet that lacks `own`.
fn fresh_row(taken: RemovedFacets<'_>, own: Label) -> Row
    ensures { result ≡ put_row taken.entry.table.now taken.entry.m.now own.number }
{
    let [a, b, c, d] = other_labels(own);
    [
        fresh_glue(taken, own, Label { number: a }),
        fresh_glue(taken, own, Label { number: b }),
        fresh_glue(taken, own, Label { number: c }),
        fresh_glue(taken, own, Label { number: d }),
    ]
}

/// The rows of the new facets of the move `taken.m`, with their numbers.
fn fresh_rows(taken: RemovedFacets<'_>) -> ArrayVec<(u32, Row), 4>
    ensures { result.items ≡ put_rows taken.entry.table.now taken.entry.m.now }
{
    let mut rows = ArrayVec::new();
    let m = taken.m;
    let first = retained_in(taken.table, m);
    for label in 0..m.core_size() {
        rows.push((
            first + label as u32,
            fresh_row(taken, Label { number: label }),
        ));
    }
    rows
}

/// The numbers of the tetrahedra of `taken.facets`, ascending.
fn taken_numbers(taken: RemovedFacets<'_>) -> ArrayVec<u32, 4>
    ensures { result.items ≡ undos.taken_numbers taken.entry.table.now taken.entry.m.now }
{
    let mut numbers = ArrayVec::new();
    for tet in 0..taken.table.len() {
        if is_of_facet(taken.facets, tet) {
            numbers.push(tet);
        }
    }
    numbers
}

/// The row of tetrahedron `tet`.
fn row_of(table: &Table, tet: u32) -> Row
    requires { tet < length table.now }
    ensures { result ≡ slice_index_or table.now tet [] }
{
    let row = &table.rows()[tet as usize];
    [row[0], row[1], row[2], row[3]]
}

/// The rows of the tetrahedra `numbers`, with their numbers.
fn saved_rows(table: &Table, numbers: &[u32]) -> ArrayVec<(u32, Row), 4>
    requires limited { length numbers.now ≤ 4 }
    requires in_range { All (λ t. t < length table.now) numbers.now }
    ensures { result.items ≡ map (λ t. (t, slice_index_or table.now t [])) numbers.now }
{
    let mut rows = ArrayVec::new();
    for number in numbers {
        rows.push((*number, row_of(table, *number)));
    }
    rows
}

/// The tetrahedra that a move removes, the rows that it adds, and the record that takes it back.
#[derive(Drop)]
struct MoveReplacement {
    removed: ArrayVec<u32, 4>,
    fresh: ArrayVec<(u32, Row), 4>,
    undo: Undo,
}

/// What the move `taken.m` removes and adds.
fn exchange_of(taken: RemovedFacets<'_>) -> MoveReplacement
    ensures removed { result.removed.items ≡ undos.taken_numbers taken.entry.table.now taken.entry.m.now }
    ensures fresh { result.fresh.items ≡ put_rows taken.entry.table.now taken.entry.m.now }
    ensures undo { result.undo ≡ undos.undo_of taken.entry.table.now taken.entry.m.now }
{
    let removed = taken_numbers(taken);
    let undo = Undo {
        played: *taken.m,
        tets: taken.table.len(),
        rows: saved_rows(taken.table, &removed),
    };
    MoveReplacement {
        removed,
        fresh: fresh_rows(taken),
        undo,
    }
}

/// Whether `table` has at most `MAX_TETS` tetrahedra after move `m`.
pub fn keeps_limit(table: &Table, m: Move) -> bool
    ensures value { result ≡ not (nat_lt max_tets (moves.new_length table.now m)) }
    ensures core { IsCore m.core }
    ensures is_table { IsTable table.now }
{
    retained_in(table, &m) + m.core.size() as u32 <= MAX_TETS
}

/// Plays the legal move `m`, whose facets are `pattern`, and returns the record that takes it back. Fails with
/// `TooMany` if more than `MAX_TETS` tetrahedra would result, and then leaves `table` unchanged.
pub fn apply_legal(table: &mut Table, m: Move, pattern: &Pattern) -> Result<Undo, MoveFault>
    requires { IsPattern table.old m pattern.now.facets.items }
    ensures moved { OnOk result (Plays table.old m table.new) }
    ensures undo { IfOk result (λ u. u ≡ undos.undo_of table.old m) }
    ensures core { IsCore m.core }
    ensures fault { IfErr result (λ e. moves.play_fault table.old m ≡ Some e) }
    ensures left { OnErr result (table.new ≡ table.old) }
{
    if !keeps_limit(table, m) {
        return Err(MoveFault::TooMany);
    }
    let MoveReplacement {
        removed,
        fresh,
        undo,
    } = exchange_of(RemovedFacets {
        table: &*table,
        m: &m,
        facets: &pattern.facets,
    });
    table.replace(&removed, &fresh);
    Ok(undo)
}

/// Plays move `m`, and returns the record that takes it back. Fails as `legal`, then with `TooMany` if more than
/// `MAX_TETS` tetrahedra would result; `table` is then unchanged.
pub fn apply(table: &mut Table, m: Move) -> Result<Undo, MoveFault>
    ensures moved { OnOk result (Plays table.old m table.new) }
    ensures undo { IfOk result (λ u. u ≡ undos.undo_of table.old m) }
    ensures core { IsCore m.core }
    ensures fault { IfErr result (λ e. moves.play_fault table.old m ≡ Some e) }
    ensures left { OnErr result (table.new ≡ table.old) }
{
    let pattern = legal(table, m)?;
    apply_legal(table, m, &pattern)
}

/// The inverse, up to relabelling, of the move recorded in `undo`, to be played on the table that resulted from it.
pub fn inverse_move(undo: &Undo) -> Move
    ensures { result ≡ moves.inverse_move undo.now.tets undo.now.played }
{
    inverse_on(undo.tets, undo.played)
}

/// The numbers of the tetrahedra that the move recorded in `undo` added.
fn put_numbers(undo: &Undo) -> ArrayVec<u32, 4>
    ensures { result.items ≡ (undos.back_exchange undo.now).removed }
{
    let mut numbers = ArrayVec::new();
    let first = undo.retained_by_move();
    for label in 0..undo.played.core.size() {
        numbers.push(first + label as u32);
    }
    numbers
}

impl Undo {
    /// The number of tetrahedra that the move retained.
    fn retained_by_move(&self) -> u32
        ensures value { result ≡ self.now.tets - (5 - length self.now.played.core) }
        ensures limited { result ≤ max_tets }
    {
        retained(self.tets, self.played.core)
    }
}

/// Takes the recorded move back, so that `table` is what it was before the move, row for row.
pub fn take_back(table: &mut Table, undo: &Undo)
    requires { CanTakeBack table.old undo.now }
    ensures former { table.new ≡ undos.former table.old undo.now }
    ensures row_for_row { IsTakenBack table.old undo.now table.new }
{
    let removed = put_numbers(undo);
    table.replace(&removed, &undo.rows);
}
