//! The new facets of a move, and the images of old faces in them.

ghost use Rattle.std.specs.Prelude.{◌≡◌, ◌≢◌, ◌<◌, ◌≤◌, filter, find, not, ◌==◌, map, All};
ghost use Rattle.table_definitions.specs.Lists.{below, rank_without, substitute};
ghost use Rattle.table_definitions.specs.Permutation.{IsPermutationOfFour, identity};
ghost use Rattle.table_definitions.specs.Table.{max_tets, IsTable};
ghost use Rattle.table_definitions.specs.Relabelling.{gluing_under};
ghost use Rattle.move_definitions.specs.Moves as moves;
ghost use Rattle.move_laws.specs.Facets.{IsFacet, AreOldFacets};

use crate::cores::retained;
use crate::facet::{replace_label, vertex_of};
use crate::{Facet, Move};
use gluing_table::{Face, Glue, Table};
use perm_four::Perm4;

/// For each label the other ones, ascending.
const OTHERS: [[u8; 4]; 5] = [
    [1, 2, 3, 4],
    [0, 2, 3, 4],
    [0, 1, 3, 4],
    [0, 1, 2, 4],
    [0, 1, 2, 3],
];

/// A label of a vertex of a 4-simplex. Invariant: `number` is below 5.
#[derive(Clone, Copy)]
pub struct Label {
    pub number: u8,
    ghost one_of_five: { number < 5 },
}

/// A table, a move on it, and facets. Invariant: `facets` are those that the move removes.
#[derive(Clone, Copy)]
pub struct RemovedFacets<'a> {
    pub table: &'a Table,
    pub m: &'a Move,
    pub facets: &'a [Facet],
    ghost old: { AreOldFacets table.now m.now facets.now },
}

/// The labels other than `label`, ascending.
pub fn other_labels(label: Label) -> [u8; 4]
    ensures value { result ≡ filter (λ l. not (l == label.number)) (below 5) }
    ensures other { All (λ l. (l < 5) × (l ≢ label.number)) result }
{
    OTHERS[label.number as usize]
}

/// The number of tetrahedra of `table` that move `m` retains.
pub fn retained_in(table: &Table, m: &Move) -> u32
    ensures value { result ≡ moves.kept table.now m.now }
    ensures limited { result ≤ max_tets }
    ensures is_table { IsTable table.now }
{
    retained(table.len(), m.core)
}

/// The new facet of move `m` that lacks `label`.
pub fn new_facet(table: &Table, m: &Move, label: Label) -> Facet
    ensures { result ≡ moves.new_facet table.now m.now label.number }
{
    Facet {
        tet: retained_in(table, m) + label.number as u32,
        missing: label.number,
        labels: other_labels(label),
    }
}

/// The vertex of `facet` with label `label`, or with `missing` if `label` is the one that `facet` lacks.
fn vertex_next_to(facet: Facet, missing: u8, label: u8) -> u8
    ensures value { result ≡ moves.vertex_of facet (substitute facet.missing missing label) }
{
    vertex_of(&facet.labels, replace_label(label, facet.missing, missing))
}

/// The permutation that maps the vertices of `f` to those of `g`, label by label.
fn label_by_label(f: Facet, g: Facet) -> Perm4
    requires { IsPermutationOfFour (moves.label_by_label f g) }
    ensures { result ≡ moves.label_by_label f g }
{
    let [a, b, c, d] = f.labels;
    match Perm4::new(
        vertex_next_to(g, f.missing, a),
        vertex_next_to(g, f.missing, b),
        vertex_next_to(g, f.missing, c),
        vertex_next_to(g, f.missing, d),
    ) {
        Some(perm) => perm,
        None => unreachable!(),
    }
}

/// The map of facet `f` to the new facet of move `m` that lacks `label`, label by label, as a gluing.
pub fn glue_to_new(table: &Table, m: &Move, f: Facet, label: Label) -> Glue
    requires { IsFacet f }
    ensures { result ≡ moves.facet_gluing table.now m.now f label.number }
{
    let new = new_facet(table, m, label);
    Glue {
        tet: new.tet,
        perm: label_by_label(f, new),
    }
}

/// The image of the old facet `f` at its face opposite `label`, or `None` if that face is not on the boundary of the
/// moved region.
fn facet_image_after(table: &Table, m: &Move, f: Facet, label: u8) -> Option<Glue>
    requires { IsFacet f }
    ensures { result ≡ moves.facet_place_after table.now m.now f label }
{
    if label >= m.core.size() {
        return None;
    }
    let label = Label { number: label };
    Some(glue_to_new(table, m, f, label))
}

/// The number of tetrahedron `tet` after the tetrahedra of `facets` are removed.
pub fn closed_number(facets: &[Facet], tet: u32) -> u32
    ensures { result ≡ rank_without (map (λ f. f.tet) facets.now) tet }
{
    let before = facets.iter().filter(|f| f.tet < tet).count();
    (tet as usize).saturating_sub(before) as u32
}

/// The image of `tet`, a tetrahedron that the move retains.
fn retained_image_after(taken: RemovedFacets<'_>, tet: u32) -> Glue
    ensures { result ≡ moves.kept_place_after taken.entry.table.now taken.entry.m.now tet }
{
    Glue {
        tet: closed_number(taken.facets, tet),
        perm: Perm4::identity(),
    }
}

/// The facet of `facets` that is tetrahedron `tet`, or `None`.
pub fn facet_of(facets: &[Facet], tet: u32) -> Option<Facet>
    ensures { result ≡ find (λ f. f.tet == tet) facets.now }
{
    for facet in facets {
        if facet.tet == tet {
            return Some(*facet);
        }
    }
    None
}

/// The image, at face `x`, of its tetrahedron.
fn image_after(taken: RemovedFacets<'_>, x: Face) -> Option<Glue>
    ensures { result ≡ moves.place_after taken.entry.table.now taken.entry.m.now x }
{
    match facet_of(taken.facets, x.tet) {
        Some(f) => facet_image_after(taken.table, taken.m, f, f.labels[x.face as usize]),
        None => Some(retained_image_after(taken, x.tet)),
    }
}

/// The gluing `glue` carried by the images `s` and `r` of its two tetrahedra.
fn glue_under(s: Glue, r: Glue, glue: Glue) -> Glue
    ensures { result ≡ gluing_under s r glue }
{
    Glue {
        tet: r.tet,
        perm: r.perm.compose(glue.perm.compose(s.perm.inverse())),
    }
}

/// The gluing `glue` of face `x` after the move; `s` is the image of the tetrahedron of `x`.
pub fn moved_glue(taken: RemovedFacets<'_>, x: Face, s: Glue, glue: Glue) -> Option<Glue>
    ensures { result ≡ moves.moved_gluing taken.entry.table.now taken.entry.m.now x s glue }
{
    let r = image_after(taken, glue.other_side(x))?;
    Some(glue_under(s, r, glue))
}
