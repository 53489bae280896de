//! Facets of a 4-simplex, as tetrahedra of a table.

ghost use Rattle.std.specs.Prelude.{◌≡◌, ◌<◌, ◌≤◌, map, slice_index_or, None};
ghost use Rattle.table_definitions.specs.Lists.{substitute};
ghost use Rattle.table_definitions.specs.Permutation.{image, preimage, compose};
ghost use Rattle.table_definitions.specs.Table as gluings;
ghost use Rattle.table_definitions.specs.Table.{IsTable};
ghost use Rattle.move_definitions.specs.Moves as moves;

use crate::Move;
use gluing_table::{Glue, Row, Table};
use perm_four::Perm4;
use std::marker::Model;

/// A tetrahedron as the facet of a 4-simplex that lacks the label `missing`; `labels` has the label of each of its
/// vertices.
#[derive(Clone, Copy, Default)]
pub struct Facet {
    pub tet: u32,
    pub missing: u8,
    pub labels: [u8; 4],
}

impl Model for Facet {
    ghost use Rattle.move_definitions.specs.Moves as moves;

    ghost Value = { moves.Facet };

    ghost view = { λ f. record { tet = f.tet; missing = f.missing; labels = f.labels } };

    ghost inverse = { λ f. record { tet = f.tet; missing = f.missing; labels = f.labels } };
}

/// The images of `perm`.
fn images_of(perm: Perm4) -> [u8; 4]
    ensures { result ≡ perm }
{
    [perm.image(0), perm.image(1), perm.image(2), perm.image(3)]
}

/// The tetrahedron of move `m` as a facet, which lacks label 4.
pub fn own_facet(m: Move) -> Facet
    ensures { result ≡ moves.own_facet m }
{
    Facet {
        tet: m.tet,
        missing: 4,
        labels: images_of(m.core.labels()),
    }
}

/// The vertex with label `label`, or 4 if there is none.
#[tactic(auto, unfolding(table_definitions::specs::Permutation::preimage))]
pub fn vertex_of(labels: &[u8; 4], label: u8) -> u8
    ensures value { result ≡ preimage labels.now label }
    ensures in_range { result ≤ 4 }
{
    labels.iter().take_while(|l| **l != label).count() as u8
}

/// The gluing of the face opposite the vertex with label `label`. `None` if it is a boundary face, no vertex has the
/// label, or the table has no such tetrahedron.
pub fn glue_opposite(table: &Table, facet: Facet, label: u8) -> Option<Glue>
    ensures value { result ≡ gluings.glue table.now (moves.opposite facet label) }
    ensures is_table { IsTable table.now }
{
    let rows = table.rows();
    let tet = facet.tet as usize;
    if tet >= rows.len() {
        return None;
    }
    glue_in(&rows[tet], vertex_of(&facet.labels, label))
}

/// The gluing of face `face` of `row`, or `None` if there is no such face.
fn glue_in(row: &Row, face: u8) -> Option<Glue>
    ensures { result ≡ slice_index_or row.now face None }
{
    if face < 4 { row[face as usize] } else { None }
}

/// The label of vertex `v` of the tetrahedron across the face opposite `label`.
fn label_across(labels: &[u8; 4], label: u8, perm: Perm4, v: u8) -> u8
    requires { v < 4 }
    ensures { result ≡ substitute label 4 (image labels.now (preimage perm v)) }
{
    let before = labels[perm.preimage(v) as usize];
    if before == label { 4 } else { before }
}

/// The facet across the face of `own` opposite label `label`, whose gluing is `glue`.
pub fn facet_beyond(own: Facet, label: u8, glue: Glue) -> Facet
    ensures { result ≡ moves.facet_across own label glue }
{
    Facet {
        tet: glue.tet,
        missing: label,
        labels: [
            label_across(&own.labels, label, glue.perm, 0),
            label_across(&own.labels, label, glue.perm, 1),
            label_across(&own.labels, label, glue.perm, 2),
            label_across(&own.labels, label, glue.perm, 3),
        ],
    }
}

/// The facet of move `m` that lacks label `label`: the move's own tetrahedron for 4, otherwise the one across its face
/// opposite the label, or `None` if that is a boundary face.
pub fn facet_at(table: &Table, m: Move, label: u8) -> Option<Facet>
    ensures { result ≡ moves.facet table.now m label }
{
    let own = own_facet(m);
    if label == 4 {
        return Some(own);
    }
    match glue_opposite(table, own, label) {
        Some(glue) => Some(facet_beyond(own, label, glue)),
        None => None,
    }
}

/// The labels of the vertices that `perm` maps to.
#[tactic(auto, unfolding(table_definitions::specs::Permutation::compose))]
fn labels_reached(labels: &[u8; 4], perm: Perm4) -> [u8; 4]
    ensures { result ≡ compose labels.now perm }
{
    [
        labels[perm.image(0) as usize],
        labels[perm.image(1) as usize],
        labels[perm.image(2) as usize],
        labels[perm.image(3) as usize],
    ]
}

/// `label`, or `new` if it equals `old`.
pub fn replace_label(label: u8, old: u8, new: u8) -> u8
    ensures { result ≡ substitute old new label }
{
    if label == old { new } else { label }
}

/// The labels to which the gluing of `f` to `g` has to map.
fn required_labels(f: Facet, g: Facet) -> [u8; 4]
    ensures { result ≡ map (substitute g.missing f.missing) f.labels }
{
    let [a, b, c, d] = f.labels;
    [
        replace_label(a, g.missing, f.missing),
        replace_label(b, g.missing, f.missing),
        replace_label(c, g.missing, f.missing),
        replace_label(d, g.missing, f.missing),
    ]
}

/// Whether facets `f` and `g` are glued to each other label by label.
pub fn is_matched(table: &Table, f: Facet, g: Facet) -> bool
    ensures { result ≡ moves.is_matched f g (gluings.glue table.now (moves.opposite f g.missing)) }
{
    match glue_opposite(table, f, g.missing) {
        Some(glue) => {
            glue.tet == g.tet && labels_reached(&g.labels, glue.perm) == required_labels(f, g)
        }
        None => false,
    }
}
