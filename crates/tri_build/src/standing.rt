//! The images of the tetrahedra before a step in the table after its inverse move.

ghost use Rattle.std.specs.Prelude.{◌≡◌, ◌<◌, ◌==◌, length, not, filter, slice_index};
ghost use Rattle.table_definitions.specs.Lists.{below};
ghost use Rattle.table_definitions.specs.Permutation.{preimage};
ghost use Rattle.tri_build.specs.Standing.{HasFacetImage, HasImageAt, number_without, put_in, retained_image, facet_image, image_at};

use crate::steps::PlayedMove;
use gluing_table::{Glue, Relabelling};
use pachner_moves::{Facet, Label, Move, Pattern, closed_number, facet_of};
use perm_four::Perm4;
use std::marker::Model;

/// The inverse move of a step, the number of tetrahedra that it retains, the facets that it removes, and its label that
/// corresponds to each label of the step. Invariant: `kept` is at most `MAX_TETS`, and each label is below 5.
#[derive(Drop)]
pub struct InverseMove {
    pub played: Move,
    pub kept: u32,
    pub pattern: Pattern,
    pub labels: [u8; 5],
}

impl Model for InverseMove {
    ghost use Rattle.std.specs.Prelude.{◌<◌, ◌≤◌, All};
    ghost use Rattle.table_definitions.specs.Table.{max_tets};
    ghost use Rattle.tri_build.specs.Standing as standing;

    ghost Value = { standing.Back };

    ghost view = { λ b. record { played = b.played; kept = b.kept; facets = b.pattern.facets.items; labels = b.labels } };

    ghost invariant = { λ b. (b.kept ≤ max_tets) × All (λ l. l < 5) b.labels };
}

impl InverseMove {
    /// The label of the inverse move that corresponds to `label` of the step.
    fn label_of(&self, label: Label) -> Label
        ensures { result.number ≡ slice_index self.now.labels label.number }
    {
        Label {
            number: self.labels[label.number as usize],
        }
    }
}

/// The vertex with label `label` of the facet that lacks `missing`, or 4.
fn vertex_without(missing: Label, label: Label) -> u8
    ensures { result ≡ preimage (filter (λ l. not (l == missing.number)) (below 5)) label.number }
{
    let (missing, label) = (missing.number, label.number);
    if label == missing {
        return 4;
    }
    if label < missing { label } else { label - 1 }
}

/// The image of tetrahedron `tet`, which the step retained.
fn retained_image(step: &PlayedMove, back: &InverseMove, on: &Relabelling, tet: u32) -> Glue
    requires { number_without step.now.facets tet < length on.now.images }
    ensures { result ≡ retained_image step.now back.now on.now tet }
{
    let tet = closed_number(&step.facets, tet);
    Glue {
        tet: closed_number(&back.pattern.facets, on.image(tet)),
        perm: on.perm(tet),
    }
}

/// The image of the vertex with label `label` in the facet that the inverse move adds for `missing`.
fn vertex_back(back: &InverseMove, missing: Label, label: Label) -> u8
    ensures { result ≡ preimage (put_in 0 (slice_index back.now.labels missing.number)).labels
        (slice_index back.now.labels label.number) }
{
    vertex_without(back.label_of(missing), back.label_of(label))
}

/// The image of the facet `f`, which the step removed.
fn facet_image(back: &InverseMove, f: Facet) -> Glue
    requires { HasFacetImage back.now f }
    ensures { result ≡ facet_image back.now f }
{
    let missing = Label { number: f.missing };
    let [a, b, c, d] = f.labels;
    match Perm4::new(
        vertex_back(back, missing, Label { number: a }),
        vertex_back(back, missing, Label { number: b }),
        vertex_back(back, missing, Label { number: c }),
        vertex_back(back, missing, Label { number: d }),
    ) {
        Some(perm) => Glue {
            tet: back.kept + u32::from(back.label_of(missing).number),
            perm,
        },
        None => unreachable!(),
    }
}

/// The image of tetrahedron `tet`, from before `step`, in the table after the inverse move `back`. `on` carries the
/// table after the step to the one on which `back` is played.
pub fn image_at(step: &PlayedMove, back: &InverseMove, on: &Relabelling, tet: u32) -> Glue
    requires { HasImageAt step.now back.now on.now tet }
    ensures { result ≡ image_at step.now back.now on.now tet }
{
    match facet_of(&step.facets, tet) {
        Some(facet) => facet_image(back, facet),
        None => retained_image(step, back, on, tet),
    }
}
