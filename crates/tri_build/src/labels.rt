//! The labels of a step, and the corresponding labels of its inverse move.

ghost use Rattle.std.specs.Prelude.{◌≡◌, ◌<◌, length, map, All};
ghost use Rattle.table_definitions.specs.Lists.{below};
ghost use Rattle.move_definitions.specs.Moves.{inverse_move};
ghost use Rattle.tri_build.specs.Standing.{inverse_label, label_back};

use crate::carrying::label_under;
use crate::steps::PlayedMove;
use gluing_table::Relabelling;
use pachner_moves::{Core, Label};

/// The label, in the inverse of a move with core `core`, of the vertices with label `label`.
fn inverse_label(core: Core, label: Label) -> Label
    ensures { result.number ≡ inverse_label (length core) label.number }
{
    let size = core.size();
    if label.number >= size {
        return Label {
            number: label.number - size,
        };
    }
    if label.number == 0 {
        return Label { number: 4 };
    }
    Label {
        number: label.number + (4 - size),
    }
}

/// The label of the carried inverse move that corresponds to `label` of the step.
fn label_back(step: &PlayedMove, on: &Relabelling, label: Label) -> u8
    requires { (inverse_move step.now.tets step.now.played).tet < length on.now.images }
    ensures value { result ≡ label_back step.now on.now label.number }
    ensures a_label { result < 5 }
{
    let label = inverse_label(step.played.core, label);
    label_under(on, step.inverse(), label).number
}

/// The label of the inverse move, carried by `on`, that corresponds to each label of `step`.
pub fn labels_back(step: &PlayedMove, on: &Relabelling) -> [u8; 5]
    requires { (inverse_move step.now.tets step.now.played).tet < length on.now.images }
    ensures value { result ≡ map (label_back step.now on.now) (below 5) }
    ensures labels { All (λ l. l < 5) result }
{
    [
        label_back(step, on, Label { number: 0 }),
        label_back(step, on, Label { number: 1 }),
        label_back(step, on, Label { number: 2 }),
        label_back(step, on, Label { number: 3 }),
        label_back(step, on, Label { number: 4 }),
    ]
}
