//! Carries moves along a relabelling.

ghost use Rattle.std.specs.Prelude.{◌≡◌, ◌<◌, ◌≤◌, ◌^◌, length, if◌then◌else◌};
ghost use Rattle.table_definitions.specs.Lists.{has};
ghost use Rattle.table_definitions.specs.Permutation.{IsPermutationOfFour, image};
ghost use Rattle.certificate_definitions.specs.CarriedMoves as carried;

use gluing_table::Relabelling;
use pachner_moves::{Core, Label, Move};
use perm_four::Perm4;

/// The bit of the image of vertex `v`, or 0 if `v` is not in the core.
fn bit_under(perm: Perm4, core: Core, v: u8) -> u8
    requires { v < 4 }
    ensures value { result ≡ (if has core v then 2 ^ image perm v else 0) }
    ensures limited { result ≤ 8 }
    ensures permutes { IsPermutationOfFour perm }
{
    let bit = 1 << perm.image(v);
    if core.has(v) { bit } else { 0 }
}

/// The image of `core` under `perm`.
fn core_under(perm: Perm4, core: Core) -> Core
    ensures { result ≡ carried.core_under perm core }
{
    // brings the fact that the core is not empty
    let _ = core.size();
    let mask = bit_under(perm, core, 0)
        + bit_under(perm, core, 1)
        + bit_under(perm, core, 2)
        + bit_under(perm, core, 3);
    Core::of_mask(mask)
}

/// The image of move `m` under the relabelling `on`.
pub fn move_under(on: &Relabelling, m: Move) -> Move
    requires { m.tet < length on.now.images }
    ensures { result ≡ carried.move_under on.now m }
{
    Move {
        tet: on.image(m.tet),
        core: core_under(on.perm(m.tet), m.core),
    }
}

/// The label, in the image of move `m` under `on`, of the image of the vertex with label `label`; label 4 stays 4.
pub fn label_under(on: &Relabelling, m: Move, label: Label) -> Label
    requires { m.tet < length on.now.images }
    ensures { result.number ≡ carried.label_under on.now m label.number }
{
    if label.number == 4 {
        return Label { number: 4 };
    }
    let perm = on.perm(m.tet);
    let labels = core_under(perm, m.core).labels();
    let vertex = m.core.labels().preimage(label.number);
    Label {
        number: labels.image(perm.image(vertex)),
    }
}
