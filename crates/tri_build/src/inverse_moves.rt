//! The inverse moves of the steps, each carried to the table to which the later ones led.

ghost use Rattle.std.specs.Prelude.{◌≡◌, List, [], length, IfOk, OnOk};
ghost use Rattle.table_definitions.specs.Table.{Row};
ghost use Rattle.table_definitions.specs.Permutation.{identity};
ghost use Rattle.table_definitions.specs.Relabelling as labels;
ghost use Rattle.certificate_definitions.specs.CarriedBack as ways;
ghost use Rattle.certificate_definitions.specs.CarriedBack.{AreCarriedBack};
ghost use Rattle.tri_build.specs.Steps.{AreSteps, moves_of, CarriesToNow, CanGoBack, GoesBack};
ghost use Rattle.tri_build.specs.Standing.{IsBack, IsImageRelabelling};

use crate::carrying::move_under;
use crate::labels::labels_back;
use crate::standing::{InverseMove, image_at};
use crate::steps::PlayedMove;
use gluing_table::{Relabelling, Table};
use out_of_memory::NoMemory;
use pachner_moves::{Move, apply_legal, legal, retained};
use perm_four::Perm4;
use std::alloc::Global;

/// The relabelling that maps each tetrahedron before `step` to its image after the inverse move `back`; `on` carries
/// the table after the step.
fn carry_back(
    alloc: Global,
    step: &PlayedMove,
    back: &InverseMove,
    on: &Relabelling,
) -> Result<Relabelling, NoMemory>
    requires { (by : labels.Relabelling) × IsImageRelabelling step.now back.now on.now by }
    ensures { IfOk result (λ r. (by : labels.Relabelling) → IsImageRelabelling step.now back.now on.now by → r ≡ by) }
{
    let mut images = Vec::new(alloc);
    let mut perms = Vec::new(alloc);
    for tet in 0..step.tets {
        let image = image_at(step, back, on, tet);
        images.push(image.tet)?;
        perms.push(image.perm)?;
    }
    Ok(Relabelling::from_sound(images, perms))
}

/// The inverse move of a step, carried by `on`, with what it removes.
fn back_of(step: &PlayedMove, now: &Table, on: &Relabelling) -> InverseMove
    requires { CanGoBack step.now now.now on.now }
    ensures { IsBack step.now now.now on.now result }
{
    let played = move_under(on, step.inverse());
    match legal(now, played) {
        Ok(pattern) => InverseMove {
            played,
            kept: retained(now.len(), played.core),
            pattern,
            labels: labels_back(step, on),
        },
        Err(_) => unreachable!(),
    }
}

/// The inverse moves so far, the table to which they led, and the relabelling that carries to it the table after the
/// steps that are left.
#[derive(Drop)]
struct InverseMoves {
    now: Table,
    on: Relabelling,
    moves: Vec<Move>,
}

impl InverseMoves {
    /// Plays the inverse move of `step`.
    fn go_back(&mut self, alloc: Global, step: &PlayedMove) -> Result<(), NoMemory>
        requires { CanGoBack step.now self.old.now self.old.on }
        ensures { OnOk result ((old : List Row) → CarriesToNow old step.now self.old.now self.old.on
            → GoesBack old step.now self.old.now self.old.on self.old.moves.items self.new.moves.items self.new.now
            self.new.on) }
    {
        let back = back_of(step, &self.now, &self.on);
        let by = carry_back(alloc, step, &back, &self.on)?;
        self.moves.push(back.played)?;
        match apply_legal(&mut self.now, back.played, &back.pattern) {
            Ok(_) => {
                self.on = by;
                Ok(())
            }
            Err(_) => unreachable!(),
        }
    }
}

/// The identity relabelling of `table`.
fn staying(alloc: Global, table: &Table) -> Result<Relabelling, NoMemory>
    ensures { IfOk result (λ by. by ≡ ways.staying (length table.now)) }
{
    let mut images = Vec::new(alloc);
    let mut perms = Vec::new(alloc);
    for tet in 0..table.len() {
        images.push(tet)?;
        perms.push(Perm4::identity())?;
    }
    Ok(Relabelling::from_sound(images, perms))
}

/// The inverse moves of `steps`, last step first, each carried to the table that the inverse moves before it leave.
/// `table` is the table to which the steps led.
pub fn inverse_moves(
    alloc: Global,
    table: &Table,
    mut steps: Vec<PlayedMove>,
) -> Result<Vec<Move>, NoMemory>
    requires { (first : List Row) × AreSteps first steps.items table.now }
    ensures { IfOk result (λ moves.
        (first : List Row) → AreSteps first steps.items table.now → (end : List Row) × (by : labels.Relabelling)
        × AreCarriedBack first (moves_of steps.items) table.now moves.items end by) }
{
    let mut way = InverseMoves {
        now: table.copy(alloc)?,
        on: staying(alloc, table)?,
        moves: Vec::new(alloc),
    };
    while let Some(step) = steps.pop() {
        way.go_back(alloc, &step)?;
    }
    Ok(way.moves)
}
