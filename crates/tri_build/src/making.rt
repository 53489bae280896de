//! Makes tables with their certificates.

ghost use Rattle.std.specs.Prelude.{◌≤◌, length, IfOk};
ghost use Rattle.move_definitions.specs.Certificates.{IsCertificate, IsMaking};
ghost use Rattle.certificate_definitions.specs.Makings.{IsMade};
ghost use Rattle.tri_build.specs.Steps.{AreSteps, moves_of};

use crate::generator::next_state;
use crate::inverse_moves::inverse_moves;
use crate::steps::{PlayedMove, draw_step};
use gluing_table::Table;
use out_of_memory::NoMemory;
use pachner_moves::Move;
use sphere_certificate::standard;
use std::alloc::Global;

/// A table that was made, with moves that certify it as a 3-sphere.
#[derive(Drop)]
pub struct Made {
    pub table: Table,
    pub certificate: Vec<Move>,
}

/// Plays up to `most` moves on `table`, each drawn in the next state from `seed` on.
fn play(alloc: Global, table: &mut Table, seed: u64, most: u32) -> Result<Vec<PlayedMove>, NoMemory>
    ensures making { IfOk result (λ steps. IsMaking most seed table.old (moves_of steps.items) table.new) }
    ensures steps { IfOk result (λ steps. AreSteps table.old steps.items table.new) }
    ensures limited { IfOk result (λ steps. length steps.items ≤ most) }
{
    let mut state = seed;
    let mut steps = Vec::new(alloc);
    while steps.len() < most as usize {
        state = next_state(state);
        match draw_step(alloc, table, state)? {
            Some(step) => steps.push(step)?,
            None => return Ok(steps),
        }
    }
    Ok(steps)
}

/// Makes a table by up to `moves` moves from the standard sphere. A generator with seed `seed` draws each among the
/// accepted 2-3 and 3-2 moves, or among the accepted 1-4 moves if there are none. The certificate has at most `moves`
/// moves, the inverse of the last step first.
pub fn make(alloc: Global, seed: u64, moves: u32) -> Result<Made, NoMemory>
    ensures made { IfOk result (λ made. IsMade seed moves made.table made.certificate.items) }
    ensures certified { IfOk result (λ made. IsCertificate made.table made.certificate.items) }
    ensures limited { IfOk result (λ made. length made.certificate.items ≤ moves) }
{
    let mut table = standard(alloc)?;
    let steps = play(alloc, &mut table, seed, moves)?;
    let certificate = inverse_moves(alloc, &table, steps)?;
    Ok(Made { table, certificate })
}
