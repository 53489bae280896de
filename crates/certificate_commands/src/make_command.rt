//! The command `make`: makes a table with its certificate.
ghost use Rattle.std.specs.Prelude.{◌≡◌, IfOk};
ghost use Rattle.outcome_definitions.specs.Certificates.{table_then_moves};
ghost use Rattle.outcome_definitions.specs.Makings.{IsMakeAnswer};

use command_answers::Outcome;
use gluing_table::write_table;
use move_undo::write_moves;
use out_of_memory::NoMemory;
use outcome_definitions::Status;
use std::alloc::Global;
use tri_build::Made;

/// The text of `made`: the table, and the moves of its certificate.
#[tactic(auto, unfolding(outcome_definitions::specs::Certificates::moves_text))]
fn text_of(alloc: Global, made: &Made) -> Result<Vec<u8>, NoMemory>
    ensures { IfOk result (λ text. text.items ≡ table_then_moves made.now.table made.now.certificate.items) }
{
    let mut text = Vec::new(alloc);
    write_table(alloc, &made.table, &mut text)?;
    write_moves(alloc, &made.certificate, &mut text)?;
    Ok(text)
}

/// The outcome of `make`: the table made from `seed` by up to `moves` moves, and the moves of its certificate.
pub fn make(alloc: Global, seed: u64, moves: u32) -> Result<Outcome, NoMemory>
    ensures { IfOk result (IsMakeAnswer seed moves) }
{
    let made = tri_build::make(alloc, seed, moves)?;
    let text = text_of(alloc, &made)?;
    Ok(Outcome::with_text(Status::Done, text))
}
