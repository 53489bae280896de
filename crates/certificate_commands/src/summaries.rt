//! Writes the counts of a list of surfaces.
ghost use Rattle.std.specs.Prelude.{◌≡◌, ℕ, count_by, IfOk};
ghost use Rattle.surface_definitions.specs.declared.Coords.TheVariants.{Standard};
ghost use Rattle.surface_definitions.specs.Characteristic as characteristic;
ghost use Rattle.outcome_definitions.specs.Makings.{IsGreatestEntry, summary_text, summary_outcome};
ghost use Rattle.certificate_commands.specs.Entries.{IsGreatestOf};

use command_answers::{Outcome, append_number_line};
use cone_arithmetic::Ray;
use out_of_memory::NoMemory;
use outcome_definitions::Status;
use std::alloc::Global;
use std::marker::Model;
use surface_definitions::Coords;
use surface_properties::is_linking;

/// The greatest of `least` and `entries`.
fn greater_of(least: u128, entries: &[u128]) -> u128
    ensures { IsGreatestOf least entries.now result }
{
    let mut greatest = least;
    for entry in entries {
        greatest = greatest.max(*entry);
    }
    greatest
}

/// The greatest entry of the vectors in `list`, or 0 if there is none.
pub fn greatest_entry(list: &[Ray]) -> u128
    ensures { IsGreatestEntry list.now result }
{
    let mut greatest = 0;
    for ray in list {
        greatest = greater_of(greatest, ray.entries());
    }
    greatest
}

/// The number of surfaces in `list` without quads.
pub fn linking_count(list: &[Ray]) -> u64
    ensures { result ≡ count_by (characteristic.is_linking Standard) list.now }
{
    let mut count = 0;
    for ray in list {
        if is_linking(Coords::Standard, ray.entries()) {
            count += 1;
        }
    }
    count
}

/// The numbers of a table that was made: its seed, the number of moves of its certificate, and its number of
/// tetrahedra.
#[derive(Clone, Copy)]
pub struct MadeNumbers {
    pub seed: u64,
    pub moves: u32,
    pub tetrahedra: u32,
}

impl Model for MadeNumbers {
    ghost use Rattle.outcome_definitions.specs.Makings as makings;

    ghost Value = { makings.Numbers };

    ghost view = { λ n. record { seed = n.seed; moves = n.moves; tetrahedra = n.tetrahedra } };

    ghost inverse = { λ n. record { seed = n.seed; moves = n.moves; tetrahedra = n.tetrahedra } };
}

/// The text of `bulk`: the numbers of the table, and the counts of its surfaces `list`.
fn summary_text(alloc: Global, numbers: MadeNumbers, list: &[Ray]) -> Result<Vec<u8>, NoMemory>
    ensures { IfOk result (λ text. (greatest : ℕ) × IsGreatestEntry list.now greatest
        × (text.items ≡ summary_text numbers list.now greatest)) }
{
    let moves = u128::from(numbers.moves);
    let mut text = Vec::new(alloc);
    append_number_line(alloc, &mut text, b"seed ", u128::from(numbers.seed))?;
    append_number_line(alloc, &mut text, b"moves ", moves)?;
    append_number_line(
        alloc,
        &mut text,
        b"tetrahedra ",
        u128::from(numbers.tetrahedra),
    )?;
    append_number_line(alloc, &mut text, b"certificate accepted ", moves)?;
    append_number_line(alloc, &mut text, b"surfaces ", list.len() as u128)?;
    append_number_line(alloc, &mut text, b"largest ", greatest_entry(list))?;
    append_number_line(
        alloc,
        &mut text,
        b"linking ",
        u128::from(linking_count(list)),
    )?;
    Ok(text)
}

/// The outcome of `bulk` for a table with the numbers `numbers` and the vertex surfaces `list`.
pub fn summary_outcome(
    alloc: Global,
    numbers: MadeNumbers,
    list: &[Ray],
) -> Result<Outcome, NoMemory>
    ensures { IfOk result (λ o. (greatest : ℕ) × IsGreatestEntry list.now greatest
        × (o ≡ summary_outcome numbers list.now greatest)) }
{
    let text = summary_text(alloc, numbers, list)?;
    Ok(Outcome::with_text(Status::Done, text))
}
