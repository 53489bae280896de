//! The entries of a vector, and its normal discs.

ghost use Rattle.std.specs.Prelude.{◌≡◌, ◌≤◌, sum, IfOk};
ghost use Rattle.text_definitions.specs.Written.{limit};
ghost use Rattle.surface_vector_definitions.specs.Components.{most_pieces};

use std::alloc::{AllocError, Global};
use std::marker::Model;

/// A normal disc: its column, and its number among the discs of that column.
#[derive(Clone, Copy)]
pub struct NumberedDisc {
    pub column: u32,
    pub number: u32,
}

impl Model for NumberedDisc {
    ghost use Rattle.surface_definitions.specs.Pieces as pieces;

    ghost Value = { pieces.NormalDisc };

    ghost view = { λ p. record { column = p.column; number = p.number } };

    ghost inverse = { λ p. record { column = p.column; number = p.number } };
}

/// The sum of `x`.
pub fn total(x: &[u128]) -> u128
    requires { sum x.now ≤ limit }
    ensures { result ≡ sum x.now }
{
    let mut total = 0;
    for entry in x {
        total += *entry;
    }
    total
}

/// The entries of `x` in 32 bits.
pub fn entries_of(alloc: Global, x: &[u128]) -> Result<Vec<u32>, AllocError>
    requires { sum x.now ≤ most_pieces }
    ensures { IfOk result (λ entries. entries.items ≡ x.now) }
{
    let mut entries = Vec::with_capacity(alloc, x.len())?;
    for entry in x {
        entries.push(*entry as u32)?;
    }
    Ok(entries)
}
