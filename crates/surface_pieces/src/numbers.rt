//! The normal discs of a surface in order.

ghost use Rattle.std.specs.Prelude.{◌≡◌, ◌+◌, ◌++◌, map, IfOk, OnOk};
ghost use Rattle.table_definitions.specs.Lists.{below};
ghost use Rattle.surface_definitions.specs.Pieces as pieces;
ghost use Rattle.surface_pieces.specs.Starts.{AreStarts};

use crate::counts::NumberedDisc;
use crate::surface::{ListedDisc, SmallSurface};
use std::alloc::{AllocError, Global};

/// Appends the `entry` discs of `column`.
fn append_column(listed: &mut Vec<NumberedDisc>, column: u32, entry: u32) -> Result<(), AllocError>
    ensures { OnOk result (listed.new.items
        ≡ listed.old.items ++ map (λ i. record { column = column; number = i }) (below entry)) }
{
    for number in 0..entry {
        listed.push(NumberedDisc { column, number })?;
    }
    Ok(())
}

/// For each column of `surface` the number of discs in the columns before it.
pub fn starts_of(alloc: Global, surface: &SmallSurface) -> Result<Vec<u32>, AllocError>
    ensures { IfOk result (λ starts. AreStarts surface.now.entries.now starts.items) }
{
    let mut starts = Vec::with_capacity(alloc, surface.entries.len())?;
    let mut before = 0;
    for entry in surface.entries {
        starts.push(before)?;
        before += *entry;
    }
    Ok(starts)
}

/// All discs of `surface`, by column and number.
pub fn all_pieces(alloc: Global, surface: &SmallSurface) -> Result<Vec<NumberedDisc>, AllocError>
    ensures { IfOk result (λ listed. listed.items ≡ pieces.discs_of surface.now.entries.now) }
{
    let mut listed = Vec::new(alloc);
    for column in 0..surface.entries.len() as u32 {
        append_column(&mut listed, column, surface.entries[column as usize])?;
    }
    Ok(listed)
}

impl<'a> ListedDisc<'a> {
    /// The index of the disc among all discs.
    pub fn number_of(&self) -> u32
        ensures { result ≡ pieces.disc_number self.now.pieces.surface.entries.now self.now.piece }
    {
        let piece = self.piece;
        self.pieces.starts[piece.column as usize] + piece.number
    }
}
