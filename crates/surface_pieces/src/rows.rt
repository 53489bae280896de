//! The neighbours of each disc.

ghost use Rattle.std.specs.Prelude.{◌≡◌, IfOk};
ghost use Rattle.surface_pieces.specs.Joinings.{IsJoinedRow, AreJoined};
ghost use Rattle.surface_pieces.specs.Slots.{slots_each};

use crate::joined::Adjacent;
use crate::surface::{ListedDisc, NumberedDiscs};
use std::alloc::{AllocError, Global};

/// The neighbours of `disc` across its arcs, by slot.
fn joined_row<const N: usize>(disc: &ListedDisc) -> [Option<Adjacent>; N]
    requires { N ≡ slots_each disc.now.pieces.surface.coords.system }
    ensures { IsJoinedRow disc.now.pieces.surface.table.now disc.now.pieces.surface.coords.system
        disc.now.pieces.surface.entries.now disc.now.piece result }
{
    let mut row = [None; N];
    for slot in 0..N {
        row[slot] = disc.joined_at(slot as u32);
    }
    row
}

/// The neighbours of each of `pieces` across its arcs, by slot.
pub fn joined_rows<const N: usize>(
    alloc: Global,
    pieces: &NumberedDiscs,
) -> Result<Vec<[Option<Adjacent>; N]>, AllocError>
    requires { N ≡ slots_each pieces.now.surface.coords.system }
    ensures { IfOk result (λ joined.
        AreJoined pieces.now.surface.table.now pieces.now.surface.coords.system pieces.now.surface.entries.now
        joined.items) }
{
    let mut joined = Vec::with_capacity(alloc, pieces.listed.len())?;
    for piece in pieces.listed {
        let disc = ListedDisc {
            pieces: *pieces,
            piece: *piece,
        };
        joined.push(joined_row(&disc))?;
    }
    Ok(joined)
}
