//! The vectors of the components.

ghost use Rattle.std.specs.Prelude.{◌≡◌, ◌+◌, ◌<◌, ◌^◌, length, replicate, slice_set, slice_index, IfOk};
ghost use Rattle.surface_vector_definitions.specs.Entries.{all_entries};
ghost use Rattle.surface_pieces.specs.Vectors.{AreVectors};

use crate::surface::DiscComponents;
use std::alloc::{AllocError, Global};

/// `count` vectors of `columns` zeros.
fn zeros(alloc: Global, count: u32, columns: usize) -> Result<Vec<Vec<u128>>, AllocError>
    ensures { IfOk result (λ vectors. all_entries vectors.items ≡ replicate count (replicate columns 0)) }
{
    let mut vectors = Vec::with_capacity(alloc, count as usize)?;
    for _made in 0..count {
        vectors.push(vec![in alloc; 0; columns]?)?;
    }
    Ok(vectors)
}

/// Adds a disc of `column` to `vector`.
fn count_piece(vector: &mut [u128], column: u32)
    requires in_range { column < length vector.old }
    requires limited { slice_index vector.old column < 2 ^ 64 }
    ensures { vector.new ≡ slice_set vector.old column (slice_index vector.old column + 1) }
{
    vector[column as usize] += 1;
}

/// For each component its number of discs in each column.
pub fn vectors_of(alloc: Global, of: DiscComponents) -> Result<Vec<Vec<u128>>, AllocError>
    ensures { IfOk result (λ vectors.
        AreVectors of.entry.pieces.surface.entries.now of.entry.components.now of.entry.count
        (all_entries vectors.items)) }
{
    let DiscComponents {
        pieces,
        components,
        count,
    } = of;
    let mut vectors = zeros(alloc, count, pieces.surface.entries.len())?;
    for number in 0..pieces.listed.len() {
        let piece = pieces.listed[number];
        let vector = &mut vectors[components[number] as usize];
        count_piece(vector, piece.column);
    }
    Ok(vectors)
}
