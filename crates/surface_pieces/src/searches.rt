//! The rows of neighbours for the searches of components and of signs.

ghost use Rattle.std.specs.Prelude.{◌≡◌, ◌+◌, ◌*◌, ◌/◌, ◌%◌, ◌<◌, ◌≤◌, length, IfOk};
ghost use Rattle.surface_vector_definitions.specs.Components.{most_pieces};
ghost use Rattle.surface_pieces.specs.Joinings.{AreJoined};
ghost use Rattle.surface_pieces.specs.Searches as searches;
ghost use Rattle.surface_pieces.specs.Searches.{HasClasses};
ghost use Rattle.surface_pieces.specs.Readings as readings;
ghost use Rattle.surface_pieces.specs.Readings.{IsReadRow, AreReadRows};

use crate::joined::{Adjacent, SearchKind, SignKind};
use crate::surface::AdjacentDiscs;
use finite_walks::{Numbering, classes};
use std::alloc::{AllocError, Global};

/// Whether the sign of kind `signs` is equal on both sides of an arc.
fn keeps(signs: SignKind, joined: Adjacent) -> bool
    ensures { result ≡ readings.keeps signs joined }
{
    match signs {
        SignKind::Sides => joined.keeps_sides,
        SignKind::Orientation => joined.keeps_orientation,
    }
}

/// The number of the neighbour of `number`: of a disc, or of a disc with its sign.
fn number_across(kind: SearchKind, number: u32, joined: Adjacent) -> u32
    ensures { result ≡ readings.read_across kind number joined }
{
    let SearchKind::Signed(signs) = kind else {
        return joined.piece;
    };
    if keeps(signs, joined) {
        2 * joined.piece + number % 2
    } else {
        2 * joined.piece + (1 - number % 2)
    }
}

/// As `number_across`, if there is a neighbour `joined`.
fn number_at(kind: SearchKind, number: u32, joined: Option<Adjacent>) -> Option<u32>
    ensures { result ≡ readings.read_at kind number joined }
{
    let across = joined?;
    Some(number_across(kind, number, across))
}

/// The neighbours of `number`, by the row `joined` of its disc.
fn row_of<const N: usize>(
    joined: &[Option<Adjacent>; N],
    kind: SearchKind,
    number: u32,
) -> [Option<u32>; N]
    ensures { IsReadRow kind number joined.now result }
{
    let mut row = [None; N];
    for slot in 0..N {
        row[slot] = number_at(kind, number, joined[slot]);
    }
    row
}

/// The disc of `number`.
fn piece_in(kind: SearchKind, number: usize) -> usize
    ensures { result ≡ searches.piece_in kind number }
{
    match kind {
        SearchKind::Pieces => number,
        SearchKind::Signed(_) => number / 2,
    }
}

impl<'a, const N: usize> AdjacentDiscs<'a, N> {
    /// The number of numbers in a search of kind `kind`.
    fn numbers(&self, kind: SearchKind) -> usize
        ensures value { result ≡ searches.numbers kind (length self.now.rows.now) }
        ensures limited { result ≤ 2 * most_pieces }
    {
        match kind {
            SearchKind::Pieces => self.rows.len(),
            SearchKind::Signed(_) => 2 * self.rows.len(),
        }
    }

    /// The neighbours of each number in a search of kind `kind`.
    fn rows_of(&self, alloc: Global, kind: SearchKind) -> Result<Vec<[Option<u32>; N]>, AllocError>
        ensures { IfOk result (λ rows. AreReadRows kind self.now.rows.now rows.items) }
    {
        let numbers = self.numbers(kind);
        let joined = self.rows;
        let mut rows = Vec::with_capacity(alloc, numbers)?;
        for number in 0..numbers {
            let of_piece = &joined[piece_in(kind, number)];
            rows.push(row_of(of_piece, kind, number as u32))?;
        }
        Ok(rows)
    }

    /// The classes of connected numbers in a search of kind `kind`.
    pub fn classes_of(&self, alloc: Global, kind: SearchKind) -> Result<Numbering, AllocError>
        requires { AreJoined self.now.surface.table.now self.now.surface.coords.system self.now.surface.entries.now
            self.now.rows.now }
        ensures { IfOk result (λ r. HasClasses kind self.now.surface.table.now self.now.surface.coords.system
            self.now.surface.entries.now r.classes.items r.count) }
    {
        let rows = self.rows_of(alloc, kind)?;
        let found = classes(alloc, &rows)?;
        Ok(found)
    }
}
