//! The neighbour of a disc across one of its arcs.

use std::marker::Model;

/// The disc across an arc, and which signs are equal on both sides of it. Invariant: `piece` is at most 100,000.
#[derive(Clone, Copy)]
pub struct Adjacent {
    pub piece: u32,
    pub keeps_sides: bool,
    pub keeps_orientation: bool,
}

impl Model for Adjacent {
    ghost use Rattle.std.specs.Prelude.{◌≤◌};
    ghost use Rattle.surface_vector_definitions.specs.Components.{most_pieces};
    ghost use Rattle.surface_pieces.specs.Across.{Across};

    ghost Value = { Across };

    ghost view = { λ j. record { piece = j.piece; keeps_sides = j.keeps_sides; keeps_orientation = j.keeps_orientation } };

    ghost inverse = { λ j. record { piece = j.piece; keeps_sides = j.keeps_sides; keeps_orientation = j.keeps_orientation } };

    ghost invariant = { λ j. j.piece ≤ most_pieces };
}

/// The two kinds of signs of discs: for their sides, or for their orientations.
#[derive(Clone, Copy)]
pub enum SignKind {
    Sides,
    Orientation,
}

/// The numbers that a search connects: those of discs, or of discs with a sign.
#[derive(Clone, Copy)]
pub enum SearchKind {
    Pieces,
    Signed(SignKind),
}
