//! Coordinates with triangles.

ghost use Rattle.std.specs.Prelude.{◌≡◌};
ghost use Rattle.surface_definitions.specs.Coordinates.{triangles_each};

use surface_definitions::Coords;

/// Standard or octagon coordinates, in which a vector counts all discs of a surface. Invariant: `system` has triangles.
#[derive(Clone, Copy)]
pub struct DiscCoords {
    pub system: Coords,
    pub ghost triangles: { triangles_each system ≡ 4 },
}

impl DiscCoords {
    /// Standard coordinates: triangles and quads.
    pub const STANDARD: DiscCoords = DiscCoords {
        system: Coords::Standard,
    };

    /// Octagon coordinates: triangles, quads and octagons.
    pub const OCTAGON: DiscCoords = DiscCoords {
        system: Coords::Octagon,
    };
}
