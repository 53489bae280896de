//! The types of quads and octagons: 0 for 01/23, 1 for 02/13 and 2 for 03/12.

ghost use Rattle.std.specs.Prelude.{◌≡◌, ◌≢◌, ◌==◌, not, ◌<◌, [], ◌∷◌, filter};
ghost use Rattle.surface_definitions.specs.Coordinates as coordinates;
ghost use Rattle.surface_definitions.specs.Coordinates.{three};

/// The type that has the vertices `vertex` and `other`, which differ, on one side.
pub fn keeping(vertex: u8, other: u8) -> u8
    requires a_vertex { vertex < 4 }
    requires another { other < 4 }
    requires separate { vertex ≢ other }
    ensures value { result ≡ coordinates.keeping vertex other }
    ensures in_range { result < 3 }
{
    (vertex ^ other) - 1
}

/// The other vertex on the side of `vertex` of a disc of type `kind`.
pub fn partner(kind: u8, vertex: u8) -> u8
    requires a_type { kind < 3 }
    requires a_vertex { vertex < 4 }
    ensures value { result ≡ coordinates.partner kind vertex }
    ensures in_range { result < 4 }
    ensures other { result ≢ vertex }
{
    vertex ^ (kind + 1)
}

/// The two types other than `kind`, ascending.
pub fn other_types(kind: u8) -> (u8, u8)
    requires { kind < 3 }
    ensures value { result.0 ∷ result.1 ∷ [] ≡ filter (λ k. not (k == kind)) three }
    ensures first { result.0 < 3 }
    ensures second { result.1 < 3 }
{
    match kind {
        0 => (1, 2),
        1 => (0, 2),
        _ => (0, 1),
    }
}
