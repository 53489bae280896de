//! The bound on the numbers of an enumeration by the number of tetrahedra.

ghost use Rattle.std.specs.Prelude.{◌≡◌, ◌*◌, ◌^◌, ◌<◌, ◌≤◌, ◌↔◌, IsTrue, SomeIff};
ghost use Rattle.surface_equation_laws.specs.Bounds as bounds;

use matching_equations::Coords;

/// The factor of 16^`tets` in the bound.
fn factor(coords: Coords, tets: u32) -> u64
    ensures { result * 16 ^ tets ≡ bounds.number_bound coords tets }
{
    match coords {
        Coords::Standard => 4,
        Coords::Quad => 12 * u64::from(tets),
        Coords::Octagon => 8 * 64,
    }
}

/// The bound on the numbers of an enumeration for `tets` tetrahedra, or `None` if it does not fit in 128 bits.
fn number_bound(coords: Coords, tets: u32) -> Option<u128>
    ensures { SomeIff result (bounds.number_bound coords tets < 2 ^ 128) (bounds.number_bound coords tets) }
{
    let power = 16u128.checked_pow(tets)?;
    power.checked_mul(u128::from(factor(coords, tets)))
}

/// Whether the bound on the numbers of an enumeration for `tets` tetrahedra is at most `limit`.
pub fn numbers_fit(coords: Coords, tets: u32, limit: u128) -> bool
    ensures { IsTrue result ↔ (bounds.number_bound coords tets ≤ limit) }
{
    match number_bound(coords, tets) {
        Some(bound) => bound <= limit,
        None => false,
    }
}
