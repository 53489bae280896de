//! The properties of a normal surface.

ghost use Rattle.std.specs.Prelude.{◌≡◌, ◌≢◌, ◌*◌, ◌<◌, ◌≤◌, true, false, length, slice_index, None, IsTrue, pos, ◌-ℤ◌};
ghost use Rattle.table_definitions.specs.Table as gluings;
ghost use Rattle.text_definitions.specs.Written.{limit};
ghost use Rattle.surface_definitions.specs.Coordinates.{columns, is_quad_or_octagon};
ghost use Rattle.surface_definitions.specs.Characteristic as characteristic;
ghost use Rattle.surface_vector_definitions.specs.Properties.{IsPropertyAnswer};

use crate::sums::{add, sum_of};
use crate::vectors::{DiscVector, VectorFace};
use gluing_table::Face;
use normal_discs::{DiscCoords, columns_each, triangles_each};
use skeleton::Skeleton;
use surface_definitions::Coords;
use surface_vector_definitions::{Properties, PropertyFault, SurfaceSum};
use text_io::LIMIT;

/// Whether `column` is that of a quad or an octagon and its entry in `x` is nonzero.
fn is_quad_or_octagon_entry(coords: Coords, x: &[u128], column: usize) -> bool
    requires { column < length x.now }
    ensures some { IsTrue result → is_quad_or_octagon coords column ≡ true × (0 < slice_index x.now column) }
    ensures none { result ≡ false → is_quad_or_octagon coords column ≡ true → slice_index x.now column ≡ 0 }
{
    let place = column % columns_each(coords) as usize;
    place >= triangles_each(coords) as usize && x[column] > 0
}

/// Whether all quad and octagon entries of `x` are 0, as in a sum of vertex links and in the zero vector.
pub fn is_linking(coords: Coords, x: &[u128]) -> bool
    ensures { result ≡ characteristic.is_linking coords x.now }
{
    for column in 0..x.len() {
        if is_quad_or_octagon_entry(coords, x, column) {
            return false;
        }
    }
    true
}

impl<'a> VectorFace<'a> {
    /// Whether the face is a boundary face that the surface meets.
    fn has_free_arcs(&self) -> bool
        ensures some { IsTrue result → gluings.glue self.now.vector.table.now self.now.face ≡ None
            × (0 < characteristic.arcs_in self.now.vector.coords.system self.now.vector.entries.now self.now.face) }
        ensures none { result ≡ false → gluings.glue self.now.vector.table.now self.now.face ≡ None
            → characteristic.arcs_in self.now.vector.coords.system self.now.vector.entries.now self.now.face ≡ 0 }
    {
        match self.vector.table.glue(self.face) {
            None => self.arcs_in() > 0,
            Some(_) => false,
        }
    }
}

impl<'a> DiscVector<'a> {
    /// Whether the surface meets a boundary face.
    fn meets_boundary(&self) -> bool
        ensures { result ≡ characteristic.meets_boundary self.now.table.now self.now.coords.system
            self.now.entries.now }
    {
        for place in 0..4 * self.table.len() {
            let face = Face {
                tet: place / 4,
                face: (place % 4) as u8,
            };
            let at = VectorFace {
                vector: *self,
                face,
            };
            if at.has_free_arcs() {
                return true;
            }
        }
        false
    }
}

/// The number of points and normal discs of a surface together, and that of its arcs.
#[derive(Clone, Copy)]
struct EulerTerms {
    points_and_pieces: u128,
    arcs: u128,
    ghost first: { points_and_pieces ≤ limit },
    ghost second: { arcs ≤ limit },
}

/// The Euler characteristic of a surface.
fn euler(terms: EulerTerms) -> i128
    ensures { result ≡ pos terms.points_and_pieces -ℤ pos terms.arcs }
{
    let EulerTerms {
        points_and_pieces,
        arcs,
    } = terms;
    points_and_pieces as i128 - arcs as i128
}

/// The properties of the normal surface `x`, in standard or octagon coordinates (Haken 1961; Jaco and Rubinstein 2003).
///
///
/// Fails with `Large` if a sum exceeds 2^127 - 1, and names the first that does: points, arcs, or points and normal
/// discs together.
pub fn properties_of(
    skeleton: &Skeleton,
    coords: Coords,
    x: &[u128],
) -> Result<Properties, PropertyFault>
    requires coords { coords ≢ Coords.Quad }
    requires width { length x.now ≡ columns coords (length skeleton.now.rows) }
    ensures { IsPropertyAnswer limit skeleton.now coords x.now result }
{
    let vector = DiscVector {
        table: skeleton.table(),
        coords: DiscCoords { system: coords },
        entries: x,
    };
    let points = vector.points(skeleton);
    if points > LIMIT {
        return Err(PropertyFault::Large {
            sum: SurfaceSum::Points,
        });
    }
    let arcs = vector.arcs();
    if arcs > LIMIT {
        return Err(PropertyFault::Large {
            sum: SurfaceSum::Arcs,
        });
    }
    let pieces = sum_of(x);
    let both = add(points, pieces);
    if both > LIMIT {
        return Err(PropertyFault::Large {
            sum: SurfaceSum::PointsAndPieces,
        });
    }
    let terms = EulerTerms {
        points_and_pieces: both,
        arcs,
    };
    Ok(Properties {
        points,
        arcs,
        pieces,
        euler: euler(terms),
        linking: is_linking(coords, x),
        boundary: vector.meets_boundary(),
    })
}
