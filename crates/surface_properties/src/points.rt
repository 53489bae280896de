//! Counts the points in which a surface meets the edges.

ghost use Rattle.std.specs.Prelude.{◌≡◌, ◌*◌, ◌<◌, length};
ghost use Rattle.surface_definitions.specs.Characteristic as characteristic;
ghost use Rattle.surface_properties.specs.Capped.{capped};

use crate::sums::{add, sum_at};
use crate::vectors::DiscVector;
use normal_discs::edge_columns;
use skeleton::{Skeleton, edge_ends};

impl<'a> DiscVector<'a> {
    /// The edge weight: in how many points the surface meets edge `edge % 6` of tetrahedron `edge / 6`.
    fn weight(&self, edge: u32) -> u128
        requires { edge < 6 * length self.now.table.now }
        ensures { result ≡ capped (characteristic.weight self.now.coords.system self.now.entries.now edge) }
    {
        let (lower, higher) = edge_ends((edge % 6) as u8);
        let columns = edge_columns(self.coords, edge / 6, lower, higher);
        sum_at(self.entries, columns.as_slice())
    }

    /// The number of points: the sum of the edge weights, one for each edge class. `skeleton` is that of the vector's
    /// table.
    pub fn points(&self, skeleton: &Skeleton) -> u128
        requires { skeleton.now.rows ≡ self.now.table.now }
        ensures { result ≡ capped (characteristic.points self.now.coords.system self.now.entries.now
            skeleton.now.edges.classes skeleton.now.edges.count) }
    {
        let mut total = 0;
        for class in 0..skeleton.edges() {
            total = add(total, self.weight(skeleton.first_edge(class)));
        }
        total
    }
}
