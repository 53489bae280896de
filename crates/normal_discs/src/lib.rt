//! The normal discs of a tetrahedron, with the columns of its triangles, quads and octagons, and those that meet a face
//! around a vertex, or an edge.
#![tactic(auto)]

mod coords;
mod disc_coords;
mod meetings;
mod types;

pub use coords::{
    before_octagons, columns, columns_each, first_column, has_octagons, is_octagon,
    is_quad_or_octagon, octagons_each, place_of, quad_column, tet_of, triangle_column,
    triangles_each, type_of,
};
pub use disc_coords::DiscCoords;
pub use meetings::{arc_columns, edge_columns, octagon_arcs};
pub use types::{keeping, partner};
