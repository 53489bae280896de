//! Orientation, vertex links, tours around edges, and the skeleton of a table. The definitions are in `specs/`;
//! `proofs/` has worked examples.
#![tactic(auto)]

/// The type of a vertex link.
#[derive(Clone, Copy)]
pub enum LinkKind {
    /// Closed, of Euler characteristic 2.
    Sphere,
    /// Not closed, of Euler characteristic 1.
    Disc,
    /// Closed and orientable, of Euler characteristic 0.
    Torus,
    /// Closed and not orientable, of Euler characteristic 0.
    Klein,
    Other,
}

/// The link of a vertex class: one triangle for each member of the class.
#[derive(Clone, Copy)]
pub struct Link {
    pub triangles: u32,
    pub edges: u32,
    pub vertices: u32,
    /// The Euler characteristic: vertices less edges plus triangles.
    pub euler: i64,
    /// No side of a triangle lies in a boundary face.
    pub closed: bool,
    pub orientable: bool,
    pub kind: LinkKind,
}
