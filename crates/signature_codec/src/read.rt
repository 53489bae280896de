//! What is read of a signature before its faces are glued.

ghost use Rattle.std.specs.Prelude.{◌≤◌, ◌+◌, length};
ghost use Rattle.table_definitions.specs.Table.{max_tets};

/// The number of tetrahedra, the number of characters for each number, and the position of the types. Invariant:
/// `count` is at most 1,000, and `width` at most 2.
#[derive(Clone, Copy)]
pub struct Head {
    pub count: u32,
    pub width: u32,
    pub next: usize,
    pub ghost limited: { count ≤ max_tets },
    pub ghost narrow: { width ≤ 2 },
}

/// The types read so far, the number of faces not yet accounted for, and the number of types that are 1. Invariant:
/// there are at most 4,000 types and faces together, and at most 1,000 types 1.
#[derive(Drop)]
pub struct Types {
    pub read: Vec<u8>,
    pub left: u32,
    pub ones: u32,
    pub ghost counts: { length read.items + left ≤ 4000 },
    pub ghost bounded_ones: { ones ≤ max_tets },
}

/// The types of a signature, and the position after them.
#[derive(Drop)]
pub struct TypesRead {
    pub types: Types,
    pub next: usize,
}

/// The number of tetrahedra, the types, and for each type 2 its destination and its gluing, with their positions.
#[derive(Drop)]
pub struct Parts {
    pub count: u32,
    pub types: Vec<u8>,
    pub destinations: Vec<(u32, usize)>,
    pub gluings: Vec<(u32, usize)>,
}
